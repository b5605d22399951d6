ghost use Rattle.std.specs.Prelude.{◌≡◌, List, [], ◌∷◌, ◌++◌, IfOk, OnOk};
ghost use Rattle.sail_globals.specs.declared.naming.Naming.{Naming as ANaming};
ghost use Rattle.known_names.specs.Held.{AreFirstOf, taking_at};
ghost use Rattle.known_names.specs.Meanings.{entered_by as entered_by_role, naming_entered, naming_of, members_entered};

use sail_base::Items;
use sail_globals::{Alone, Called, Naming, Role, Space};
use sail_syntax::Name;
use std::alloc::{AllocError, Global};
use std::collections::HashMap;

/// How a definition takes a name.
#[derive(Clone, Copy)]
pub(crate) struct Taking {
    pub(crate) role: Role,
    /// The position of the definition.
    pub(crate) number: usize,
}

/// How the first definition takes each name of a value.
#[derive(Drop)]
pub(crate) struct Firsts<'a> {
    names: HashMap<&'a str, Taking>,
}

/// The number of what a call enters that names what is taken so, if any.
fn entered_by(taking: Taking) -> Option<usize>
    ensures { result ≡ entered_by_role taking.role taking.number }
{
    match taking.role {
        Role::Declared(Called::Mapping) => None,
        Role::Defined(Called::Mapping) => None,
        Role::Declared(_) => Some(taking.number),
        Role::Defined(_) => Some(taking.number),
        Role::Whole(Alone::Direction) => Some(taking.number),
        _ => None,
    }
}

impl<'a> Firsts<'a> {
    fn new(alloc: Global) -> Firsts<'a>
        ensures { AreFirstOf [] result }
    {
        Firsts {
            names: HashMap::new(alloc),
        }
    }

    fn held(&self, name: &str) -> Option<Taking>
        ensures { result ≡ taking_at self.now.names name.now }
    {
        self.names.get(name).copied()
    }

    fn add(&mut self, naming: &'a Naming) -> Result<(), AllocError>
        ensures { OnOk result ((earlier : List ANaming) → AreFirstOf earlier self.old → AreFirstOf (earlier ++ naming.now ∷ []) self.new) }
    {
        match naming.space {
            Space::Types => Ok(()),
            Space::Measures => Ok(()),
            Space::Values => self.add_value(naming),
        }
    }

    fn add_value(&mut self, naming: &'a Naming) -> Result<(), AllocError>
        requires { naming.now.space ≡ Space.Values }
        ensures { OnOk result ((earlier : List ANaming) → AreFirstOf earlier self.old → AreFirstOf (earlier ++ naming.now ∷ []) self.new) }
    {
        let name = naming.name.as_str();
        match self.held(name) {
            Some(_) => Ok(()),
            None => {
                let taking = Taking {
                    role: naming.role,
                    number: naming.definition,
                };
                self.names.insert(name, taking)?;
                Ok(())
            }
        }
    }

    fn entered(&self, name: &str) -> Option<usize>
        ensures { (namings : List ANaming) → AreFirstOf namings self.now → result ≡ naming_entered (naming_of namings name.now) }
    {
        match self.held(name) {
            None => None,
            Some(taking) => entered_by(taking),
        }
    }

    /// What a call of an overload with these members can enter.
    pub(crate) fn all_entered(
        &self,
        alloc: Global,
        members: &[Name],
    ) -> Result<Items<usize>, AllocError>
        ensures { IfOk result (λ entered. (namings : List ANaming) → AreFirstOf namings self.now → entered ≡ members_entered namings members.now) }
    {
        let mut entered = Items::new(alloc);
        for member in members {
            if let Some(number) = self.entered(member.text.as_str()) {
                entered.push(number)?;
            }
        }
        Ok(entered)
    }
}

/// How the first of these takes each name of a value. The one error is want of memory.
pub(crate) fn find_firsts<'a>(
    alloc: Global,
    namings: &'a [Naming],
) -> Result<Firsts<'a>, AllocError>
    ensures { IfOk result (λ firsts. AreFirstOf namings.now firsts) }
{
    let mut firsts = Firsts::new(alloc);
    for naming in namings {
        firsts.add(naming)?;
    }
    Ok(firsts)
}
