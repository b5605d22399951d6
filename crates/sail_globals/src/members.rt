ghost use Rattle.std.specs.Prelude.{◌≡◌, ℕ, ◌||◌, List, [], IfOk, OnOk, false};
ghost use Rattle.sail_globals.specs.Bound.{members, members_of, is_among};
ghost use Rattle.sail_globals.specs.Held.{has_member};

use sail_syntax::{Def, Name};
use std::alloc::{AllocError, Global};
use std::collections::HashMap;

/// The members of the enums of a text.
#[derive(Drop)]
pub struct Members<'a> {
    names: HashMap<&'a str, ()>,
}

impl<'a> Members<'a> {
    fn new(alloc: Global) -> Members<'a>
        ensures { (name : List ℕ) → has_member result name ≡ false }
    {
        Members {
            names: HashMap::new(alloc),
        }
    }

    /// Whether one of them has this name.
    pub fn has(&self, name: &str) -> bool
        ensures { result ≡ has_member self.now name.now }
    {
        self.names.get(name).is_some()
    }

    fn add_all(&mut self, names: &'a [Name]) -> Result<(), AllocError>
        ensures { OnOk result ((name : List ℕ) → has_member self.new name ≡ (has_member self.old name || is_among names.now name)) }
    {
        for name in names {
            self.names.insert(name.text.as_str(), ())?;
        }
        Ok(())
    }

    fn add(&mut self, definition: &'a Def) -> Result<(), AllocError>
        ensures { OnOk result ((name : List ℕ) → has_member self.new name ≡ (has_member self.old name || is_among (members_of definition.now) name)) }
    {
        match definition {
            Def::Enum(_, _, names) => self.add_all(names.as_slice()),
            _ => Ok(()),
        }
    }
}

/// The members of the enums of a text. The one error is want of memory.
pub fn find_members<'a>(alloc: Global, definitions: &'a [Def]) -> Result<Members<'a>, AllocError>
    ensures { IfOk result (λ found. (name : List ℕ) → has_member found name ≡ is_among (members definitions.now) name) }
{
    let mut found = Members::new(alloc);
    for definition in definitions {
        found.add(definition)?;
    }
    Ok(found)
}
