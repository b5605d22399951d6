ghost use Rattle.std.specs.Prelude.{◌≡◌, ℕ, List, [], ◌++◌, ◌<◌, length, slice_index_or, slice_set, bytes_eq, if◌then◌else◌, IfOk, OnOk};
ghost use Rattle.sail_globals.specs.declared.naming.Naming.{Naming as ANaming};
ghost use Rattle.known_names.specs.Held.{AreFirstOf, AreEntered, entered_at};
ghost use Rattle.known_names.specs.Meanings.{members_entered, added_to_name, added_to_operator, members_of_operator};

use crate::firsts::Firsts;
use sail_base::{Items, operator_number};
use sail_syntax::{Def, Overloaded};
use std::alloc::{AllocError, Global};
use std::collections::HashMap;

/// The count of the operators.
const OPERATORS: usize = 24;

/// What calls of overloads can enter, by the overload's name.
#[derive(Drop)]
pub(crate) struct Entered<'a> {
    names: HashMap<&'a str, Items<usize>>,
}

impl<'a> Entered<'a> {
    /// What calls of the overload of a name can enter.
    pub(crate) fn of(&self, name: &str) -> &[usize]
        ensures { result.now ≡ entered_at self.now.names name.now }
    {
        match self.names.get(name) {
            Some(entered) => entered.as_slice(),
            None => &[],
        }
    }

    fn add(&mut self, alloc: Global, name: &'a str, more: Items<usize>) -> Result<(), AllocError>
        ensures { OnOk result ((other : List ℕ) → entered_at self.new.names other
            ≡ entered_at self.old.names other ++ (if bytes_eq name.now other then more else [])) }
    {
        let mut entered = self.names.remove(name).unwrap_or(Items::new(alloc));
        entered.append(more)?;
        self.names.insert(name, entered)?;
        Ok(())
    }

    /// Adds what the members can enter that a definition adds to the overload of a name.
    fn add_definition(
        &mut self,
        alloc: Global,
        definition: &'a Def,
        firsts: &Firsts<'_>,
    ) -> Result<(), AllocError>
        ensures { OnOk result ((namings : List ANaming) → AreFirstOf namings firsts.now → (name : List ℕ) → entered_at self.new.names name
            ≡ entered_at self.old.names name ++ members_entered namings (added_to_name name definition.now)) }
    {
        match definition {
            Def::Overload(_, Overloaded::Named(name), members) => {
                let more = firsts.all_entered(alloc, members.as_slice())?;
                self.add(alloc, name.text.as_str(), more)?;
                Ok(())
            }
            _ => Ok(()),
        }
    }
}

/// What calls of the overloads of names can enter, where these take the names first. The one error is want of memory.
pub(crate) fn find_entered<'a>(
    alloc: Global,
    definitions: &'a [Def],
    firsts: &Firsts<'_>,
) -> Result<Entered<'a>, AllocError>
    ensures { IfOk result (λ entered. (namings : List ANaming) → AreFirstOf namings firsts.now
        → AreEntered namings definitions.now (entered_at entered.names)) }
{
    let mut entered = Entered {
        names: HashMap::new(alloc),
    };
    for definition in definitions {
        entered.add_definition(alloc, definition, firsts)?;
    }
    Ok(entered)
}

/// An empty list for each operator.
#[tactic(auto, using(crate::proofs::Growing::empty_replicate, std::proofs::lemmas::List::replicate_more))]
fn empty_operators(alloc: Global) -> Result<Vec<Items<usize>>, AllocError>
    ensures count { IfOk result (λ lists. length lists.items ≡ 24) }
    ensures empty { IfOk result (λ lists. (number : ℕ) → slice_index_or lists.items number [] ≡ []) }
{
    let mut operators = Vec::new(alloc);
    for _ in 0..OPERATORS {
        operators.push(Items::new(alloc))?;
    }
    Ok(operators)
}

/// Puts more behind the list of one number.
fn add_at(
    lists: &mut Vec<Items<usize>>,
    number: usize,
    more: Items<usize>,
) -> Result<(), AllocError>
    requires { number < length lists.old.items }
    ensures { OnOk result (lists.new.items ≡ slice_set lists.old.items number (slice_index_or lists.old.items number [] ++ more)) }
{
    lists[number].append(more)
}

/// Adds what the members can enter that a definition adds to an operator.
fn add_operators(
    alloc: Global,
    definition: &Def,
    firsts: &Firsts<'_>,
    operators: &mut Vec<Items<usize>>,
) -> Result<(), AllocError>
    requires { length operators.old.items ≡ 24 }
    ensures count { OnOk result (length operators.new.items ≡ 24) }
    ensures added { OnOk result ((namings : List ANaming) → AreFirstOf namings firsts.now → (number : ℕ)
        → slice_index_or operators.new.items number []
        ≡ slice_index_or operators.old.items number [] ++ members_entered namings (added_to_operator number definition.now)) }
{
    match definition {
        Def::Overload(_, Overloaded::Operator(_, operator), members) => {
            let more = firsts.all_entered(alloc, members.as_slice())?;
            add_at(operators, operator_number(*operator), more)?;
            Ok(())
        }
        _ => Ok(()),
    }
}

/// What calls of overloaded operators can enter, by the operator's number, where these take the names first. The one error is want
/// of memory.
pub(crate) fn find_operators(
    alloc: Global,
    definitions: &[Def],
    firsts: &Firsts<'_>,
) -> Result<Items<Items<usize>>, AllocError>
    ensures { IfOk result (λ lists. (namings : List ANaming) → AreFirstOf namings firsts.now
        → (number : ℕ) → slice_index_or lists number [] ≡ members_entered namings (members_of_operator definitions.now number)) }
{
    let mut operators = empty_operators(alloc)?;
    for definition in definitions {
        add_operators(alloc, definition, firsts, &mut operators)?;
    }
    Ok(Items::from_vec(operators))
}
