ghost use Rattle.std.specs.Prelude.{◌≡◌};
ghost use Rattle.std.specs.Option.{option_copied};
ghost use Rattle.shape_rules.specs.Around.{value_in, added_in, given_in};

use crate::callees::{Candidate, Meant};
use sail_base::{Items, Operator, operator_number};
use sail_types::Typ;
use std::collections::HashMap;

/// What the definitions of a model mean, as names of values.
#[derive(Drop)]
pub struct Meanings {
    /// What each name of a value means.
    pub values: HashMap<String, Meant>,
    /// For each operator, by its number, the members that overloads add to it; an operator past the end has none.
    pub added: Items<Items<Candidate>>,
    /// The place in the table of the union `exception`.
    pub exception: Option<u32>,
    /// The type of what each direction of a mapping gives, by the direction's number.
    pub given: Items<Typ>,
}

impl Meanings {
    /// What a name of a value means.
    pub fn value(&self, name: &str) -> Option<&Meant>
        ensures { option_copied result ≡ value_in self.now name.now }
    {
        self.values.get(name)
    }

    /// The members that overloads add to an operator.
    pub fn added(&self, operator: Operator) -> &[Candidate]
        ensures { result.now ≡ added_in self.now operator }
    {
        match self.added.get(operator_number(operator)) {
            Some(members) => members.as_slice(),
            None => &[],
        }
    }

    /// The type of what a direction of a mapping gives; none past the last direction.
    pub fn given_by(&self, direction: u32) -> Option<&Typ>
        ensures { option_copied result ≡ given_in self.now direction }
    {
        self.given.get(direction as usize)
    }
}
