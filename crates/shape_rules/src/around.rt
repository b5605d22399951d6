ghost use Rattle.std.specs.Prelude.{◌≡◌, Some, None};
ghost use Rattle.std.specs.Option.{option_copied};
ghost use Rattle.shape_rules.specs.Scopes.{plainly, thrown_shape, defined_place, answering};
ghost use Rattle.shape_rules.specs.Around.{setting_of};

use crate::callees::{Candidate, Meant};
use crate::meanings::Meanings;
use sail_base::{Items, Operator};
use sail_kinds::{Meaning, NamedType, Scope};
use sail_types::{Shape, Typ, Types};
use std::alloc::Global;

/// Where an expression or a pattern stands.
#[derive(Clone, Copy)]
pub struct Around<'a> {
    /// The table of named types.
    pub types: &'a Types,
    /// The types and type variables that can be named.
    pub scope: Scope<'a>,
    /// What names of values mean.
    pub meanings: &'a Meanings,
    /// Whether operators mean their builtin members alone, as in a plain expression.
    pub is_plain: bool,
    /// The shape of what a `return` gives; none where no function is around.
    pub answer: Option<&'a Shape>,
}

impl<'a> Around<'a> {
    /// The same where operators mean their builtin members alone.
    pub fn plainly(self) -> Around<'a>
        ensures { setting_of result ≡ plainly (setting_of self.entry) }
    {
        Around {
            is_plain: true,
            ..self
        }
    }

    /// The same where a `return` gives a value of this shape.
    pub fn returning(self, answer: &'a Shape) -> Around<'a>
        ensures { setting_of result ≡ answering (Some answer.now) (setting_of self.entry) }
    {
        Around {
            answer: Some(answer),
            ..self
        }
    }

    /// The same where there is no function to return from.
    pub fn unanswered(self) -> Around<'a>
        ensures { setting_of result ≡ answering None (setting_of self.entry) }
    {
        Around {
            answer: None,
            ..self
        }
    }
}

impl Around<'_> {
    /// What a name of a value means.
    pub fn value(&self, name: &str) -> Option<&Meant>
        ensures { option_copied result ≡ (setting_of self.now).value name.now }
    {
        self.meanings.value(name)
    }

    /// The members that overloads add to an operator; none in a plain expression.
    pub fn added(&self, operator: Operator) -> &[Candidate]
        ensures { result.now ≡ (setting_of self.now).added operator }
    {
        if self.is_plain {
            &[]
        } else {
            self.meanings.added(operator)
        }
    }

    /// The type of what a direction of a mapping gives, by the direction's number.
    pub fn given_by(&self, direction: u32) -> Option<&Typ>
        ensures { option_copied result ≡ (setting_of self.now).given_by direction }
    {
        self.meanings.given_by(direction)
    }

    /// The place in the table of what a name is defined as; none where it is no struct, union or enum.
    pub fn struct_named(&self, name: &str) -> Option<u32>
        ensures { result ≡ (setting_of self.now).struct_named name.now }
    {
        match self.scope.named(name) {
            Some(typ) => defined_place(typ),
            None => None,
        }
    }

    /// The shape of what is thrown: `Never` where there is no union `exception`. It takes no memory.
    pub fn thrown(&self, alloc: Global) -> Shape
        ensures { result ≡ thrown_shape (setting_of self.now) }
    {
        match self.meanings.exception {
            Some(place) => Shape::Named(place, Items::new(alloc)),
            None => Shape::Never,
        }
    }
}

/// The place in the table of a struct, union or enum.
fn defined_place(typ: &NamedType) -> Option<u32>
    ensures { result ≡ defined_place typ.now.meaning }
{
    match &typ.meaning {
        Meaning::Defined(place) => Some(*place),
        _ => None,
    }
}
