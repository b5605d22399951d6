ghost use Rattle.std.specs.Prelude.{◌≡◌, List};
ghost use Rattle.std.specs.Option.{option_copied};
ghost use Rattle.sail_base.specs.declared.place.Place.{Place as APlace};
ghost use Rattle.sail_syntax.specs.declared.definitions.Def.{Def as ADef};
ghost use Rattle.sail_base.specs.Operators.{number_of as number_of_operator};
ghost use Rattle.type_definitions.specs.Defined.{types_of};
ghost use Rattle.sail_signatures.specs.Parts.{parts_of};
ghost use Rattle.known_names.specs.Meanings.{known_in};
ghost use Rattle.sail_tables.specs.Refused.{signature_in};
ghost use Rattle.sail_tables.specs.Tabled.{AreTables, positions, is_let, is_register, adds_to_name, adds_to_operator};
ghost use Rattle.sail_tables.specs.Tabled.{cycle_numbered as cycle_numbered_of, cycle_named};

use crate::signatures::held_signature;
use call_graph::Cycles;
use sail_base::{Items, Operator, Place, operator_number};
use sail_cycles::number_of;
use sail_kinds::NamedType;
use sail_names::{Global as Named, Names};
use sail_signatures::{Callables, Parts, Signature};
use sail_syntax::Def;
use sail_types::Definition;
use std::collections::HashMap;
use type_definitions::Defined;

/// What each name of a gathered text is, with types in normal form. Definitions are told by their positions in the text, from 0.
#[derive(Drop)]
pub struct Tables<'a> {
    /// The text.
    pub definitions: &'a [Def],
    /// The types, by name and in the table of structs, unions and enums.
    pub types: Defined<'a>,
    /// What each name of a value means.
    pub names: Names,
    /// The parts of functions and mappings, by name.
    pub callables: Callables<'a>,
    /// Their signatures, by name.
    pub signatures: HashMap<&'a str, Option<Signature>>,
    /// The cycles of calls, by the numbers of functions and mappings.
    pub calls: Cycles,
    /// The top-level lets, in text order.
    pub lets: Items<usize>,
    /// The registers, in text order.
    pub registers: Items<usize>,
    /// The definitions that add to each overload, by name, in text order.
    pub overloads: HashMap<&'a str, Items<usize>>,
    /// The definitions that add to each overloaded operator, by its number, in text order.
    pub operators: Items<Items<usize>>,
    /// The end of the last file.
    pub end: Place,
}

/// The number of the cycle in which a function or mapping of this number lies, if any.
fn cycle_numbered(calls: &Cycles, number: Option<usize>) -> Option<usize>
    ensures { result ≡ cycle_numbered_of calls.now number }
{
    match number {
        None => None,
        Some(number) => {
            if number < calls.node_count() {
                calls.cycle_of(number)
            } else {
                None
            }
        }
    }
}

impl<'a> Tables<'a> {
    /// The `val`, the body and the measure of a function or mapping.
    pub fn parts(&self, name: &str) -> Parts
        ensures { (text : List ADef) (end : APlace) → AreTables text end self.now → result ≡ parts_of text name.now }
    {
        self.callables.parts(name)
    }

    /// The types of a function or mapping.
    pub fn signature(&self, name: &str) -> Option<&Signature>
        ensures { (text : List ADef) (end : APlace) → AreTables text end self.now → option_copied result ≡ signature_in text name.now }
    {
        held_signature(&self.signatures, name)
    }

    /// What a name of a value means.
    pub fn value(&self, name: &str) -> Option<&Named>
        ensures { (text : List ADef) (end : APlace) → AreTables text end self.now → option_copied result ≡ (known_in text).value name.now }
    {
        self.names.value(name)
    }

    /// What a type of this name is: its parameters, and what it stands for.
    pub fn named_type(&self, name: &str) -> Option<&NamedType>
        ensures { (text : List ADef) (end : APlace) → AreTables text end self.now → option_copied result ≡ (types_of text).named name.now }
    {
        self.types.names.named(name)
    }

    /// The structs, unions and enums, `option` first: a named type that stands for one has its place here.
    pub fn table(&self) -> &[Definition]
        ensures { (text : List ADef) (end : APlace) → AreTables text end self.now → result.now ≡ (types_of text).table }
    {
        self.types.table.as_slice()
    }

    /// The top-level lets, in text order.
    pub fn lets(&self) -> &[usize]
        ensures { (text : List ADef) (end : APlace) → AreTables text end self.now → result.now ≡ positions is_let text }
    {
        self.lets.as_slice()
    }

    /// The registers, in text order.
    pub fn registers(&self) -> &[usize]
        ensures { (text : List ADef) (end : APlace) → AreTables text end self.now → result.now ≡ positions is_register text }
    {
        self.registers.as_slice()
    }

    /// The definitions that add to the overload of a name, in text order.
    pub fn overload(&self, name: &str) -> &[usize]
        ensures { (text : List ADef) (end : APlace) → AreTables text end self.now → result.now ≡ positions (adds_to_name name.now) text }
    {
        match self.overloads.get(name) {
            Some(added) => added.as_slice(),
            None => &[],
        }
    }

    /// The definitions that add to the overload of an operator, in text order.
    pub fn operator(&self, operator: Operator) -> &[usize]
        ensures { (text : List ADef) (end : APlace) → AreTables text end self.now
            → result.now ≡ positions (adds_to_operator (number_of_operator operator)) text }
    {
        match self.operators.get(operator_number(operator)) {
            Some(added) => added.as_slice(),
            None => &[],
        }
    }

    /// The number of the cycle of calls in which a function or mapping lies, if any: two are in one cycle where they have one
    /// number.
    pub fn cycle(&self, name: &str) -> Option<usize>
        ensures { (text : List ADef) (end : APlace) → AreTables text end self.now → result ≡ cycle_named self.now.calls (known_in text) name.now }
    {
        cycle_numbered(&self.calls, number_of(&self.names, name))
    }
}
