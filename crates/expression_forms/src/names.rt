//! Literals, and names that are read.
ghost use Rattle.std.specs.Prelude.{◌≡◌, [], ◌∷◌, IfOk, OnOk};
ghost use Rattle.std.specs.Option.{option_copied};
ghost use Rattle.value_indices.specs.Walking as walk;
ghost use Rattle.value_indices.specs.declared.indices.Naming.TheVariants as M;
ghost use Rattle.call_notes.specs.Noted as noted;
ghost use Rattle.expression_forms.specs.Names as names;

use call_notes::{made_by_type, node_ended, note_type, under, wrong_value};
use model_state::Register;
use pattern_leaves::{Held, TopLevel};
use sail_base::{Items, Place, Text};
use sail_core::Literal;
use sail_types::{Con, Num, Shape, Types};
use std::alloc::{AllocError, Global};
use value_indices::{Indices, Naming, Reading, Walking, copy_indices, copy_reading, opened_for};
use wide_types::filled;

/// What is known of the value of a literal. It takes no memory.
pub fn literal_indices(alloc: Global, literal: &Literal) -> Indices
    ensures { result ≡ names.literal_indices literal.now }
{
    match literal {
        Literal::Unit => Indices::Unit,
        Literal::Integer(z) => Indices::Integer(Num::constant(alloc, *z)),
        Literal::Truth(b) => Indices::Truth(Con::Truth(*b)),
        Literal::Bit(_) => Indices::Bit,
        Literal::Bits(bits) => Indices::Bits(Num::constant(alloc, bits.width() as i128)),
        Literal::String(_) => Indices::String,
        Literal::Member(place, _) => {
            Indices::Named(*place, Items::new(alloc), Items::new(alloc))
        }
    }
}

/// The identifier for which a value is opened. It fails where memory is wanting.
fn named(name: &Text) -> Result<Naming, AllocError>
    ensures { IfOk result (λ made. made ≡ M.Named name.now) }
{
    Ok(Naming::Named(name.clone()?))
}

/// A value of a type, opened for a name; its sizes are noted before. It fails where memory is wanting, and where variables are too many.
#[tactic(auto, using(value_indices::proofs::Walks::walks))]
fn named_opened(
    alloc: Global,
    walking: &mut Walking,
    place: Place,
    name: &Text,
    reading: &Reading,
) -> Result<Indices, AllocError>
    ensures value { IfOk result (λ made. made ≡ walk.got (names.named_opened place name.now reading.now) (walk.seen walking.old)) }
    ensures walked { OnOk result (walk.seen walking.new ≡ walk.run (names.named_opened place name.now reading.now) (walk.seen walking.old)) }
{
    note_type(alloc, walking, place, reading)?;
    let naming = named(name)?;
    opened_for(alloc, walking, &naming, reading)
}

/// The same where the node of a number reads it, which is noted. It fails where memory is wanting, and where variables are too many.
#[tactic(auto, using(value_indices::proofs::Walks::walks))]
pub(crate) fn named_read(
    alloc: Global,
    walking: &mut Walking,
    place: Place,
    number: u32,
    name: &Text,
    reading: &Reading,
) -> Result<Indices, AllocError>
    ensures value { IfOk result (λ made. made
        ≡ walk.got (names.named_read place number name.now reading.now) (walk.seen walking.old)) }
    ensures walked { OnOk result (walk.seen walking.new
        ≡ walk.run (names.named_read place number name.now reading.now) (walk.seen walking.old)) }
{
    made_by_type(alloc, walking, number, &[], reading)?;
    named_opened(alloc, walking, place, name, reading)
}

/// A value that has a name, as the node of a number reads it, which is noted. It fails where memory is wanting.
fn value_read(
    alloc: Global,
    walking: &mut Walking,
    number: u32,
    value: &Indices,
) -> Result<Indices, AllocError>
    ensures value { IfOk result (λ made. made
        ≡ walk.got (noted.node_ended number (value.now ∷ []) value.now) (walk.seen walking.old)) }
    ensures walked { OnOk result (walk.seen walking.new
        ≡ walk.run (noted.node_ended number (value.now ∷ []) value.now) (walk.seen walking.old)) }
{
    let read = copy_indices(alloc, value)?;
    node_ended(alloc, walking, number, std::slice::from_ref(value), read)
}

/// The name of a `let` in scope, as the node of a number reads it; what no `let` has bound owes what is false. It fails where memory is
/// wanting.
#[tactic(auto, using(value_indices::proofs::Walks::walks))]
pub fn read_local(
    alloc: Global,
    walking: &mut Walking,
    place: Place,
    number: u32,
    held: Option<&Held>,
) -> Result<Indices, AllocError>
    ensures value { IfOk result (λ made. made
        ≡ walk.got (names.local_walk place number (option_copied held.entry)) (walk.seen walking.old)) }
    ensures walked { OnOk result (walk.seen walking.new
        ≡ walk.run (names.local_walk place number (option_copied held.entry)) (walk.seen walking.old)) }
{
    match held {
        None => wrong_value(alloc, walking, place),
        Some(Held::Value(value)) => value_read(alloc, walking, number, value),
        Some(Held::Var(_)) => wrong_value(alloc, walking, place),
    }
}

/// The name of a `var` in scope, as the node of a number reads it; what no `var` has declared owes what is false. It fails where memory is
/// wanting, and where variables are too many.
#[tactic(auto, using(value_indices::proofs::Walks::walks))]
pub fn read_variable(
    alloc: Global,
    walking: &mut Walking,
    place: Place,
    number: u32,
    name: &Text,
    held: Option<&Held>,
) -> Result<Indices, AllocError>
    ensures value { IfOk result (λ made. made
        ≡ walk.got (names.variable_walk place number name.now (option_copied held.entry)) (walk.seen walking.old)) }
    ensures walked { OnOk result (walk.seen walking.new
        ≡ walk.run (names.variable_walk place number name.now (option_copied held.entry)) (walk.seen walking.old)) }
{
    match held {
        None => wrong_value(alloc, walking, place),
        Some(Held::Value(_)) => wrong_value(alloc, walking, place),
        Some(Held::Var(reading)) => named_read(alloc, walking, place, number, name, reading),
    }
}

/// The type of a top-level `let` where it is read: any number for one of a type that is found, unless it is constant. It fails where memory
/// is wanting, and where variables are too many.
#[tactic(auto, using(value_indices::proofs::Walks::walks))]
fn type_read(
    alloc: Global,
    walking: &mut Walking,
    types: &Types,
    reading: &Reading,
) -> Result<Reading, AllocError>
    ensures value { IfOk result (λ made. made ≡ walk.got (names.type_read types.now reading.now) (walk.seen walking.old)) }
    ensures walked { OnOk result (walk.seen walking.new ≡ walk.run (names.type_read types.now reading.now) (walk.seen walking.old)) }
{
    match reading {
        Reading::Widened(indices) => {
            filled(alloc, walking, types, 0, &Shape::Hole, indices.get())
        }
        _ => copy_reading(alloc, reading),
    }
}

/// A value of a type that the node of a number reads, which is noted, opened for a name. It fails where memory is wanting, and where
/// variables are too many.
#[tactic(auto, using(value_indices::proofs::Walks::walks))]
fn made_read(
    alloc: Global,
    walking: &mut Walking,
    number: u32,
    name: &Text,
    reading: &Reading,
) -> Result<Indices, AllocError>
    ensures value { IfOk result (λ made. made ≡ walk.got (names.made_read number name.now reading.now) (walk.seen walking.old)) }
    ensures walked { OnOk result (walk.seen walking.new ≡ walk.run (names.made_read number name.now reading.now) (walk.seen walking.old)) }
{
    made_by_type(alloc, walking, number, &[], reading)?;
    let naming = named(name)?;
    opened_for(alloc, walking, &naming, reading)
}

/// A value of the type of a top-level `let`, opened for its name, as the node of a number reads it. It fails where memory is wanting, and
/// where variables are too many.
#[tactic(auto, using(value_indices::proofs::Walks::walks))]
fn read_opened(
    alloc: Global,
    walking: &mut Walking,
    types: &Types,
    number: u32,
    name: &Text,
    reading: &Reading,
) -> Result<Indices, AllocError>
    ensures value { IfOk result (λ made. made
        ≡ walk.got (names.read_opened types.now number name.now reading.now) (walk.seen walking.old)) }
    ensures walked { OnOk result (walk.seen walking.new
        ≡ walk.run (names.read_opened types.now number name.now reading.now) (walk.seen walking.old)) }
{
    let reading = type_read(alloc, walking, types, reading)?;
    made_read(alloc, walking, number, name, &reading)
}

/// A value that a top-level `let` bound, as the node of a number reads it, which is noted. It fails where memory is wanting.
fn constant_read(
    alloc: Global,
    walking: &mut Walking,
    number: u32,
    value: &Indices,
) -> Result<Indices, AllocError>
    ensures value { IfOk result (λ made. made ≡ walk.got (noted.node_ended number [] value.now) (walk.seen walking.old)) }
    ensures walked { OnOk result (walk.seen walking.new ≡ walk.run (noted.node_ended number [] value.now) (walk.seen walking.old)) }
{
    let read = copy_indices(alloc, value)?;
    node_ended(alloc, walking, number, &[], read)
}

/// A name that a top-level `let` bound, as the node of a number reads it. It fails where memory is wanting, and where variables are too
/// many.
#[tactic(auto, using(value_indices::proofs::Walks::walks))]
pub fn read_top_level(
    alloc: Global,
    walking: &mut Walking,
    types: &Types,
    place: Place,
    number: u32,
    bound: Option<&TopLevel>,
) -> Result<Indices, AllocError>
    ensures value { IfOk result (λ made. made
        ≡ walk.got (names.top_level_walk types.now place number (option_copied bound.entry)) (walk.seen walking.old)) }
    ensures walked { OnOk result (walk.seen walking.new
        ≡ walk.run (names.top_level_walk types.now place number (option_copied bound.entry)) (walk.seen walking.old)) }
{
    match bound {
        None => wrong_value(alloc, walking, place),
        Some(TopLevel::Known(value)) => constant_read(alloc, walking, number, value),
        Some(TopLevel::Read(name, reading)) => {
            read_opened(alloc, walking, types, number, name, reading)
        }
    }
}

/// The type of a register. It fails where memory is wanting.
pub(crate) fn register_type(alloc: Global, register: &Register) -> Result<Reading, AllocError>
    ensures { IfOk result (λ made. made ≡ names.register_type register.now) }
{
    under(alloc, &register.typ, &[], &[])
}

/// A register, as the node of a number reads it. It fails where memory is wanting, and where variables are too many.
pub fn read_register(
    alloc: Global,
    walking: &mut Walking,
    place: Place,
    number: u32,
    register: Option<&Register>,
) -> Result<Indices, AllocError>
    ensures value { IfOk result (λ made. made
        ≡ walk.got (names.register_walk place number (option_copied register.entry)) (walk.seen walking.old)) }
    ensures walked { OnOk result (walk.seen walking.new
        ≡ walk.run (names.register_walk place number (option_copied register.entry)) (walk.seen walking.old)) }
{
    match register {
        None => wrong_value(alloc, walking, place),
        Some(register) => {
            let reading = register_type(alloc, register)?;
            named_read(alloc, walking, place, number, &register.name, &reading)
        }
    }
}
