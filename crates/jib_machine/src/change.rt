//! Operations that change a part of what their target holds, which is done in place.
ghost use Rattle.std.specs.Prelude.{◌≡◌, ◌∷◌, [], List, IfSome, OnOk, true, is_some, slice_get};
ghost use Rattle.jib.specs.declared.code.Operation.TheVariants as O;
ghost use Rattle.jib.specs.Operations.{worked_out};
ghost use Rattle.jib_values.specs.Sources.{source_of, source_values};
ghost use Rattle.jib_values.specs.Results.{Wrote};
ghost use Rattle.jib_machine.specs.parts.Changes.{Changes, is_held as is_held_by, changes_part, operation_of, sources_of, result_value};

use crate::fitting::fitted_result;
use crate::machine::Machine;
use jib::{Operation, Source, Target};
use jib_values::{changed_field, changed_item, taken, value_of, write};
use mem_store::Memory;
use model_state::State;
use sail_types::Value;
use std::alloc::{AllocError, Global};

/// A change of a part of a value.
#[derive(Clone, Copy)]
pub enum Part<'a> {
    /// Another item: the sources of its index and of the item.
    Item(&'a Source, &'a Source),
    /// Another part of a tuple or a struct, after its place.
    Field(u32, &'a Source),
}

/// Whether a source is what a target holds.
fn is_held(source: &Source, target: Target) -> bool
    ensures is { result ≡ is_held_by source.now target }
    ensures held { result ≡ true → source.now ≡ source_of target }
{
    match source {
        Source::Slot(slot) => match target {
            Target::Slot(other) => *slot == other,
            Target::Register(_) => false,
        },
        Source::Register(index) => match target {
            Target::Register(other) => *index == other,
            Target::Slot(_) => false,
        },
        Source::Let(_) => false,
        Source::Constant(_, _) => false,
    }
}

/// What an operation changes of what its target holds; none exactly where it does something else.
pub fn part_of<'a>(target: Target, operation: Operation, sources: &'a [Source]) -> Option<Part<'a>>
    ensures part { IfSome result (Changes target operation sources.now) }
    ensures always { is_some result ≡ changes_part target operation sources.now }
{
    match operation {
        Operation::WithItem => item_of(target, sources),
        Operation::WithField(place) => field_of(target, place, sources),
        _ => None,
    }
}

fn item_of<'a>(target: Target, sources: &'a [Source]) -> Option<Part<'a>>
    ensures part { IfSome result (Changes target O.WithItem sources.now) }
    ensures always { is_some result ≡ changes_part target O.WithItem sources.now }
{
    match sources {
        [whole, index, item] => {
            if is_held(whole, target) {
                return Some(Part::Item(index, item));
            }
            None
        }
        _ => None,
    }
}

fn field_of<'a>(target: Target, place: u32, sources: &'a [Source]) -> Option<Part<'a>>
    ensures part { IfSome result (Changes target (O.WithField place) sources.now) }
    ensures always { is_some result ≡ changes_part target (O.WithField place) sources.now }
{
    match sources {
        [whole, part] => {
            if is_held(whole, target) {
                return Some(Part::Field(place, part));
            }
            None
        }
        _ => None,
    }
}

/// Writes a result, fitted to its type.
fn put_result<M: Memory>(
    alloc: Global,
    machine: &Machine,
    hart: u8,
    typ: u32,
    target: Target,
    result_made: Option<Value>,
    slots: &mut Vec<Value>,
    state: &mut State<M>,
) -> Result<(), AllocError>
    ensures { OnOk result (Wrote hart target (result_value machine.now.program.types typ result_made) slots.old.items slots.new.items
        state.old state.new) }
{
    let value = fitted_result(alloc, machine, typ, result_made)?;
    write(hart, target, value, slots, state)
}

fn put_item<M: Memory>(
    alloc: Global,
    machine: &Machine,
    hart: u8,
    typ: u32,
    target: Target,
    index: &Source,
    item: &Source,
    slots: &mut Vec<Value>,
    state: &mut State<M>,
) -> Result<(), AllocError>
    ensures { OnOk result (Wrote hart target (result_value machine.now.program.types typ (worked_out (slice_get machine.now.program.types typ)
        O.WithItem (source_values machine.now.lets hart state.old slots.old.items (source_of target ∷ index.now ∷ item.now ∷ []))))
        slots.old.items slots.new.items state.old state.new) }
{
    let place = value_of(alloc, &machine.lets, hart, state, slots, index)?;
    let value = value_of(alloc, &machine.lets, hart, state, slots, item)?;
    let whole = taken(hart, target, slots, state);
    let made = changed_item(whole, &place, value);
    put_result(alloc, machine, hart, typ, target, made, slots, state)?;
    Ok(())
}

fn put_field<M: Memory>(
    alloc: Global,
    machine: &Machine,
    hart: u8,
    typ: u32,
    target: Target,
    place: u32,
    part: &Source,
    slots: &mut Vec<Value>,
    state: &mut State<M>,
) -> Result<(), AllocError>
    ensures { OnOk result (Wrote hart target (result_value machine.now.program.types typ (worked_out (slice_get machine.now.program.types typ)
        (O.WithField place) (source_values machine.now.lets hart state.old slots.old.items (source_of target ∷ part.now ∷ []))))
        slots.old.items slots.new.items state.old state.new) }
{
    let value = value_of(alloc, &machine.lets, hart, state, slots, part)?;
    let whole = taken(hart, target, slots, state);
    let made = changed_field(whole, place, value);
    put_result(alloc, machine, hart, typ, target, made, slots, state)?;
    Ok(())
}

/// Changes a part of what the target holds. It takes no memory but what the new part needs.
pub fn put_part<M: Memory>(
    alloc: Global,
    machine: &Machine,
    hart: u8,
    typ: u32,
    target: Target,
    part: Part<'_>,
    slots: &mut Vec<Value>,
    state: &mut State<M>,
) -> Result<(), AllocError>
    ensures { OnOk result (Wrote hart target (result_value machine.now.program.types typ (worked_out (slice_get machine.now.program.types typ)
        (operation_of part.entry) (source_values machine.now.lets hart state.old slots.old.items (sources_of target part.entry))))
        slots.old.items slots.new.items state.old state.new) }
{
    match part {
        Part::Item(index, item) => {
            put_item(alloc, machine, hart, typ, target, index, item, slots, state)
        }
        Part::Field(place, part) => {
            put_field(alloc, machine, hart, typ, target, place, part, slots, state)
        }
    }
}
