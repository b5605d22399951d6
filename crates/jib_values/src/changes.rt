//! Parts of values that are changed in place. That takes no memory: nothing here is handed any, and nothing fails.
ghost use Rattle.std.specs.Prelude.{◌≡◌, List, Some, None, if◌then◌else◌, slice_index_or, slice_set, unwrap_or};
ghost use Rattle.sail_types.specs.declared.values.Value.{Value as AValue, out-Value};
ghost use Rattle.sail_types.specs.declared.values.Value.TheVariants as V;
ghost use Rattle.model_state.specs.RunState.{register_value, with_register};
ghost use Rattle.jib.specs.Jib.{put};
ghost use Rattle.jib.specs.Operations as O;
ghost use Rattle.jib_values.specs.Sources.{filled, source_value, source_of};
ghost use Rattle.jib_values.specs.Results.{Wrote};

use crate::parts::index_of;
use crate::words::with_bit;
use jib::Target;
use mem_store::Memory;
use model_state::State;
use sail_base::Items;
use sail_types::Value;
use std::mem;

/// Sets the value at an index, where it is inside.
#[tactic(auto, using(crate::proofs::PartLaws::unset))]
fn set_in(items: &mut Items<Value>, index: u128, value: Value)
    ensures { items.new ≡ slice_set items.old index value }
{
    if index < items.len() as u128 {
        items.set(index as usize, value);
    }
}

/// Sets the item of a vector, a list or a word at an index, where it is inside. It is false where there can be no such item.
fn set_item(value: &mut Value, index: u128, item: Value) -> bool
    ensures { O.with_item (out-Value value.old) index item (out-Value item) ≡ (if result then Some value.new else None) }
{
    match value {
        Value::Vector(items) => {
            set_in(items, index, item);
            true
        }
        Value::List(items) => {
            set_in(items, index, item);
            true
        }
        Value::Bits(word) => match &item {
            Value::Bit(bit) => {
                *word = with_bit(*word, index, *bit);
                true
            }
            _ => false,
        },
        _ => false,
    }
}

/// Sets the part of a tuple or a struct at a place, where there is one. It is false where the value is neither.
fn set_field(value: &mut Value, place: u32, part: Value) -> bool
    ensures { O.with_field place (out-Value value.old) part ≡ (if result then Some value.new else None) }
{
    match value {
        Value::Tuple(parts) => {
            set_in(parts, place as u128, part);
            true
        }
        Value::Struct(_, parts) => {
            set_in(parts, place as u128, part);
            true
        }
        _ => false,
    }
}

/// A value with another item at the index that a value is; the same where it is none.
pub fn changed_item(whole: Value, index: &Value, item: Value) -> Option<Value>
    ensures { result ≡ O.or_old whole (O.index_of (out-Value index.now)) (λ n. O.with_item (out-Value whole) n item (out-Value item)) }
{
    match index_of(index) {
        None => Some(whole),
        Some(index) => {
            let mut whole = whole;
            if set_item(&mut whole, index, item) {
                Some(whole)
            } else {
                None
            }
        }
    }
}

/// A tuple or a struct with another part at a place.
pub fn changed_field(whole: Value, place: u32, part: Value) -> Option<Value>
    ensures { result ≡ O.with_field place (out-Value whole) part }
{
    let mut whole = whole;
    if set_field(&mut whole, place, part) {
        Some(whole)
    } else {
        None
    }
}

/// Takes the value out of a slot, where unit then stands.
#[tactic(auto, using(crate::proofs::SlotLaws::slot_laws))]
fn taken_slot(slots: &mut Vec<Value>, slot: u32) -> Value
    ensures value { result ≡ slice_index_or slots.old.items slot V.Unit }
    ensures slots { filled slots.new.items ≡ put (filled slots.old.items) slot V.Unit }
{
    let index = slot as usize;
    if index < slots.len() {
        mem::replace(&mut slots[index], Value::Unit)
    } else {
        Value::Unit
    }
}

/// Takes the value out of a register, where unit then stands.
fn taken_register<M: Memory>(state: &mut State<M>, hart: u8, index: u32) -> Value
    ensures value { result ≡ unwrap_or (register_value state.old hart index) V.Unit }
    ensures state { state.new ≡ with_register hart index V.Unit state.old }
{
    if state.find_register(hart, index).is_some() {
        state.replace_register(hart, index, Value::Unit)
    } else {
        Value::Unit
    }
}

/// Takes the value out of a target, where unit then stands.
pub fn taken<M: Memory>(
    hart: u8,
    target: Target,
    slots: &mut Vec<Value>,
    state: &mut State<M>,
) -> Value
    ensures value { (lets : List AValue) → result ≡ source_value lets hart state.old slots.old.items (source_of target) }
    ensures wrote { Wrote hart target V.Unit slots.old.items slots.new.items state.old state.new }
{
    match target {
        Target::Slot(slot) => taken_slot(slots, slot),
        Target::Register(index) => taken_register(state, hart, index),
    }
}
