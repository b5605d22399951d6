//! Words and truths, which have no memory of their own: what of them stands in a source, and slots that are set to them in place.
ghost use Rattle.std.specs.Prelude.{◌≡◌, true, length, nat_eq, IfSome, Some, None, slice_get};
ghost use Rattle.std.specs.Option.{option_copied};
ghost use Rattle.sail_base.specs.Bits.{eq_bits};
ghost use Rattle.sail_types.specs.declared.values.Value.{out-Value};
ghost use Rattle.sail_types.specs.declared.values.Value.TheOpen as W;
ghost use Rattle.sail_types.specs.declared.values.Value.TheVariants as V;
ghost use Rattle.builtins.specs.RowValues.{only};
ghost use Rattle.jib.specs.declared.code.Target.TheVariants as T;
ghost use Rattle.jib.specs.declared.types.ValueType.TheVariants as Y;
ghost use Rattle.jib.specs.Jib as J;
ghost use Rattle.jib.specs.Operations as O;
ghost use Rattle.jib_values.specs.Sources.{source_value};
ghost use Rattle.jib_machine.specs.parts.InPlace.{Put, Stored, cut};

use crate::machine::Machine;
use crate::step::type_of;
use jib::{Literal, Source, Target, ValueType};
use jib_values::lent;
use mem_store::Memory;
use model_state::State;
use sail_base::{Items, Word};
use sail_types::Value;

/// The word that a source is, where it is one.
pub fn word_of<'a, M: Memory>(
    lets: &'a Items<Value>,
    hart: u8,
    state: &'a State<M>,
    slots: &'a [Value],
    source: &'a Source,
) -> Option<&'a Word>
    ensures { IfSome result (λ word. source_value lets.now hart state.now slots.now source.now ≡ V.Bits word.now) }
{
    match source {
        Source::Constant(_, Literal::Bits(word)) => Some(word),
        _ => match lent(lets, hart, state, slots, source) {
            Some(Value::Bits(word)) => Some(word),
            _ => None,
        },
    }
}

/// The truth that a source is, where it is one that stands somewhere.
pub fn truth_of<M: Memory>(
    lets: &Items<Value>,
    hart: u8,
    state: &State<M>,
    slots: &[Value],
    source: &Source,
) -> Option<bool>
    ensures { IfSome result (λ truth. source_value lets.now hart state.now slots.now source.now ≡ V.Truth truth) }
{
    match lent(lets, hart, state, slots, source) {
        Some(Value::Truth(truth)) => Some(*truth),
        _ => None,
    }
}

/// Whether a source is certainly of another constructor.
pub fn is_other<M: Memory>(
    lets: &Items<Value>,
    hart: u8,
    state: &State<M>,
    slots: &[Value],
    source: &Source,
    constructor: u32,
) -> bool
    ensures { result ≡ true → J.payload constructor (out-Value (source_value lets.now hart state.now slots.now source.now)) ≡ None }
{
    match lent(lets, hart, state, slots, source) {
        Some(Value::Union(_, found, _)) => *found != constructor,
        _ => false,
    }
}

/// The index that an integer is, where it isn't negative.
fn natural(n: i128) -> Option<u128>
    ensures { result ≡ O.index_of (W.Integer n) }
{
    if 0 <= n { Some(n as u128) } else { None }
}

/// The index that a source is, where it is one.
pub fn index_of<M: Memory>(
    lets: &Items<Value>,
    hart: u8,
    state: &State<M>,
    slots: &[Value],
    source: &Source,
) -> Option<u128>
    ensures { IfSome result (λ n. O.index_of (out-Value (source_value lets.now hart state.now slots.now source.now)) ≡ Some n) }
{
    match source {
        Source::Constant(_, Literal::Integer(n)) => natural(*n),
        _ => match lent(lets, hart, state, slots, source) {
            Some(Value::Integer(n)) => natural(*n),
            _ => None,
        },
    }
}

/// Whether two words that are as wide are the same.
pub fn same_words(a: &Word, b: &Word) -> Option<bool>
    ensures { result ≡ only (nat_eq (length a.now) (length b.now)) (eq_bits a.now b.now) }
{
    if a.width() == b.width() {
        Some(*a == *b)
    } else {
        None
    }
}

/// Whether the bits from the one index down to the other are all there.
fn is_slice(word: Word, high: u128, low: u128) -> bool
    ensures { result ≡ O.is_slice word high low }
{
    low <= high && high < word.width() as u128
}

/// The bits from the one index down to the other, where they are all there.
pub fn slice_of(word: Word, high: u128, low: u128) -> Option<Word>
    ensures { result ≡ cut word high low }
{
    if is_slice(word, high, low) {
        Some(word.slice(high as u8, low as u8))
    } else {
        None
    }
}

/// Puts a word in the place of a value.
fn set_word(value: &mut Value, word: Word)
    ensures { value.new ≡ V.Bits word }
{
    match value {
        Value::Bits(old) => *old = word,
        _ => *value = Value::Bits(word),
    }
}

/// Puts a truth in the place of a value.
fn set_truth(value: &mut Value, truth: bool)
    ensures { value.new ≡ V.Truth truth }
{
    match value {
        Value::Truth(old) => *old = truth,
        _ => *value = Value::Truth(truth),
    }
}

/// Writes a word to a slot that is there; false where it isn't.
pub fn put_word(slots: &mut Vec<Value>, slot: u32, word: Word) -> bool
    ensures { Put slot (V.Bits word) result slots.old.items slots.new.items }
{
    let index = slot as usize;
    if index < slots.len() {
        set_word(&mut slots[index], word);
        true
    } else {
        false
    }
}

/// Writes a truth to a slot that is there; false where it isn't.
pub fn put_truth(slots: &mut Vec<Value>, slot: u32, truth: bool) -> bool
    ensures { Put slot (V.Truth truth) result slots.old.items slots.new.items }
{
    let index = slot as usize;
    if index < slots.len() {
        set_truth(&mut slots[index], truth);
        true
    } else {
        false
    }
}

/// The type of a slot, where there is one.
fn slot_typ(machine: &Machine, function: u32, slot: u32) -> Option<&ValueType>
    ensures { option_copied result ≡ slice_get machine.now.program.types (J.type_of machine.now.program function (T.Slot slot)) }
{
    let typ = type_of(machine, function, Target::Slot(slot));
    machine.program.types.as_slice().get(typ as usize)
}

/// Whether a slot is for words of this width.
fn is_for_words(machine: &Machine, function: u32, slot: u32, width: u8) -> bool
    ensures { result ≡ true → slice_get machine.now.program.types (J.type_of machine.now.program function (T.Slot slot)) ≡ Some (Y.Bits width) }
{
    match slot_typ(machine, function, slot) {
        Some(ValueType::Bits(other)) => width == *other,
        _ => false,
    }
}

/// Whether a slot is for truths.
fn is_for_truths(machine: &Machine, function: u32, slot: u32) -> bool
    ensures { result ≡ true → slice_get machine.now.program.types (J.type_of machine.now.program function (T.Slot slot)) ≡ Some Y.Truth }
{
    match slot_typ(machine, function, slot) {
        Some(ValueType::Truth) => true,
        _ => false,
    }
}

/// Writes a word to a slot of its type; false where it is of another, or isn't there.
pub fn store_word(
    machine: &Machine,
    function: u32,
    slot: u32,
    word: Word,
    slots: &mut Vec<Value>,
) -> bool
    ensures { Stored machine.now.program function slot (V.Bits word) result slots.old.items slots.new.items }
{
    if is_for_words(machine, function, slot, word.width()) {
        put_word(slots, slot, word)
    } else {
        false
    }
}

/// Writes a truth to a slot of its type; false where it is of another, or isn't there.
pub fn store_truth(
    machine: &Machine,
    function: u32,
    slot: u32,
    truth: bool,
    slots: &mut Vec<Value>,
) -> bool
    ensures { Stored machine.now.program function slot (V.Truth truth) result slots.old.items slots.new.items }
{
    if is_for_truths(machine, function, slot) {
        put_truth(slots, slot, truth)
    } else {
        false
    }
}
