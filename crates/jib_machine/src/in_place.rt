//! Instructions that work in place, on words and truths: they take no memory, and nothing fails.
ghost use Rattle.std.specs.Prelude.{◌≡◌, ℕ, map, Some, IfSome};
ghost use Rattle.sail_types.specs.declared.values.Value.{out-Value};
ghost use Rattle.sail_types.specs.declared.values.Value.TheVariants as V;
ghost use Rattle.builtins.specs.RowValues.{same as same_of};
ghost use Rattle.jib.specs.declared.types.ValueType.{ValueType as AType};
ghost use Rattle.jib.specs.declared.code.Operation.TheVariants as P;
ghost use Rattle.jib.specs.Operations.{worked_out};
ghost use Rattle.jib.specs.Jib as J;
ghost use Rattle.std.specs.Prelude.{Option as AnOption};
ghost use Rattle.jib_values.specs.Sources.{filled, source_value, source_values};
ghost use Rattle.jib_machine.specs.parts.Acts.{seen};
ghost use Rattle.jib_machine.specs.parts.Begun.{store};
ghost use Rattle.jib_machine.specs.parts.InPlace.{Written, Applied, DoneInPlace, next_of};

use crate::act::Here;
use crate::machine::Machine;
use crate::plain::{
    index_of, is_other, put_truth, put_word, same_words, slice_of, store_truth, store_word,
    truth_of, word_of,
};
use jib::{Instruction, Operation, Source, Target};
use mem_store::Memory;
use model_state::State;
use sail_base::{Items, Word};
use sail_types::{Row, Value};

/// What follows an instruction that works in place.
#[derive(Clone, Copy)]
pub enum InPlace {
    /// The next one.
    Next,
    /// The one where it may jump to.
    Jump,
    /// It doesn't work in place: nothing is done.
    Left,
}

/// What follows, where an instruction is done or isn't.
fn next_where(is_done: bool) -> InPlace
    ensures { result ≡ next_of is_done }
{
    if is_done {
        InPlace::Next
    } else {
        InPlace::Left
    }
}

/// Does an instruction that works in place.
pub fn in_place<M: Memory>(
    machine: &Machine,
    hart: u8,
    here: &Here,
    instruction: &Instruction,
    slots: &mut Vec<Value>,
    state: &mut State<M>,
) -> InPlace
    ensures { DoneInPlace machine.now.program (λ k xs. J.act machine.now.program machine.now.lets hart (seen here.now) instruction.now
        (filled slots.old.items) (store state.old k xs)) result slots.old.items slots.new.items state.old state.new }
{
    match instruction {
        Instruction::Label(_) => InPlace::Next,
        Instruction::Goto(_) => InPlace::Jump,
        Instruction::JumpIf(source, _) => {
            match truth_of(&machine.lets, hart, state, slots, source) {
                Some(true) => InPlace::Jump,
                Some(false) => InPlace::Next,
                None => InPlace::Left,
            }
        }
        Instruction::Payload(_, source, constructor, _) => {
            if is_other(&machine.lets, hart, state, slots, source, *constructor) {
                InPlace::Jump
            } else {
                InPlace::Left
            }
        }
        Instruction::Copy(target, source) => {
            next_where(copy(&machine.lets, hart, *target, source, slots, state))
        }
        Instruction::Apply(target, operation, sources) => next_where(apply(
            machine,
            hart,
            here.function,
            *target,
            *operation,
            sources.as_slice(),
            slots,
            state,
        )),
        _ => InPlace::Left,
    }
}

/// Writes a word to a target that is there; false where it isn't.
fn write_word<M: Memory>(
    hart: u8,
    target: Target,
    word: Word,
    slots: &mut Vec<Value>,
    state: &mut State<M>,
) -> bool
    ensures { Written hart target (V.Bits word) result slots.old.items slots.new.items state.old state.new }
{
    match target {
        Target::Slot(slot) => put_word(slots, slot, word),
        Target::Register(index) => {
            if state.find_register(hart, index).is_some() {
                state.set_bits(hart, index, word);
                true
            } else {
                false
            }
        }
    }
}

/// Writes a truth to a slot that is there; false for any other target.
fn write_truth<M: Memory>(
    hart: u8,
    target: Target,
    truth: bool,
    slots: &mut Vec<Value>,
    state: &State<M>,
) -> bool
    ensures { Written hart target (V.Truth truth) result slots.old.items slots.new.items state.now state.now }
{
    let _hart: u8 = hart;
    let _state: &State<M> = state;
    match target {
        Target::Slot(slot) => put_truth(slots, slot, truth),
        Target::Register(_) => false,
    }
}

/// Copies a word or a truth; false where it is anything else.
fn copy<M: Memory>(
    lets: &Items<Value>,
    hart: u8,
    target: Target,
    source: &Source,
    slots: &mut Vec<Value>,
    state: &mut State<M>,
) -> bool
    ensures { Written hart target (source_value lets.now hart state.old slots.old.items source.now) result slots.old.items slots.new.items
        state.old state.new }
{
    match word_of(lets, hart, state, slots, source) {
        Some(word) => {
            let word = *word;
            write_word(hart, target, word, slots, state)
        }
        None => match truth_of(lets, hart, state, slots, source) {
            Some(truth) => write_truth(hart, target, truth, slots, state),
            None => false,
        },
    }
}

/// Whether the words that two sources are are the same; none where they are no words, or not as wide.
fn same<M: Memory>(
    lets: &Items<Value>,
    hart: u8,
    state: &State<M>,
    slots: &[Value],
    sources: &[Source],
) -> Option<bool>
    ensures { IfSome result (λ same. same_of (map out-Value (source_values lets.now hart state.now slots.now sources.now)) ≡ Some same) }
{
    match sources {
        [a, b] => match word_of(lets, hart, state, slots, a) {
            Some(first) => match word_of(lets, hart, state, slots, b) {
                Some(second) => same_words(first, second),
                None => None,
            },
            None => None,
        },
        _ => None,
    }
}

/// The bits of a source from an index down to another; none where they are not all there.
fn slice<M: Memory>(
    lets: &Items<Value>,
    hart: u8,
    state: &State<M>,
    slots: &[Value],
    sources: &[Source],
) -> Option<Word>
    ensures { IfSome result (λ word. (t : AnOption AType) → worked_out t P.Slice (source_values lets.now hart state.now slots.now sources.now)
        ≡ Some (V.Bits word)) }
{
    match sources {
        [a, i, j] => match word_of(lets, hart, state, slots, a) {
            Some(word) => match index_of(lets, hart, state, slots, i) {
                Some(high) => match index_of(lets, hart, state, slots, j) {
                    Some(low) => slice_of(*word, high, low),
                    None => None,
                },
                None => None,
            },
            None => None,
        },
        _ => None,
    }
}

/// Compares two words, or takes bits out of one, and writes what that gives to a slot; false where anything else is to be done.
fn apply<M: Memory>(
    machine: &Machine,
    hart: u8,
    function: u32,
    target: Target,
    operation: Operation,
    sources: &[Source],
    slots: &mut Vec<Value>,
    state: &State<M>,
) -> bool
    ensures { Applied machine.now.program machine.now.lets hart function target operation sources.now result slots.old.items slots.new.items
        state.now }
{
    match target {
        Target::Slot(slot) => match operation {
            Operation::Builtin(row) => match row {
                Row::Eq => match same(&machine.lets, hart, state, slots, sources) {
                    Some(same) => store_truth(machine, function, slot, same, slots),
                    None => false,
                },
                Row::Neq => match same(&machine.lets, hart, state, slots, sources) {
                    Some(same) => store_truth(machine, function, slot, !same, slots),
                    None => false,
                },
                _ => false,
            },
            Operation::Slice => match slice(&machine.lets, hart, state, slots, sources) {
                Some(word) => store_word(machine, function, slot, word, slots),
                None => false,
            },
            _ => false,
        },
        Target::Register(_) => false,
    }
}
