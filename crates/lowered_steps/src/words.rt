//! How a word is cut into parts.
ghost use Rattle.std.specs.Prelude.{◌≡◌, ◌+◌, ℕ, pos, [], ◌∷◌, ◌++◌, map, IfOk, OnOk};
ghost use Rattle.size_values.specs.declared.sized.Sized.{out-Sized};
ghost use Rattle.sail_core.specs.Patterns.{known_sum, solved};
ghost use Rattle.lowered_pieces.specs.Arms.{Held as HeldAt, takes_code, takes_held, word_takes};
ghost use Rattle.lowered_pieces.specs.Emitted.{Emits, no_labels};
ghost use Rattle.lowered_steps.specs.Hands as spec;
ghost use Rattle.lowered_steps.specs.Setting.{kit_for, size_for};

use crate::hands::Held;
use crate::setting::{Setting, further};
use jib::{Operation, Source};
use lowered_pieces::Coding;
use lowered_slots::Place;
use sail_base::{Items, Word};
use sail_types::Num;
use size_values::{Sized, Variables, value_of};
use std::alloc::{AllocError, Global};

/// The width of a type of words; 0 of another type.
pub fn word_width(typ: &Sized) -> u128
    ensures { result ≡ spec.word_width (out-Sized typ.now) }
{
    match typ {
        Sized::Bits(width) => width_or(Some(*width)),
        _ => 0,
    }
}

/// A number that isn't negative; 0 where it is, or where there is none.
fn width_or(number: Option<i128>) -> u128
    ensures { result ≡ spec.width_or number }
{
    match number {
        Some(number) => match u128::try_from(number) {
            Ok(width) => width,
            Err(_) => 0,
        },
        None => 0,
    }
}

/// The width of a part of a word, where one is written.
pub fn part_width(setting: &Setting<'_>, width: &Option<Num>) -> Option<u128>
    ensures { result ≡ spec.part_width (size_for setting.now) width.now }
{
    match width {
        Some(width) => Some(width_or(value_of(width, &Variables::Known(setting.numbers, &[])))),
        None => None,
    }
}

/// The width of a part of a word; the rest where none is written.
fn solved_width(rest: u128, width: Option<u128>) -> u128
    ensures { result ≡ solved rest width }
{
    match width {
        Some(width) => width,
        None => rest,
    }
}

/// The sum of two widths. It fails where it passes all numbers.
fn sum_of(width: u128, behind: u128) -> Result<u128, AllocError>
    ensures { IfOk result (λ sum. sum ≡ width + behind) }
{
    match width.checked_add(behind) {
        Some(sum) => Ok(sum),
        None => Err(AllocError),
    }
}

/// The sum of the widths that are written. It fails where it passes all numbers.
pub fn sum_widths(setting: &Setting<'_>, widths: &[Option<Num>]) -> Result<u128, AllocError>
    ensures { IfOk result (λ sum. sum ≡ known_sum (map (spec.part_width (size_for setting.now)) widths.now)) }
{
    match widths {
        [] => Ok(0),
        [first, rest @ ..] => {
            let behind = sum_widths(setting, rest)?;
            match part_width(setting, first) {
                Some(width) => sum_of(width, behind),
                None => Ok(behind),
            }
        }
    }
}

/// The parts of a word of which so many bits are left: those of these widths, where one that isn't written is this one. They come behind other parts.
/// It fails where memory is wanting, and where a width passes all integers.
fn put_cut(
    alloc: Global,
    coding: &mut Coding,
    setting: &Setting<'_>,
    value: &Held,
    left: u128,
    rest: u128,
    widths: &[Option<Num>],
    free: u32,
    parts: &mut Items<Held>,
) -> Result<(), AllocError>
    ensures code { OnOk result (Emits coding.old coding.new
        (λ name first. spec.cut_code setting.now.types.now (kit_for setting.now name) (spec.held_of value.now) left
        (spec.solved_all rest (map (spec.part_width (size_for setting.now)) widths.now)) free) no_labels) }
    ensures parts { OnOk result (map spec.held_of parts.new ≡ map spec.held_of parts.old
        ++ spec.cut_held setting.now.types.now (kit_for setting.now (λ place typ. 0)) (spec.held_of value.now) left
        (spec.solved_all rest (map (spec.part_width (size_for setting.now)) widths.now)) free) }
{
    match widths {
        [] => Ok(()),
        [first, others @ ..] => {
            let width = solved_width(rest, part_width(setting, first));
            let low = left.saturating_sub(width);
            put_slice(alloc, coding, setting, value, left, width, free, parts)?;
            let next = further(free, 1)?;
            put_cut(
                alloc, coding, setting, value, low, rest, others, next, parts,
            )
        }
    }
}

/// An integer that isn't negative. It fails where it passes all integers of the language of this program.
pub fn as_integer(number: u128) -> Result<i128, AllocError>
    ensures { IfOk result (λ integer. integer ≡ pos number) }
{
    match i128::try_from(number) {
        Ok(integer) => Ok(integer),
        Err(_) => Err(AllocError),
    }
}

/// No bits come behind other parts. It fails where memory is wanting.
fn put_no_bits(
    alloc: Global,
    coding: &mut Coding,
    setting: &Setting<'_>,
    free: u32,
    parts: &mut Items<Held>,
) -> Result<(), AllocError>
    ensures code { (h : HeldAt) → (m : ℕ) → OnOk result (Emits coding.old coding.new
        (λ name first. spec.slice_code setting.now.types.now (kit_for setting.now name) h m 0 free) no_labels) }
    ensures parts { OnOk result (map spec.held_of parts.new ≡ map spec.held_of parts.old ++ spec.slice_held free 0 ∷ []) }
{
    let typ = Sized::Bits(0);
    let number = setting.number(&typ)?;
    let place = Place::Temp(free);
    let mut sources = Items::new(alloc);
    sources.push(Source::Constant(number, jib::Literal::Bits(Word::new(0, 0))))?;
    coding.put_apply(place, number, Operation::Same, sources)?;
    parts.push(Held { place, typ })
}

/// So many bits of a word, from below the bits that are left down to the lowest of the part, come behind other parts. It fails where memory is wanting,
/// and where a number passes all integers.
fn put_slice(
    alloc: Global,
    coding: &mut Coding,
    setting: &Setting<'_>,
    value: &Held,
    left: u128,
    width: u128,
    free: u32,
    parts: &mut Items<Held>,
) -> Result<(), AllocError>
    ensures code { OnOk result (Emits coding.old coding.new
        (λ name first. spec.slice_code setting.now.types.now (kit_for setting.now name) (spec.held_of value.now) left width free) no_labels) }
    ensures parts { OnOk result (map spec.held_of parts.new ≡ map spec.held_of parts.old ++ spec.slice_held free width ∷ []) }
{
    if width == 0 {
        return put_no_bits(alloc, coding, setting, free, parts);
    }
    let whole = setting.number(&value.typ)?;
    let high = as_integer(left.saturating_sub(1))?;
    let low = as_integer(left.saturating_sub(width))?;
    let bits = as_integer(width)?;
    let typ = Sized::Bits(bits);
    let number = setting.number(&typ)?;
    let place = Place::Temp(free);
    coding.put_apply_between(
        alloc,
        place,
        number,
        Operation::Slice,
        value.place,
        whole,
        setting.integer,
        jib::Literal::Integer(high),
        jib::Literal::Integer(low),
    )?;
    parts.push(Held { place, typ })
}

/// The parts of a word, of which those of the widths that are written take so many bits and the one without a width the rest. They come behind other
/// parts. It fails where memory is wanting, and where a number passes all integers.
pub fn put_word_parts(
    alloc: Global,
    coding: &mut Coding,
    setting: &Setting<'_>,
    value: &Held,
    widths: &[Option<Num>],
    free: u32,
    parts: &mut Items<Held>,
) -> Result<(), AllocError>
    ensures code { OnOk result (Emits coding.old coding.new (λ name first. takes_code setting.now.types.now (kit_for setting.now name)
        (word_takes setting.now.types.now (kit_for setting.now name) (spec.held_of value.now) widths.now) free) no_labels) }
    ensures parts { OnOk result (map spec.held_of parts.new ≡ map spec.held_of parts.old
        ++ takes_held setting.now.types.now (kit_for setting.now (λ place typ. 0))
        (word_takes setting.now.types.now (kit_for setting.now (λ place typ. 0)) (spec.held_of value.now) widths.now) free) }
{
    let width = word_width(&value.typ);
    let known = sum_widths(setting, widths)?;
    let rest = width.saturating_sub(known);
    put_cut(
        alloc, coding, setting, value, width, rest, widths, free, parts,
    )
}
