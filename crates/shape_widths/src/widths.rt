//! Widths of parts of a concatenation.
ghost use Rattle.std.specs.Prelude.{◌≡◌, ◌++◌, ◌∷◌, [], map, false, IfOk, OnOk};
ghost use Rattle.std.specs.Option.{option_copied};
ghost use Rattle.shape_rules.specs.Around.{setting_of};
ghost use Rattle.shape_rules.specs.Findings.{first_failure};
ghost use Rattle.shape_rules.specs.Patterns.{piece, width_of as width_of_typ, name_width as name_width_of, construct_width as construct_width_of, side_width as side_width_of};
ghost use Rattle.shape_rules.specs.Patterns.{width_faults, opposite as opposite_of, direction_width as direction_width_of, direction_of};
ghost use Rattle.sail_types.specs.Sums.{and_then};
ghost use Rattle.shape_widths.specs.Known.{widths_of, which};
ghost use Rattle.shape_widths.specs.Parts.{further, width_fault, is_behind as is_behind_of};

use crate::literals::literal_width;
use crate::mappings::{Matched, which_side};
use sail_base::{Items, Place, Text};
use sail_syntax::{Joined, Name, Pat};
use sail_types::{Num, Shape, Typ, copy_num};
use shape_rules::{Around, Callee, Doing, First, Mapping, Meant, ShapeError};
use std::alloc::{AllocError, Global};
use written_types::typ_in;

/// A width that is known of a name.
pub struct Given {
    /// The name.
    pub name: Text,
    /// Its width.
    pub width: Num,
}

impl Drop for Given {
    fn drop(self) {
        let Given { name: _, width: _ } = self;
    }
}

/// The width of `bits(n)`; none of another type.
pub fn width_of(typ: &Typ) -> Option<&Num>
    ensures { option_copied result ≡ width_of_typ typ.now }
{
    match typ {
        Typ::Bits(width) => Some(width),
        _ => None,
    }
}

/// The same number once more, where there is one. It fails where memory is wanting.
fn copied(alloc: Global, number: Option<&Num>) -> Result<Option<Num>, AllocError>
    ensures { IfOk result (λ made. made ≡ option_copied number.entry) }
{
    match number {
        Some(number) => Ok(Some(copy_num(alloc, number)?)),
        None => Ok(None),
    }
}

/// The first width that is known of a name.
fn width_named<'a>(widths: &'a [Given], name: &str) -> Option<&'a Num>
    ensures { option_copied result ≡ widths_of widths.now name.now }
{
    for given in widths {
        if given.name.as_str() == name {
            return Some(&given.width);
        }
    }
    None
}

/// The width of a bare identifier. It fails where memory is wanting.
fn name_width(
    alloc: Global,
    name: &Name,
    around: &Around<'_>,
    widths: &[Given],
) -> Result<Option<Num>, AllocError>
    ensures { IfOk result (λ width. width ≡ name_width_of name.now ((setting_of around.now).value name.now.text) (widths_of widths.now)) }
{
    match around.value(name.text.as_str()) {
        Some(Meant::Member(_, _)) => Ok(None),
        _ => copied(alloc, width_named(widths, name.text.as_str())),
    }
}

/// The width of the side of a mapping that is matched. It fails where memory is wanting.
fn side_width(alloc: Global, mapping: &Mapping, side: Matched) -> Result<Option<Num>, AllocError>
    ensures { IfOk result (λ width. width ≡ side_width_of mapping.now (which side)) }
{
    match side {
        Matched::Forwards => copied(alloc, width_of(&mapping.left)),
        Matched::Backwards => copied(alloc, width_of(&mapping.right)),
        _ => Ok(None),
    }
}

/// The number of the direction of a mapping that leads back.
#[tactic(auto, using(crate::proofs::Directions::opposite_even, crate::proofs::Directions::opposite_odd))]
fn opposite(direction: u32) -> u32
    ensures { result ≡ opposite_of direction }
{
    if direction % 2 == 0 {
        direction + 1
    } else {
        direction - 1
    }
}

/// The width of a type, where there is one. It fails where memory is wanting.
fn width_if(alloc: Global, typ: Option<&Typ>) -> Result<Option<Num>, AllocError>
    ensures { IfOk result (λ width. width ≡ and_then (option_copied typ.entry) width_of_typ) }
{
    match typ {
        Some(typ) => copied(alloc, width_of(typ)),
        None => Ok(None),
    }
}

/// The width of what a direction of a mapping takes: of what the other one gives. It fails where memory is wanting.
fn direction_width(
    alloc: Global,
    doing: Doing,
    around: &Around<'_>,
) -> Result<Option<Num>, AllocError>
    ensures { IfOk result (λ width. width ≡ direction_width_of (setting_of around.now) (direction_of doing)) }
{
    match doing {
        Doing::Calls(Callee::Converts(direction)) => {
            width_if(alloc, around.given_by(opposite(direction)))
        }
        _ => Ok(None),
    }
}

/// The width of a mapping's call: of the side that is matched. It fails where memory is wanting.
fn construct_width(
    alloc: Global,
    name: &Name,
    around: &Around<'_>,
) -> Result<Option<Num>, AllocError>
    ensures { IfOk result (λ width. width ≡ construct_width_of (setting_of around.now) ((setting_of around.now).value name.now.text)) }
{
    match around.value(name.text.as_str()) {
        Some(Meant::Mapping(mapping)) => {
            let side = which_side(alloc, mapping, &Shape::Bits)?;
            side_width(alloc, mapping, side)
        }
        Some(Meant::Callee(callee)) => direction_width(alloc, callee.doing, around),
        _ => Ok(None),
    }
}

/// The width of its own that a pattern has as a part of a concatenation: of a literal of bits, of `p : bits(n)`, of a mapping's call, and of
/// a bare identifier of which one is known. It fails where memory is wanting.
fn width(
    alloc: Global,
    part: &Pat,
    around: &Around<'_>,
    widths: &[Given],
) -> Result<Option<Num>, AllocError>
    ensures { IfOk result (λ width. width ≡ (piece part.now).width (setting_of around.now) (widths_of widths.now)) }
{
    match part {
        Pat::Constant(_, literal) => Ok(literal_width(alloc, literal)),
        Pat::Bind(name) => name_width(alloc, name, around, widths),
        Pat::Construct(name, _) => construct_width(alloc, name, around),
        Pat::Typed(_, _, typ) => {
            let typ = typ_in(alloc, typ, &around.scope)?;
            width_if(alloc, typ.as_ref())
        }
        _ => Ok(None),
    }
}

/// Notes a part without a width behind another one (M18), and says whether there has been one.
fn note_width(is_behind: bool, width: &Option<Num>, place: Place, first: &mut First) -> bool
    ensures failures { first.new.error ≡ first_failure first.old.error (width_fault is_behind width.now place) }
    ensures behind { result ≡ is_behind_of is_behind width.now }
{
    match width {
        Some(_) => is_behind,
        None => {
            if is_behind {
                first.note(ShapeError::WidthUnknown { place });
            }
            true
        }
    }
}

/// Puts the width of a part behind those of others, notes its failure, and says whether there has been a part without one. The one error
/// is want of memory.
#[tactic(auto, using(crate::proofs::Parts::place_is))]
fn cut_part(
    alloc: Global,
    part: &Pat,
    around: &Around<'_>,
    widths: &[Given],
    is_behind: bool,
    cut: &mut Items<Option<Num>>,
    first: &mut First,
) -> Result<bool, AllocError>
    ensures cut { OnOk result (cut.new ≡ cut.old ++ (piece part.now).width (setting_of around.now) (widths_of widths.now) ∷ []) }
    ensures failures { OnOk result (first.new.error
        ≡ first_failure first.old.error (width_fault is_behind ((piece part.now).width (setting_of around.now) (widths_of widths.now)) (piece part.now).place)) }
    ensures behind { IfOk result (λ some. some ≡ is_behind_of is_behind ((piece part.now).width (setting_of around.now) (widths_of widths.now))) }
{
    let width = width(alloc, part, around, widths)?;
    let is_behind = note_width(is_behind, &width, part.place(), first);
    cut.push(width)?;
    Ok(is_behind)
}

/// The widths of the further parts of a concatenation, behind those of others. The one error is want of memory.
#[tactic(auto, using(shape_rules::proofs::Firsts::first_failure_append, crate::proofs::Parts::width_faults_more))]
fn cut_joined(
    alloc: Global,
    parts: &[Joined],
    around: &Around<'_>,
    widths: &[Given],
    mut is_behind: bool,
    cut: &mut Items<Option<Num>>,
    first: &mut First,
) -> Result<(), AllocError>
    ensures cut { OnOk result (cut.new ≡ cut.old ++ map (λ p. p.width (setting_of around.now) (widths_of widths.now)) (map further parts.now)) }
    ensures failures { OnOk result (first.new.error
        ≡ first_failure first.old.error (width_faults is_behind (setting_of around.now) (widths_of widths.now) (map further parts.now))) }
{
    for next in parts {
        is_behind = cut_part(alloc, &next.part, around, widths, is_behind, cut, first)?;
    }
    Ok(())
}

/// The widths of the parts of a concatenation. A part without one behind another is noted (M18). The one error is want of memory.
#[tactic(auto, using(shape_rules::proofs::Firsts::first_failure_append, crate::proofs::Parts::width_faults_more))]
pub fn cut(
    alloc: Global,
    head: &Pat,
    second: &Pat,
    more: &[Joined],
    around: &Around<'_>,
    widths: &[Given],
    first: &mut First,
) -> Result<Items<Option<Num>>, AllocError>
    ensures cut { IfOk result (λ made. made
        ≡ map (λ p. p.width (setting_of around.now) (widths_of widths.now)) (piece head.now ∷ piece second.now ∷ map further more.now)) }
    ensures failures { OnOk result (first.new.error ≡ first_failure first.old.error
        (width_faults false (setting_of around.now) (widths_of widths.now) (piece head.now ∷ piece second.now ∷ map further more.now))) }
{
    let mut cut = Items::new(alloc);
    let is_behind = cut_part(alloc, head, around, widths, false, &mut cut, first)?;
    let is_behind = cut_part(alloc, second, around, widths, is_behind, &mut cut, first)?;
    cut_joined(alloc, more, around, widths, is_behind, &mut cut, first)?;
    Ok(cut)
}
