//! Openings, in text order.
ghost use Rattle.std.specs.Prelude.{◌≡◌, ◌++◌, take, drop, IfOk, OnOk};
ghost use Rattle.shapes.specs.Resolved.{opening as opening_of, took, lets_left, initials_left, in_text_order};

use core_numbers::number_nodes;
use sail_base::{Items, Place};
use sail_core::{Core, Opening, OpeningKind};
use sail_syntax::Def;
use std::alloc::{AllocError, Global};
use std::collections::VecDeque;

/// An opening, whose nodes get numbers of its own. The one error is want of memory.
pub(crate) fn opening(
    alloc: Global,
    place: Place,
    kind: OpeningKind,
    core: Core,
) -> Result<Opening, AllocError>
    ensures { IfOk result (λ made. made ≡ opening_of place kind core) }
{
    let mut next = 0;
    let value = number_nodes(alloc, core, &mut next)?;
    Ok(Opening { place, kind, value })
}

/// The first opening that is left, if there is one, behind others.
fn push_next(left: &mut VecDeque<Opening>, openings: &mut Items<Opening>) -> Result<(), AllocError>
    ensures openings { OnOk result (openings.new ≡ openings.old ++ take 1 left.old.items) }
    ensures left { left.new.items ≡ drop 1 left.old.items }
{
    match left.pop_front() {
        None => Ok(()),
        Some(opening) => openings.push(opening),
    }
}

/// The opening of a definition that has one, behind others.
fn push_took(
    definition: &Def,
    lets: &mut VecDeque<Opening>,
    initials: &mut VecDeque<Opening>,
    openings: &mut Items<Opening>,
) -> Result<(), AllocError>
    ensures openings { OnOk result (openings.new ≡ openings.old ++ took definition.now lets.old.items initials.old.items) }
    ensures lets { lets.new.items ≡ lets_left definition.now lets.old.items }
    ensures initials { initials.new.items ≡ initials_left definition.now initials.old.items }
{
    match definition {
        Def::Let(..) => push_next(lets, openings),
        Def::Register {
            initial: Some(_),
            ..
        } => push_next(initials, openings),
        _ => Ok(()),
    }
}

/// The openings of top-level lets and of initial values, all in text order. The one error is want of memory.
pub(crate) fn merge_openings(
    alloc: Global,
    definitions: &[Def],
    lets: Items<Opening>,
    initials: Items<Opening>,
) -> Result<Items<Opening>, AllocError>
    ensures { IfOk result (λ merged. merged ≡ in_text_order definitions.now lets initials) }
{
    let mut lets_left = VecDeque::from_vec(lets.into_vec());
    let mut initials_left = VecDeque::from_vec(initials.into_vec());
    let mut openings = Items::new(alloc);
    for definition in definitions {
        push_took(
            definition,
            &mut lets_left,
            &mut initials_left,
            &mut openings,
        )?;
    }
    Ok(openings)
}
