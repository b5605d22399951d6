//! Parts of values: `e.f[i][h .. l]`.
ghost use Rattle.std.specs.Prelude.{◌≡◌, ◌≤◌, ◌∷◌, true, length, take, drop, OnOk};
ghost use Rattle.sail_core.specs.declared.tree.Kind.TheVariants as kind;
ghost use Rattle.lowered_pieces.specs.declared.coding.Coding.{Coding};
ghost use Rattle.lowered_pieces.specs.Forms.{Piece};
ghost use Rattle.lowered_pieces.specs.Places.{Naming};
ghost use Rattle.lowered_pieces.specs.Writes.{take_op, takes_of};
ghost use Rattle.lowered_nodes.specs.Walk as spec;

use crate::operands::{put_all, put_held};
use crate::walk::{Walk, put_node};
use jib::Operation;
use lowered_pieces::Coding;
use lowered_steps::{Making, Order, Stand, Tail, further, put_made};
use sail_base::Items;
use sail_core::{Core, Suffix, Way};
use std::alloc::AllocError;

/// How many indexes a way takes.
fn way_takes(way: &Way) -> usize
    ensures count { result ≡ takes_of way.now }
    ensures few { result ≤ 2 }
{
    match way {
        Way::Field(_, _) => 0,
        Way::Item => 1,
        Way::Slice => 2,
    }
}

/// What takes out a part.
fn way_op(way: &Way) -> Operation
    ensures { result ≡ take_op way.now }
{
    match way {
        Way::Field(_, field) => Operation::Field(*field),
        Way::Item => Operation::Item,
        Way::Slice => Operation::Slice,
    }
}

/// So many indexes from the first on, or all.
fn own_indexes(indexes: &[Core], takes: usize) -> &[Core]
    ensures { result.now ≡ take takes indexes.now }
{
    if takes < indexes.len() {
        &indexes[..takes]
    } else {
        indexes
    }
}

/// The indexes behind so many.
fn other_indexes(indexes: &[Core], takes: usize) -> &[Core]
    ensures { result.now ≡ drop takes indexes.now }
{
    if takes < indexes.len() {
        &indexes[takes..]
    } else {
        &[]
    }
}

/// The indexes of a suffix come in hand behind a value that is there, and the part is taken out of it. It fails where memory is wanting.
#[cycle(lowering)]
fn put_way<'x>(
    walk: &'x Walk<'x>,
    coding: &mut Coding,
    stand: &'x Stand<'x>,
    tail: &'x Tail<'x>,
    suffix: &'x Suffix,
    indexes: &'x [Core],
) -> Result<(), AllocError>
    requires { ((name : Naming) → spec.all_lowered_for walk.now name indexes.now ≡ true) × (length indexes.now ≡ takes_of suffix.now.way) }
    ensures { (old : Coding) (whole : Naming → Piece) → spec.Held old coding.old stand.now whole → OnOk result
        (spec.Puts old coding.new walk.now stand.now tail.now (λ name. spec.way_for walk.now name suffix.now (whole name) indexes.now)) }
{
    let takes = way_takes(&suffix.way);
    let behind = Stand {
        temp: further(stand.temp, 1)?,
        ..*stand
    };
    put_all(&*walk, coding, &behind, &*indexes)?;
    let making = Making::Works(way_op(&suffix.way), Order::Forwards);
    put_made(
        walk.alloc,
        coding,
        walk.setting,
        &*stand,
        &*tail,
        suffix.number,
        takes + 1,
        takes + 1,
        &making,
    )
}

/// So for a suffix and those behind it, with their indexes. It fails where memory is wanting.
#[cycle(lowering)]
fn put_ways<'x>(
    walk: &'x Walk<'x>,
    coding: &mut Coding,
    stand: &'x Stand<'x>,
    tail: &'x Tail<'x>,
    suffix: &'x Suffix,
    rest: &'x [Suffix],
    indexes: &'x [Core],
) -> Result<(), AllocError>
    requires { (name : Naming) → spec.ways_ok walk.now name (suffix.now ∷ rest.now) indexes.now ≡ true }
    ensures { (old : Coding) (whole : Naming → Piece) → spec.Held old coding.old stand.now whole → OnOk result
        (spec.Puts old coding.new walk.now stand.now tail.now
        (λ name. spec.ways_for walk.now name (suffix.now ∷ rest.now) (whole name) indexes.now)) }
{
    let takes = way_takes(&suffix.way);
    let own = own_indexes(&*indexes, takes);
    let others = other_indexes(&*indexes, takes);
    match rest {
        [] => put_way(&*walk, coding, &*stand, &*tail, &*suffix, own),
        [next, more @ ..] => {
            put_way(&*walk, coding, &*stand, &Tail::Stays, &*suffix, own)?;
            put_ways(&*walk, coding, &*stand, &*tail, next, more, others)
        }
    }
}

/// A value, and suffixes with their indexes. It fails where memory is wanting.
#[cycle(lowering)]
fn put_path<'x>(
    walk: &'x Walk<'x>,
    coding: &mut Coding,
    stand: &'x Stand<'x>,
    tail: &'x Tail<'x>,
    whole: &'x Core,
    suffixes: &'x [Suffix],
    indexes: &'x [Core],
) -> Result<(), AllocError>
    requires { (name : Naming) → spec.path_ok walk.now name whole.now suffixes.now indexes.now ≡ true }
    ensures { OnOk result (spec.Puts coding.old coding.new walk.now stand.now tail.now
        (λ name. spec.path_for walk.now name whole.now suffixes.now indexes.now)) }
{
    match suffixes {
        [] => put_node(&*walk, coding, &*stand, &*tail, &*whole),
        [first, rest @ ..] => {
            put_held(&*walk, coding, &*stand, &*whole)?;
            put_ways(&*walk, coding, &*stand, &*tail, first, rest, &*indexes)
        }
    }
}

/// A part of a value. It fails where memory is wanting.
#[cycle(lowering)]
pub fn put_part_of<'x>(
    walk: &'x Walk<'x>,
    coding: &mut Coding,
    stand: &'x Stand<'x>,
    tail: &'x Tail<'x>,
    suffixes: &'x Items<Suffix>,
    node: &'x Core,
) -> Result<(), AllocError>
    requires { (name : Naming) → spec.as_ok walk.now name (kind.Part suffixes.now) node.now ≡ true }
    ensures { OnOk result (spec.Puts coding.old coding.new walk.now stand.now tail.now
        (λ name. spec.as_for walk.now name (kind.Part suffixes.now) node.now)) }
{
    match node.parts.as_slice() {
        [] => Ok(()),
        [whole, indexes @ ..] => {
            let suffixes = suffixes.as_slice();
            put_path(&*walk, coding, &*stand, &*tail, whole, suffixes, indexes)
        }
    }
}
