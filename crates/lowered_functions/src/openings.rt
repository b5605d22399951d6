//! The code of top-level lets and initial values.
ghost use Rattle.std.specs.Prelude.{◌≡◌, [], true, IfOk, OnOk};
ghost use Rattle.lowered_pieces.specs.Emitted.{Emits, no_labels};
ghost use Rattle.lowered_pieces.specs.Places.{Naming};
ghost use Rattle.lowered_steps.specs.Stands.{stand_of};
ghost use Rattle.lowered_nodes.specs.Around.{node_for};
ghost use Rattle.lowered_functions.specs.Made.{CodeMade, held_for, name_for, value_for};

use crate::functions::{NOT_TAKEN, THROWN, begin, put_ends};
use lowered_nodes::{Walk, put_node};
use lowered_pieces::Coding;
use lowered_slots::Place;
use lowered_steps::{
    Ends, Levels, Matched, Scope, Setting, Stand, Tail, further, place_in, put_looks, put_tail,
};
use model_state::Cause;
use sail_base::{Place as TextPlace, Text};
use sail_core::{Core, Giver, Step};
use size_values::{Sized, copy_sized};
use std::alloc::{AllocError, Global};

/// The function that works out a value. It fails where memory is wanting.
pub fn put_value<'x>(
    walk: &'x Walk<'x>,
    place: TextPlace,
    value: &'x Core,
) -> Result<Coding, AllocError>
    requires lowered { (name : Naming) → (node_for walk.now.setting.now walk.now.around.now name value.now).ok ≡ true }
    ensures { IfOk result (λ coding. CodeMade walk.now coding [] (λ name. value_for walk.now name place value.now)) }
{
    let mut coding = begin(&*walk, &[])?;
    let scope = Scope::Empty;
    let levels = Levels::Outside;
    let stand = Stand {
        scope: &scope,
        temp: 0,
        on_throw: THROWN,
        on_no: NOT_TAKEN,
        levels: &levels,
    };
    let tail = Tail::Returns(&stand);
    put_node(&*walk, &mut coding, &stand, &tail, &*value)?;
    put_ends(&mut coding, walk.setting, place)?;
    Ok(coding)
}

/// A name of a top-level let, and what is known of it.
#[derive(Clone, Copy)]
pub struct LetName<'a> {
    /// The let's first word.
    pub place: TextPlace,
    /// The opening that gives the let's value.
    pub opening: u32,
    /// The value's type.
    pub whole: &'a Sized,
    /// The steps of the let's pattern.
    pub steps: &'a [Step],
    /// The name.
    pub name: &'a Text,
    /// The type of what it holds.
    pub typ: &'a Sized,
}

/// What the pattern looks at, which goes to a label where it doesn't match, and the value of the name as what the function gives. It fails where memory is
/// wanting.
fn put_held<'x>(
    alloc: Global,
    coding: &mut Coding,
    setting: &'x Setting<'x>,
    stand: &'x Stand<'x>,
    name: &'x LetName<'x>,
    no_match: u32,
) -> Result<(), AllocError>
    requires bare { setting.now.bodies.now ≡ [] }
    ensures { OnOk result (Emits coding.old coding.new
        (λ kit first. held_for setting.now kit name.now (stand_of stand.now) no_match first) no_labels) }
{
    let failing = Stand {
        on_no: no_match,
        ..*stand
    };
    let ends = Ends::One(copy_sized(alloc, name.whole)?);
    let matched = Matched::InHand(&ends);
    let giver = Giver::Arm(0, 0);
    let steps = name.steps;
    let hand = put_looks(alloc, coding, &*setting, giver, &matched, steps, &failing)?;
    let scope = Scope::Inside(hand.names.as_slice(), stand.scope);
    let from = place_in(name.name, &scope);
    let typ = setting.number(name.typ)?;
    coding.put_copy(Place::Temp(hand.free), typ, from, typ)?;
    let returns = Tail::Returns(&*stand);
    let tail = Tail::Moves(hand.free, &*stand, &returns);
    put_tail(alloc, coding, &*setting, &tail, name.typ)
}

/// The function that gives the value of a name of a top-level let; the run stops at the let where its pattern doesn't match. It fails where memory
/// is wanting.
pub fn put_name<'x>(walk: &'x Walk<'x>, name: &'x LetName<'x>) -> Result<Coding, AllocError>
    requires bare { walk.now.setting.now.bodies.now ≡ [] }
    ensures { IfOk result (λ coding. CodeMade walk.now coding [] (λ kit. name_for walk.now kit name.now)) }
{
    let mut coding = begin(&*walk, &[])?;
    let scope = Scope::Empty;
    let levels = Levels::Outside;
    let stand = Stand {
        scope: &scope,
        temp: 0,
        on_throw: THROWN,
        on_no: NOT_TAKEN,
        levels: &levels,
    };
    let whole = walk.setting.number(name.whole)?;
    coding.put_opening(Place::Temp(0), whole, name.opening)?;
    let no_match = coding.take_labels(2)?;
    let alloc = walk.alloc;
    let setting = walk.setting;
    put_held(alloc, &mut coding, &*setting, &stand, &*name, no_match)?;
    let end = further(no_match, 1)?;
    coding.put_goto(end)?;
    coding.put_label(no_match)?;
    coding.put_stop(Cause::MatchFailure(name.place))?;
    coding.put_label(end)?;
    put_ends(&mut coding, walk.setting, name.place)?;
    Ok(coding)
}
