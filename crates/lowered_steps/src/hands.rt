//! What an arm has in hand, and what it looks at.
ghost use Rattle.std.specs.Prelude.{◌≡◌, ◌+◌, [], ◌∷◌, ◌++◌, map, IfOk, OnOk};
ghost use Rattle.sized_meanings.specs.Present.{gives_at};
ghost use Rattle.lowered_pieces.specs.Arms.{arm_hand, at_hand, choice_code, choice_labels, choices, choices_at};
ghost use Rattle.lowered_pieces.specs.Arms.{first_hand, given_held, hand_of, held_at, looks_code, picked_of, places_of};
ghost use Rattle.lowered_pieces.specs.Arms.{seen_code, step_code, step_hand, steps_code, steps_hand, thrown_code};
ghost use Rattle.lowered_pieces.specs.Chains.{by_case, many};
ghost use Rattle.lowered_pieces.specs.Forms.{cases_ends, kit_at};
ghost use Rattle.lowered_pieces.specs.Emitted.{Emits, no_labels};
ghost use Rattle.lowered_pieces.specs.Frames.{ArmsPut};
ghost use Rattle.lowered_steps.specs.Hands as spec;
ghost use Rattle.lowered_steps.specs.Setting.{kit_for, mapped_of, nodes_in, ways_for};
ghost use Rattle.lowered_steps.specs.Stands.{depths_of, stand_of};

use crate::chains::{begin_arm, begin_arms, end_arm, end_arms};
use crate::heads::put_head;
use crate::moves::put_move;
use crate::notes::put_arm_notes;
use crate::setting::{Mapped, Setting, further};
use crate::stands::{Named, Stand};
use lowered_pieces::Coding;
use lowered_slots::Place;
use sail_base::{Items, Place as TextPlace};
use sail_core::{Giver, Step};
use size_values::{Sized, copy_sized};
use sized_nodes::Case;
use std::alloc::{AllocError, Global};

/// A value in hand: where it stands, and its type.
#[derive(Drop)]
pub struct Held {
    /// Where it stands.
    pub place: Place,
    /// Its type.
    pub typ: Sized,
}

/// What an arm has in hand: its values by number, the names so far with what each holds, and the first place that is free.
#[derive(Drop)]
pub struct Hand<'a> {
    /// The values.
    pub values: Items<Held>,
    /// The names, with their places.
    pub names: Items<Named<'a>>,
    /// What each name holds.
    pub named: Items<Held>,
    /// The first place that is free.
    pub free: u32,
}

/// The types that a value in hand may have.
#[derive(Drop)]
pub enum Ends<'a> {
    /// None is said.
    Unsaid,
    /// What these cases give.
    Cases(&'a [Case]),
    /// This one.
    One(Sized),
}

/// What is matched: a value in hand, of these types; or what a function is called with, of these.
#[derive(Clone, Copy)]
pub enum Matched<'a> {
    /// A value in hand.
    InHand(&'a Ends<'a>),
    /// What a function is called with.
    Arguments(&'a [Sized]),
}

impl Held {
    /// The same once more. It fails where memory is wanting.
    fn copy(&self, alloc: Global) -> Result<Held, AllocError>
        ensures { IfOk result (λ copy. copy ≡ self.now) }
    {
        Ok(Held {
            place: self.place,
            typ: copy_sized(alloc, &self.typ)?,
        })
    }
}

/// The value of a number in hand; `()` in the first place where there is none. It fails where memory is wanting.
fn value_at(
    alloc: Global,
    setting: &Setting<'_>,
    values: &[Held],
    number: u32,
) -> Result<Held, AllocError>
    ensures { IfOk result (λ held. spec.held_of held ≡
        at_hand setting.now.types.now (kit_for setting.now (λ place typ. 0)) (map spec.held_of values.now) number) }
{
    match values.get(number as usize) {
        Some(value) => value.copy(alloc),
        None => Ok(Held {
            place: Place::Temp(0),
            typ: copy_sized(alloc, setting.nothing)?,
        }),
    }
}

/// A direction of a mapping is asked with a value: the option that it gives goes to a place. What it throws goes to a label. It fails where memory is
/// wanting.
fn put_way(
    alloc: Global,
    coding: &mut Coding,
    setting: &Setting<'_>,
    mapped: &Mapped,
    value: &Held,
    free: u32,
    throw: u32,
) -> Result<(), AllocError>
    ensures { OnOk result (Emits coding.old coding.new (λ name first.
        seen_code setting.now.types.now (kit_for setting.now name) (mapped_of mapped.now) (spec.held_of value.now) free throw) no_labels) }
{
    let place = Place::Temp(free);
    let takes = setting.number(&mapped.takes)?;
    let gives = setting.number(&mapped.gives)?;
    let from = setting.number(&value.typ)?;
    put_move(alloc, coding, setting, place, takes, value.place, from)?;
    let mut arguments = Items::new(alloc);
    arguments.push(coding.source(place, takes)?)?;
    let nowhere = TextPlace {
        file: 0,
        line: 0,
        column: 0,
    };
    coding.put_call(place, gives, mapped.function, arguments, throw, nowhere)
}

/// So, and the option comes behind the values in hand, in the first place that is free. The next one. It fails where memory is wanting.
fn put_asked(
    alloc: Global,
    coding: &mut Coding,
    setting: &Setting<'_>,
    mapped: &Mapped,
    value: &Held,
    free: u32,
    throw: u32,
    values: &mut Items<Held>,
) -> Result<u32, AllocError>
    ensures code { OnOk result (Emits coding.old coding.new (λ name first.
        seen_code setting.now.types.now (kit_for setting.now name) (mapped_of mapped.now) (spec.held_of value.now) free throw) no_labels) }
    ensures hand { OnOk result (map spec.held_of values.new ≡ map spec.held_of values.old ++ held_at free mapped.now.gives ∷ []) }
    ensures next { IfOk result (λ next. next ≡ free + 1) }
{
    put_way(alloc, coding, setting, mapped, value, free, throw)?;
    values.push(Held {
        place: Place::Temp(free),
        typ: copy_sized(alloc, &mapped.gives)?,
    })?;
    further(free, 1)
}

/// So of the direction of a number. It fails where memory is wanting.
fn put_seen(
    alloc: Global,
    coding: &mut Coding,
    setting: &Setting<'_>,
    direction: u32,
    value: &Held,
    free: u32,
    throw: u32,
    values: &mut Items<Held>,
) -> Result<u32, AllocError>
    ensures code { OnOk result (Emits coding.old coding.new (λ name first.
        seen_code setting.now.types.now (kit_for setting.now name) (ways_for setting.now direction) (spec.held_of value.now) free throw) no_labels) }
    ensures hand { OnOk result (map spec.held_of values.new ≡ map spec.held_of values.old ++ held_at free (ways_for setting.now direction).gives ∷ []) }
    ensures next { IfOk result (λ next. next ≡ free + 1) }
{
    match setting.direction(direction) {
        Some(mapped) => put_asked(alloc, coding, setting, mapped, value, free, throw, values),
        None => {
            let none = Mapped {
                function: 0,
                takes: Sized::Never,
                gives: Sized::Never,
                payload: Sized::Never,
            };
            put_asked(alloc, coding, setting, &none, value, free, throw, values)
        }
    }
}

/// One step of an arm. It fails where memory is wanting.
fn put_step<'a>(
    alloc: Global,
    coding: &mut Coding,
    setting: &Setting<'_>,
    step: &'a Step,
    hand: &mut Hand<'a>,
    throw: u32,
    fail: u32,
) -> Result<(), AllocError>
    ensures code { OnOk result (Emits coding.old coding.new
        (λ name first. step_code setting.now.types.now (kit_for setting.now name) step.now (spec.hand_of hand.old) throw fail) no_labels) }
    ensures hand { OnOk result (spec.hand_of hand.new ≡
        step_hand setting.now.types.now (kit_for setting.now (λ place typ. 0)) step.now (spec.hand_of hand.old) fail) }
{
    match step {
        Step::Opens(number, head, count) => {
            let value = value_at(alloc, setting, hand.values.as_slice(), *number)?;
            let free = hand.free;
            let values = &mut hand.values;
            let next = put_head(
                alloc, coding, setting, &value, head, *count, free, fail, values,
            )?;
            hand.free = next;
            Ok(())
        }
        Step::Names(number, name) => {
            let value = value_at(alloc, setting, hand.values.as_slice(), *number)?;
            let place = value.place;
            hand.names.push(Named { name, place })?;
            hand.named.push(value)
        }
        Step::Sees(number, direction) => {
            let value = value_at(alloc, setting, hand.values.as_slice(), *number)?;
            let free = hand.free;
            let values = &mut hand.values;
            let next = put_seen(
                alloc, coding, setting, *direction, &value, free, throw, values,
            )?;
            hand.free = next;
            Ok(())
        }
    }
}

/// The steps of an arm, one by one. They fail where memory is wanting.
pub fn put_steps<'a>(
    alloc: Global,
    coding: &mut Coding,
    setting: &Setting<'_>,
    steps: &'a [Step],
    hand: &mut Hand<'a>,
    throw: u32,
    fail: u32,
) -> Result<(), AllocError>
    ensures code { OnOk result (Emits coding.old coding.new
        (λ name first. steps_code setting.now.types.now (kit_for setting.now name) steps.now (spec.hand_of hand.old) throw fail) no_labels) }
    ensures hand { OnOk result (spec.hand_of hand.new ≡
        steps_hand setting.now.types.now (kit_for setting.now (λ place typ. 0)) steps.now (spec.hand_of hand.old) fail) }
{
    match steps {
        [] => Ok(()),
        [step, rest @ ..] => {
            put_step(alloc, coding, setting, step, hand, throw, fail)?;
            put_steps(alloc, coding, setting, rest, hand, throw, fail)
        }
    }
}

/// A hand with these values, where the places from one on are free.
fn begin_hand<'a>(alloc: Global, values: Items<Held>, free: u32) -> Hand<'a>
    ensures { spec.hand_of result ≡ spec.begun_with (map spec.held_of values) free }
{
    Hand {
        values,
        names: Items::new(alloc),
        named: Items::new(alloc),
        free,
    }
}

/// One value in a place, as a list. It fails where memory is wanting.
fn one_held(alloc: Global, place: Place, typ: &Sized) -> Result<Items<Held>, AllocError>
    ensures { IfOk result (λ values. map spec.held_of values ≡ record { place = place; typ = typ.now } ∷ []) }
{
    let mut values = Items::new(alloc);
    values.push(Held {
        place,
        typ: copy_sized(alloc, typ)?,
    })?;
    Ok(values)
}

/// What a function is called with from an argument on, as values in hand, behind others. It fails where memory is wanting.
fn hold_given(
    alloc: Global,
    from: u32,
    types: &[Sized],
    values: &mut Items<Held>,
) -> Result<(), AllocError>
    ensures { OnOk result (map spec.held_of values.new ≡ map spec.held_of values.old ++ given_held from types.now) }
{
    match types {
        [] => Ok(()),
        [first, rest @ ..] => {
            let typ = copy_sized(alloc, first)?;
            let place = Place::Given(from);
            values.push(Held { place, typ })?;
            let next = further(from, 1)?;
            hold_given(alloc, next, rest, values)
        }
    }
}

/// What a function is called with, as values in hand. It fails where memory is wanting.
fn given_values(alloc: Global, types: &[Sized]) -> Result<Items<Held>, AllocError>
    ensures { IfOk result (λ values. map spec.held_of values ≡ given_held 0 types.now) }
{
    let mut values = Items::new(alloc);
    hold_given(alloc, 0, types, &mut values)?;
    Ok(values)
}

/// Values once more, behind others. It fails where memory is wanting.
fn copy_held(alloc: Global, values: &[Held], copies: &mut Items<Held>) -> Result<(), AllocError>
    ensures { OnOk result (map spec.held_of copies.new ≡ map spec.held_of copies.old ++ map spec.held_of values.now) }
{
    match values {
        [] => Ok(()),
        [first, rest @ ..] => {
            copies.push(first.copy(alloc)?)?;
            copy_held(alloc, rest, copies)
        }
    }
}

/// These values, and behind them others, once more. It fails where memory is wanting.
fn copy_both(alloc: Global, values: &[Held], others: &[Held]) -> Result<Items<Held>, AllocError>
    ensures { IfOk result (λ copies. map spec.held_of copies ≡ map spec.held_of values.now ++ map spec.held_of others.now) }
{
    let mut copies = Items::new(alloc);
    copy_held(alloc, values, &mut copies)?;
    copy_held(alloc, others, &mut copies)?;
    Ok(copies)
}

/// What an arm looks at where these values are matched, and the numbers that its names give. What it has in hand then. It fails where memory is
/// wanting.
fn put_choice<'a>(
    alloc: Global,
    coding: &mut Coding,
    setting: &Setting<'_>,
    giver: Giver,
    steps: &'a [Step],
    stand: &Stand<'_>,
    free: u32,
    values: &[Held],
) -> Result<Hand<'a>, AllocError>
    ensures code { OnOk result (Emits coding.old coding.new
        (λ name. choice_code setting.now.types.now (kit_for setting.now name) (gives_at (nodes_in setting.now) giver) steps.now free
        (stand_of stand.now) (spec.choice_of [] (map spec.held_of values.now))) no_labels) }
    ensures hand { IfOk result (λ hand. spec.hand_of hand ≡
        arm_hand setting.now.types.now (kit_for setting.now (λ place typ. 0)) steps.now free stand.now.on_no (map spec.held_of values.now)) }
{
    let mut begun = Items::new(alloc);
    copy_held(alloc, values, &mut begun)?;
    let mut hand = begin_hand(alloc, begun, free);
    put_steps(
        alloc,
        coding,
        setting,
        steps,
        &mut hand,
        stand.on_throw,
        stand.on_no,
    )?;
    let noted = copy_both(alloc, values, hand.named.as_slice())?;
    let levels = stand.levels;
    let held = noted.as_slice();
    put_arm_notes(alloc, coding, setting, levels, giver, held, hand.free)?;
    Ok(hand)
}

/// So for a value in hand of this type.
fn put_choice_of<'a>(
    alloc: Global,
    coding: &mut Coding,
    setting: &Setting<'_>,
    giver: Giver,
    steps: &'a [Step],
    stand: &Stand<'_>,
    free: u32,
    typ: &Sized,
) -> Result<Hand<'a>, AllocError>
    ensures code { OnOk result (Emits coding.old coding.new
        (λ name. choice_code setting.now.types.now (kit_for setting.now name) (gives_at (nodes_in setting.now) giver) steps.now free
        (stand_of stand.now) (spec.choice_of [] (held_at stand.now.temp typ.now ∷ []))) no_labels) }
    ensures hand { IfOk result (λ hand. spec.hand_of hand ≡ arm_hand setting.now.types.now (kit_for setting.now (λ place typ. 0)) steps.now free
        stand.now.on_no (held_at stand.now.temp typ.now ∷ [])) }
{
    let values = one_held(alloc, Place::Temp(stand.temp), typ)?;
    let held = values.as_slice();
    put_choice(alloc, coding, setting, giver, steps, stand, free, held)
}

/// So for a value in hand of the types of these cases, with tests before all but the last. What it has in hand in the first. It fails where memory
/// is wanting.
fn put_choices<'a>(
    alloc: Global,
    coding: &mut Coding,
    setting: &Setting<'_>,
    giver: Giver,
    steps: &'a [Step],
    stand: &Stand<'_>,
    free: u32,
    end: u32,
    cases: &[Case],
) -> Result<Hand<'a>, AllocError>
    ensures code { OnOk result (ArmsPut picked_of (λ name. kit_at (kit_for setting.now name) (depths_of stand.now.levels.now)) free no_labels
        (λ name. choice_code setting.now.types.now (kit_for setting.now name) (gives_at (nodes_in setting.now) giver) steps.now free (stand_of stand.now))
        end (choices_at stand.now.temp (cases_ends cases.now)) coding.old coding.new) }
    ensures hand { IfOk result (λ hand. spec.hand_of hand ≡ first_hand setting.now.types.now (kit_for setting.now (λ place typ. 0)) steps.now free
        stand.now.on_no (choices_at stand.now.temp (cases_ends cases.now))) }
{
    match cases {
        [] => Ok(begin_hand(alloc, Items::new(alloc), free)),
        [only] => {
            let typ = &only.gives;
            put_choice_of(alloc, coding, setting, giver, steps, stand, free, typ)
        }
        [first, rest @ ..] => {
            let picked = first.picked.as_slice();
            let next = begin_arm(alloc, coding, setting, stand.levels, free, picked)?;
            let typ = &first.gives;
            let hand = put_choice_of(alloc, coding, setting, giver, steps, stand, free, typ)?;
            end_arm(coding, end, next)?;
            put_choices(alloc, coding, setting, giver, steps, stand, free, end, rest)?;
            Ok(hand)
        }
    }
}

/// So for all of them.
fn put_cases<'a>(
    alloc: Global,
    coding: &mut Coding,
    setting: &Setting<'_>,
    giver: Giver,
    steps: &'a [Step],
    stand: &Stand<'_>,
    free: u32,
    cases: &[Case],
) -> Result<Hand<'a>, AllocError>
    ensures code { OnOk result (Emits coding.old coding.new (λ name first.
        by_case picked_of (kit_at (kit_for setting.now name) (depths_of stand.now.levels.now)) free 0
        (choice_code setting.now.types.now (kit_for setting.now name) (gives_at (nodes_in setting.now) giver) steps.now free (stand_of stand.now))
        first (choices_at stand.now.temp (cases_ends cases.now))) (λ name. many 0 (cases_ends cases.now))) }
    ensures hand { IfOk result (λ hand. spec.hand_of hand ≡ first_hand setting.now.types.now (kit_for setting.now (λ place typ. 0)) steps.now free
        stand.now.on_no (choices_at stand.now.temp (cases_ends cases.now))) }
{
    let count = cases.len();
    let end = begin_arms(coding, count)?;
    let hand = put_choices(
        alloc, coding, setting, giver, steps, stand, free, end, cases,
    )?;
    end_arms(coding, count, end)?;
    Ok(hand)
}

/// What an arm looks at, by the numbers that are noted, and the numbers that its names give. What it has in hand then, whose names and places are
/// the same for all types. It fails where memory is wanting.
pub fn put_looks<'a>(
    alloc: Global,
    coding: &mut Coding,
    setting: &Setting<'_>,
    giver: Giver,
    matched: &Matched<'_>,
    steps: &'a [Step],
    stand: &Stand<'_>,
) -> Result<Hand<'a>, AllocError>
    ensures code { OnOk result (Emits coding.old coding.new (λ name first.
        looks_code setting.now.types.now (kit_for setting.now name) (gives_at (nodes_in setting.now) giver) (spec.matched_of matched.now) steps.now
        (stand_of stand.now) first) (λ name. choice_labels (spec.matched_of matched.now))) }
    ensures hand { IfOk result (λ hand. spec.hand_of hand ≡ hand_of setting.now.types.now (kit_for setting.now (λ place typ. 0))
        (spec.matched_of matched.now) steps.now (stand_of stand.now)) }
{
    match matched {
        Matched::InHand(ends) => {
            let free = further(stand.temp, 1)?;
            match ends {
                Ends::Unsaid => Ok(begin_hand(alloc, Items::new(alloc), free)),
                Ends::Cases(cases) => {
                    put_cases(alloc, coding, setting, giver, steps, stand, free, cases)
                }
                Ends::One(typ) => {
                    put_choice_of(alloc, coding, setting, giver, steps, stand, free, typ)
                }
            }
        }
        Matched::Arguments(types) => {
            let values = given_values(alloc, types)?;
            let held = values.as_slice();
            put_choice(
                alloc, coding, setting, giver, steps, stand, stand.temp, held,
            )
        }
    }
}

/// A value of this type in hand goes to where what is thrown stands. It fails where memory is wanting.
fn put_thrown_of(
    coding: &mut Coding,
    setting: &Setting<'_>,
    temp: u32,
    typ: &Sized,
) -> Result<(), AllocError>
    ensures { OnOk result (Emits coding.old coding.new
        (λ name first. thrown_code setting.now.types.now (kit_for setting.now name) (held_at temp typ.now ∷ [])) no_labels) }
{
    let number = setting.number(typ)?;
    coding.put_copy(Place::Raised, setting.exception, Place::Temp(temp), number)
}

/// So for a value in hand of the types of these cases, with tests before all but the last. It fails where memory is wanting.
fn put_thrown_rest(
    alloc: Global,
    coding: &mut Coding,
    setting: &Setting<'_>,
    stand: &Stand<'_>,
    free: u32,
    end: u32,
    cases: &[Case],
) -> Result<(), AllocError>
    ensures { OnOk result (ArmsPut picked_of (λ name. kit_at (kit_for setting.now name) (depths_of stand.now.levels.now)) free no_labels
        (λ name c label. thrown_code setting.now.types.now (kit_for setting.now name) c.values) end
        (choices_at stand.now.temp (cases_ends cases.now)) coding.old coding.new) }
{
    match cases {
        [] => Ok(()),
        [only] => put_thrown_of(coding, setting, stand.temp, &only.gives),
        [first, rest @ ..] => {
            let picked = first.picked.as_slice();
            let next = begin_arm(alloc, coding, setting, stand.levels, free, picked)?;
            put_thrown_of(coding, setting, stand.temp, &first.gives)?;
            end_arm(coding, end, next)?;
            put_thrown_rest(alloc, coding, setting, stand, free, end, rest)
        }
    }
}

/// So for all of them.
fn put_thrown_cases(
    alloc: Global,
    coding: &mut Coding,
    setting: &Setting<'_>,
    stand: &Stand<'_>,
    cases: &[Case],
) -> Result<(), AllocError>
    ensures { OnOk result (Emits coding.old coding.new (λ name first.
        by_case picked_of (kit_at (kit_for setting.now name) (depths_of stand.now.levels.now)) (stand.now.temp + 1) 0
        (λ c label. thrown_code setting.now.types.now (kit_for setting.now name) c.values) first (choices_at stand.now.temp (cases_ends cases.now)))
        (λ name. many 0 (cases_ends cases.now))) }
{
    let free = further(stand.temp, 1)?;
    let count = cases.len();
    let end = begin_arms(coding, count)?;
    put_thrown_rest(alloc, coding, setting, stand, free, end, cases)?;
    end_arms(coding, count, end)
}

/// The first of what a function is called with goes to where what is thrown stands. It fails where memory is wanting.
fn put_thrown_given(
    coding: &mut Coding,
    setting: &Setting<'_>,
    types: &[Sized],
) -> Result<(), AllocError>
    ensures { OnOk result (Emits coding.old coding.new
        (λ name first. thrown_code setting.now.types.now (kit_for setting.now name) (given_held 0 types.now)) no_labels) }
{
    match types {
        [] => Ok(()),
        [first, ..] => {
            let number = setting.number(first)?;
            coding.put_copy(Place::Raised, setting.exception, Place::Given(0), number)
        }
    }
}

/// What is matched goes to where what is thrown stands, by the numbers that are noted. It fails where memory is wanting.
pub fn put_thrown(
    alloc: Global,
    coding: &mut Coding,
    setting: &Setting<'_>,
    matched: &Matched<'_>,
    stand: &Stand<'_>,
) -> Result<(), AllocError>
    ensures { OnOk result (Emits coding.old coding.new (λ name first.
        by_case picked_of (kit_at (kit_for setting.now name) (depths_of stand.now.levels.now)) (stand.now.temp + places_of (spec.matched_of matched.now)) 0
        (λ c label. thrown_code setting.now.types.now (kit_for setting.now name) c.values) first (choices (spec.matched_of matched.now) stand.now.temp))
        (λ name. choice_labels (spec.matched_of matched.now))) }
{
    match matched {
        Matched::InHand(ends) => match ends {
            Ends::Unsaid => Ok(()),
            Ends::Cases(cases) => put_thrown_cases(alloc, coding, setting, stand, cases),
            Ends::One(typ) => put_thrown_of(coding, setting, stand.temp, typ),
        },
        Matched::Arguments(types) => put_thrown_given(coding, setting, types),
    }
}
