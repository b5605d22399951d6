//! Ways that meet others: what each makes known, and what is owed and made where they meet.
ghost use Rattle.std.specs.Prelude.{◌≡◌, ◌∷◌, [], ◌++◌, None, is_none, length, take, IfOk, OnOk};
ghost use Rattle.std.specs.Option.{option_copied};
ghost use Rattle.value_indices.specs.Walking as walk;
ghost use Rattle.value_indices.specs.declared.indices.Indices.TheVariants as I;
ghost use Rattle.pattern_leaves.specs.Settings as settings;
ghost use Rattle.pattern_leaves.specs.Settings.{around_of};
ghost use Rattle.call_arguments.specs.Aims.{branch_aim, wanted as wanted_by};
ghost use Rattle.call_arguments.specs.declared.aims.Aim as aims;
ghost use Rattle.call_notes.specs.Ends as ends;
ghost use Rattle.call_notes.specs.Noted as noted;
ghost use Rattle.expression_steps.specs.Coded as coded;
ghost use Rattle.expression_steps.specs.Expressions.{part};
ghost use Rattle.expression_steps.specs.Parts.{Part};
ghost use Rattle.expression_steps.specs.Statements as statement_spec;

use crate::knowing::{never_ends, place_of};
use call_notes::{Aim, made_opened, names_given, node_ended, node_given, settled, wrong_value};
use expression_forms::{first_way, like_first, met_ways};
use pattern_leaves::{Around, Bound};
use pattern_notes::{Matching, match_arm};
use sail_base::{Items, Place};
use sail_core::{Arm, Core, Giver};
use sail_types::{Con, Shape, copy_con};
use std::alloc::{AllocError, Global};
use value_indices::{Indices, Reading, Walking};

/// A way that meets others.
#[derive(Clone, Copy)]
pub enum Way<'a> {
    /// This part, under a condition.
    Under(&'a Con, &'a Core),
    /// A case at a place: this part, where the arm matches the value and gives the numbers of its names.
    Case(Giver, Place, &'a Arm, &'a Core, &'a Indices),
    /// This part.
    Whole(&'a Core),
}

impl Way<'_> {
    /// The part whose value it gives.
    pub fn core(&self) -> &Core
        ensures { result.now ≡ coded.way_core self.now }
    {
        match self {
            Way::Under(_, core) => core,
            Way::Case(_, _, _, core, _) => core,
            Way::Whole(core) => core,
        }
    }
}

/// The cases of the node of a number at a place over a value, behind other ways. They fail where memory is wanting.
fn case_ways<'a>(
    place: Place,
    number: u32,
    arms: &'a [Arm],
    bodies: &'a [Core],
    value: &'a Indices,
    ways: &mut Items<Way<'a>>,
) -> Result<(), AllocError>
    ensures ways { OnOk result ((around : settings.Around) (scope : settings.Scope) (aim : aims.Aim)
        → coded.ways_seen around scope aim ways.new ≡ coded.ways_seen around scope aim ways.old
        ++ statement_spec.case_ways place number arms.now (coded.each_part bodies.now) around scope aim value.now) }
    ensures cores { OnOk result (coded.way_cores ways.new ≡ coded.way_cores ways.old ++ take (length arms.now) bodies.now) }
{
    for index in 0..arms.len().min(bodies.len()) {
        let giver = Giver::Arm(number, arms.len() - index - 1);
        ways.push(Way::Case(giver, place, &arms[index], &bodies[index], value))?;
    }
    Ok(())
}

/// The cases of the node of a number at a place over a value. They fail where memory is wanting.
pub fn match_ways<'a>(
    alloc: Global,
    place: Place,
    number: u32,
    arms: &'a [Arm],
    bodies: &'a [Core],
    value: &'a Indices,
) -> Result<Items<Way<'a>>, AllocError>
    ensures ways { IfOk result (λ made. (around : settings.Around) (scope : settings.Scope) (aim : aims.Aim)
        → coded.ways_seen around scope aim made ≡ statement_spec.case_ways place number arms.now (coded.each_part bodies.now) around scope aim value.now) }
    ensures cores { IfOk result (λ made. coded.way_cores made ≡ take (length arms.now) bodies.now) }
{
    let mut ways = Items::new(alloc);
    case_ways(place, number, arms, bodies, value, &mut ways)?;
    Ok(ways)
}

/// A first way, and the cases of the node of a number at a place over a value. They fail where memory is wanting.
pub fn try_ways<'a>(
    alloc: Global,
    place: Place,
    number: u32,
    arms: &'a [Arm],
    core: &'a Core,
    bodies: &'a [Core],
    value: &'a Indices,
) -> Result<Items<Way<'a>>, AllocError>
    ensures ways { IfOk result (λ made. (around : settings.Around) (scope : settings.Scope) (aim : aims.Aim)
        → coded.ways_seen around scope aim made ≡ statement_spec.try_way (part core.now) around scope aim
        ∷ statement_spec.case_ways place number arms.now (coded.each_part bodies.now) around scope aim value.now) }
    ensures cores { IfOk result (λ made. coded.way_cores made ≡ core.now ∷ take (length arms.now) bodies.now) }
{
    let mut ways = Items::new(alloc);
    ways.push(Way::Whole(core))?;
    case_ways(place, number, arms, bodies, value, &mut ways)?;
    Ok(ways)
}

/// Two ways: these parts, under a condition each.
pub fn either_ways<'a>(
    given: &'a Con,
    other: &'a Con,
    then: &'a Core,
    otherwise: &'a Core,
) -> [Way<'a>; 2]
    ensures ways { (around : settings.Around) (scope : settings.Scope) (aim : aims.Aim)
        → coded.ways_seen around scope aim result ≡ statement_spec.two_ways (part then.now) (part otherwise.now) around scope aim given.now other.now }
    ensures cores { coded.way_cores result ≡ then.now ∷ otherwise.now ∷ [] }
{
    [Way::Under(given, then), Way::Under(other, otherwise)]
}

/// What a way makes known, and the names that it binds. It fails where memory is wanting, and where variables are too many.
#[tactic(auto, using(value_indices::proofs::Walks::walks))]
pub fn open_way(
    alloc: Global,
    walking: &mut Walking,
    around: &Around<'_>,
    way: &Way<'_>,
) -> Result<Items<Bound>, AllocError>
    ensures value { IfOk result (λ made. made ≡ walk.got (coded.way_opened (around_of around.now) way.now) (walk.seen walking.old)) }
    ensures walked { OnOk result (walk.seen walking.new ≡ walk.run (coded.way_opened (around_of around.now) way.now) (walk.seen walking.old)) }
{
    match way {
        Way::Under(condition, _) => {
            walking.assume(copy_con(alloc, condition)?)?;
            Ok(Items::new(alloc))
        }
        Way::Case(giver, place, arm, _, value) => {
            let how = Matching {
                in_case: true,
                is_owed: false,
            };
            let values = std::slice::from_ref(*value);
            let found = match_arm(alloc, *place, arm, around, how, values, walking)?;
            names_given(alloc, walking, *giver, values, found)
        }
        Way::Whole(_) => Ok(Items::new(alloc)),
    }
}

/// The first way that ends normally, where no type is wanted, with a way of this shape behind it. It fails where memory is wanting, and where
/// variables are too many.
fn first_behind(
    alloc: Global,
    around: &Around<'_>,
    is_free: bool,
    before: u32,
    shape: &Shape,
    never_ends: bool,
    first: Option<Indices>,
    value: Indices,
) -> Result<Option<Indices>, AllocError>
    ensures { IfOk result (λ made. made ≡ statement_spec.first_behind (around_of around.now) is_free before shape.now never_ends first value) }
{
    if is_free {
        match first {
            None => first_way(alloc, around, before, shape, never_ends, value),
            Some(first) => Ok(Some(first)),
        }
    } else {
        Ok(first)
    }
}

/// Owes what a way has to be like the first, where no type is wanted. It fails where memory is wanting, and where variables are too many.
#[tactic(auto, using(value_indices::proofs::Walks::walks))]
fn owe_first(
    alloc: Global,
    walking: &mut Walking,
    around: &Around<'_>,
    core: &Core,
    is_free: bool,
    before: u32,
    first: Option<&Indices>,
    value: &Indices,
) -> Result<(), AllocError>
    ensures { OnOk result (walk.seen walking.new ≡ walk.run (statement_spec.owed_of_first (around_of around.now) is_free (Part.place
        (part core.now)) (Part.never_ends (part core.now)) before (option_copied first.entry) value.now) (walk.seen walking.old)) }
{
    if is_free {
        match first {
            None => Ok(()),
            Some(first) => like_first(
                alloc,
                walking,
                around,
                place_of(core),
                never_ends(core),
                before,
                first,
                value,
            ),
        }
    } else {
        Ok(())
    }
}

/// The end of a way of this shape that gave a value: what is owed of the first one, and that one. What was remembered before the way is in
/// force again. It fails where memory is wanting, and where variables are too many.
pub fn end_way(
    alloc: Global,
    walking: &mut Walking,
    around: &Around<'_>,
    core: &Core,
    is_free: bool,
    before: u32,
    shape: &Shape,
    first: Option<Indices>,
    value: Indices,
) -> Result<Option<Indices>, AllocError>
    ensures value { IfOk result (λ made. made ≡ walk.got (coded.end_walk (around_of around.now) is_free before shape.now core.now first value)
        (walk.seen walking.old)) }
    ensures walked { OnOk result (walk.seen walking.new ≡ walk.restored (walk.run (coded.end_walk (around_of around.now) is_free before shape.now
        core.now first value) (walk.seen walking.old))) }
{
    owe_first(
        alloc,
        walking,
        around,
        core,
        is_free,
        before,
        first.as_ref(),
        &value,
    )?;
    let ends = never_ends(core);
    let made = first_behind(alloc, around, is_free, before, shape, ends, first, value)?;
    walking.restore()?;
    Ok(made)
}

/// Whether no type is wanted.
pub fn is_free(aim: &Aim) -> bool
    ensures { result ≡ is_none (wanted_by aim.now) }
{
    match aim.wanted() {
        None => true,
        Some(_) => false,
    }
}

/// The value where ways of this shape meet of which no type is wanted, by the first that ends normally; the node of a number makes it of
/// `()`. It fails where memory is wanting, and where variables are too many.
#[tactic(auto, using(value_indices::proofs::Walks::walks))]
fn made_freely(
    alloc: Global,
    walking: &mut Walking,
    around: &Around<'_>,
    place: Place,
    number: u32,
    shape: &Shape,
    before: u32,
    first: Option<&Indices>,
) -> Result<Indices, AllocError>
    ensures value { IfOk result (λ made. made ≡ walk.got (statement_spec.met_made (around_of around.now) place number shape.now None before
        (option_copied first.entry)) (walk.seen walking.old)) }
    ensures walked { OnOk result (walk.seen walking.new ≡ walk.run (statement_spec.met_made (around_of around.now) place number shape.now None
        before (option_copied first.entry)) (walk.seen walking.old)) }
{
    let nothing = Indices::Unit;
    let value = met_ways(alloc, walking, around, place, before, shape, first)?;
    node_ended(
        alloc,
        walking,
        number,
        std::slice::from_ref(&nothing),
        value,
    )
}

/// The value where ways meet of which this type is wanted, opened; the node of a number makes it of `()`. It fails where memory is wanting,
/// and where variables are too many.
#[tactic(auto, using(value_indices::proofs::Walks::walks))]
fn made_wanted(
    alloc: Global,
    walking: &mut Walking,
    place: Place,
    number: u32,
    wanted: &Reading,
) -> Result<Indices, AllocError>
    ensures value { IfOk result (λ made. made ≡ walk.got (noted.made_opened place number (I.Unit ∷ []) wanted.now) (walk.seen walking.old)) }
    ensures walked { OnOk result (walk.seen walking.new ≡ walk.run (noted.made_opened place number (I.Unit ∷ []) wanted.now)
        (walk.seen walking.old)) }
{
    let nothing = Indices::Unit;
    made_opened(
        alloc,
        walking,
        place,
        number,
        std::slice::from_ref(&nothing),
        wanted,
    )
}

/// The value where ways of this shape meet, of which this is wanted, by the first that ends normally, as the node of a number makes it. It
/// fails where memory is wanting, and where variables are too many.
fn met_made(
    alloc: Global,
    walking: &mut Walking,
    around: &Around<'_>,
    place: Place,
    number: u32,
    shape: &Shape,
    aim: &Aim,
    before: u32,
    first: Option<&Indices>,
) -> Result<Indices, AllocError>
    ensures value { IfOk result (λ made. made ≡ walk.got (statement_spec.met_made (around_of around.now) place number shape.now (wanted_by aim.now)
        before (option_copied first.entry)) (walk.seen walking.old)) }
    ensures walked { OnOk result (walk.seen walking.new ≡ walk.run (statement_spec.met_made (around_of around.now) place number shape.now
        (wanted_by aim.now) before (option_copied first.entry)) (walk.seen walking.old)) }
{
    match aim.wanted() {
        None => made_freely(alloc, walking, around, place, number, shape, before, first),
        Some(wanted) => made_wanted(alloc, walking, place, number, wanted),
    }
}

/// The same, with the numbers of the value that the node gives, noted from here on. It fails where memory is wanting, and where variables
/// are too many.
#[tactic(auto, using(value_indices::proofs::Walks::walks))]
pub fn met_value(
    alloc: Global,
    walking: &mut Walking,
    around: &Around<'_>,
    place: Place,
    number: u32,
    shape: &Shape,
    aim: &Aim,
    before: u32,
    first: Option<&Indices>,
) -> Result<Indices, AllocError>
    ensures value { IfOk result (λ made. made ≡ walk.got (statement_spec.met_value (around_of around.now) place number shape.now
        (wanted_by aim.now) before (option_copied first.entry)) (walk.seen walking.old)) }
    ensures walked { OnOk result (walk.seen walking.new ≡ walk.run (statement_spec.met_value (around_of around.now) place number shape.now
        (wanted_by aim.now) before (option_copied first.entry)) (walk.seen walking.old)) }
{
    let value = met_made(
        alloc, walking, around, place, number, shape, aim, before, first,
    )?;
    node_given(alloc, walking, number, value)
}

/// A value that was met with its condition; none where there is no condition.
fn value_met(met: Option<(Con, Indices)>) -> Indices
    ensures { result ≡ statement_spec.value_met met }
{
    match met {
        None => Indices::Never,
        Some((_, value)) => value,
    }
}

/// The `()` of an `if` without `else`, of which a type may be wanted there. It fails where memory is wanting, and where variables are too
/// many.
#[tactic(auto, using(value_indices::proofs::Walks::walks))]
fn end_when(
    alloc: Global,
    walking: &mut Walking,
    around: &Around<'_>,
    place: Place,
    aim: &Aim,
    value: Indices,
) -> Result<Indices, AllocError>
    ensures value { IfOk result (λ made. made ≡ walk.got (ends.settled (around_of around.now) place (branch_aim aim.now) value) (walk.seen walking.old)) }
    ensures walked { OnOk result (walk.seen walking.new ≡ walk.run (ends.settled (around_of around.now) place (branch_aim aim.now) value)
        (walk.seen walking.old)) }
{
    let aim = aim.branch(alloc)?;
    settled(alloc, walking, around, place, &aim, value)
}

/// That the body of an `if` without `else` is `()`: where it is neither that nor never ends normally it owes what is false. It fails where
/// memory is wanting.
#[tactic(auto, using(value_indices::proofs::Walks::walks))]
pub fn unit_of(
    alloc: Global,
    walking: &mut Walking,
    body: &Core,
    value: &Indices,
) -> Result<Indices, AllocError>
    ensures value { IfOk result (λ made. made ≡ walk.got (statement_spec.unit_of (Part.place (part body.now)) value.now) (walk.seen walking.old)) }
    ensures walked { OnOk result (walk.seen walking.new ≡ walk.run (statement_spec.unit_of (Part.place (part body.now)) value.now)
        (walk.seen walking.old)) }
{
    match value {
        Indices::Unit => Ok(Indices::Unit),
        Indices::Never => Ok(Indices::Unit),
        _ => wrong_value(alloc, walking, place_of(body)),
    }
}

/// The value of an `if` whose condition and value these are; of another number of parts than two or three it owes what is false. It fails
/// where memory is wanting, and where variables are too many.
#[tactic(auto, using(value_indices::proofs::Walks::walks))]
pub fn if_end(
    alloc: Global,
    walking: &mut Walking,
    around: &Around<'_>,
    place: Place,
    parts: &[Core],
    aim: &Aim,
    met: Option<(Con, Indices)>,
) -> Result<Indices, AllocError>
    ensures value { IfOk result (λ made. made ≡ walk.got (statement_spec.if_end place (coded.each_part parts.now) (around_of around.now) aim.now met)
        (walk.seen walking.old)) }
    ensures walked { OnOk result (walk.seen walking.new ≡ walk.run (statement_spec.if_end place (coded.each_part parts.now) (around_of around.now)
        aim.now met) (walk.seen walking.old)) }
{
    match parts {
        [_, _] => end_when(alloc, walking, around, place, aim, value_met(met)),
        [_, _, _] => Ok(value_met(met)),
        _ => wrong_value(alloc, walking, place),
    }
}
