//! Clauses of functions, measures and mappings.
ghost use Rattle.std.specs.Prelude.{◌≡◌, ◌==◌, ◌&&◌, IfOk, OnOk, map, min, if◌then◌else◌};
ghost use Rattle.pattern_leaves.specs.Settings.{around_of};
ghost use Rattle.expression_notes.specs.Scopes.{scope_of};
ghost use Rattle.expression_notes.specs.Patterns.{look, nested};
ghost use Rattle.value_indices.specs.Steps.{give, wrong};
ghost use Rattle.value_indices.specs.Walking as walk;
ghost use Rattle.expression_notes.specs.Parts as parts;
ghost use Rattle.function_notes.specs.Functions as spec;

use crate::bare::{bare_arm, behind_result, behind_type};
use call_arguments::Aim;
use call_notes::names_given;
use expression_notes::{Matching, Scope, cast_given, match_arm, naming_of, walk_expression};
use pattern_leaves::{Around, Bound, owe_exponents};
use sail_base::{Items, Place};
use sail_core::{Arm, Core, Giver, Kind, Pattern, WrittenNumber};
use sail_types::{Index, Typ};
use std::alloc::{AllocError, Global};
use type_arguments::{copy_indices, copy_typ};
use value_indices::{Indices, Naming, Reading, Walking, open_reading};

/// What the clauses of a definition have in common.
#[derive(Clone, Copy)]
pub struct Common<'a> {
    /// Where the definition's clauses stand.
    pub place: Place,
    /// The number of their node.
    pub number: u32,
    /// The types of their parameters.
    pub types: &'a [Typ],
    /// What is wanted of their bodies.
    pub aim: &'a Aim,
    /// Whether a `val` declares them.
    pub is_declared: bool,
}

/// The patterns of an arm; of a flat one none.
fn patterns_of(arm: &Arm) -> &[Pattern]
    ensures { result.now ≡ nested arm.now }
{
    match arm {
        Arm::Nested(patterns) => patterns.as_slice(),
        Arm::Flat(_, _) => &[],
    }
}

/// The identifiers for which the first of these patterns is opened. It fails where memory is wanting.
fn first_naming(alloc: Global, patterns: &[Pattern]) -> Result<Naming, AllocError>
    ensures { IfOk result (λ made. made ≡ spec.parameter_naming (map look patterns.now)) }
{
    match patterns {
        [] => Ok(Naming::Unnamed),
        [pattern, ..] => naming_of(alloc, pattern),
    }
}

/// The patterns behind the first.
fn others(patterns: &[Pattern]) -> &[Pattern]
    ensures { map look result.now ≡ spec.other_looks (map look patterns.now) }
{
    match patterns {
        [] => patterns,
        [_, rest @ ..] => rest,
    }
}

/// A parameter of a type, opened for the first of these patterns. It fails where memory is wanting, and where variables are too many.
#[tactic(auto, using(value_indices::proofs::Walks::walks))]
fn open_parameter(
    alloc: Global,
    walking: &mut Walking,
    numbers: &[Index],
    patterns: &[Pattern],
    typ: &Typ,
) -> Result<Indices, AllocError>
    ensures value { IfOk result (λ made. made ≡ walk.got (spec.parameter_opened (map look patterns.now) numbers.now typ.now)
        (walk.seen walking.old)) }
    ensures walked { OnOk result (walk.seen walking.new ≡ walk.run (spec.parameter_opened (map look patterns.now) numbers.now typ.now)
        (walk.seen walking.old)) }
{
    let naming = first_naming(alloc, patterns)?;
    let typ = copy_typ(alloc, typ)?;
    let reading = Reading::Of(typ, copy_indices(alloc, numbers)?, Items::new(alloc));
    open_reading(alloc, walking, &reading, true, &naming)
}

/// Parameters of these types, each opened for its pattern. It fails where memory is wanting, and where variables are too many.
#[tactic(auto, using(value_indices::proofs::Walks::walks))]
fn open_parameters(
    alloc: Global,
    walking: &mut Walking,
    numbers: &[Index],
    patterns: &[Pattern],
    types: &[Typ],
) -> Result<Items<Indices>, AllocError>
    ensures value { IfOk result (λ made. made ≡ walk.got (spec.parameters_opened (map look patterns.now) numbers.now types.now)
        (walk.seen walking.old)) }
    ensures walked { OnOk result (walk.seen walking.new ≡ walk.run (spec.parameters_opened (map look patterns.now) numbers.now types.now)
        (walk.seen walking.old)) }
{
    let mut made = Items::new(alloc);
    let mut left = patterns;
    for typ in types {
        made.push(open_parameter(alloc, walking, numbers, left, typ)?)?;
        left = others(left);
    }
    Ok(made)
}

/// A body without the type that is written before it: what stands behind that is wanted so, and is noted as what it is. It fails where memory
/// is wanting, and where variables are too many.
#[tactic(auto, using(value_indices::proofs::Walks::walks))]
fn walk_behind(
    alloc: Global,
    walking: &mut Walking,
    around: &Around<'_>,
    scope: &Scope<'_>,
    aim: &Aim,
    body: &Core,
) -> Result<Indices, AllocError>
    ensures value { IfOk result (λ made. made ≡ walk.got (parts.Part.walk (spec.bare_part body.now) (around_of around.now)
        (scope_of scope.now) aim.now) (walk.seen walking.old)) }
    ensures walked { OnOk result (walk.seen walking.new ≡ walk.run (parts.Part.walk (spec.bare_part body.now) (around_of around.now)
        (scope_of scope.now) aim.now) (walk.seen walking.old)) }
{
    match behind_type(body) {
        Some(core) => {
            let value = walk_expression(alloc, walking, around, scope, core, aim)?;
            cast_given(alloc, walking, body.number, &Aim::Free, value)
        }
        None => walk_expression(alloc, walking, around, scope, body, aim),
    }
}

/// A body, where these names are in scope: of a clause that no `val` declares without the type that is written before it. It fails where
/// memory is wanting, and where variables are too many.
#[tactic(auto, using(value_indices::proofs::Walks::walks))]
fn walk_body(
    alloc: Global,
    walking: &mut Walking,
    around: &Around<'_>,
    common: &Common<'_>,
    found: &[Bound],
    body: &Core,
) -> Result<Indices, AllocError>
    ensures value { IfOk result (λ made. made ≡ walk.got (parts.Part.walk (spec.body_part common.now.is_declared body.now)
        (around_of around.now) found.now common.now.aim.now) (walk.seen walking.old)) }
    ensures walked { OnOk result (walk.seen walking.new ≡ walk.run (parts.Part.walk (spec.body_part common.now.is_declared body.now)
        (around_of around.now) found.now common.now.aim.now) (walk.seen walking.old)) }
{
    let outer = Scope::empty();
    let scope = outer.with(found);
    if common.is_declared {
        return walk_expression(alloc, walking, around, &scope, body, common.aim);
    }
    match behind_result(body) {
        Some(inside) => {
            let value = walk_behind(alloc, walking, around, &scope, common.aim, inside)?;
            cast_given(alloc, walking, body.number, common.aim, value)
        }
        None => walk_expression(alloc, walking, around, &scope, body, common.aim),
    }
}

/// A clause of this arm, whose parameters and names give numbers, over a body. It fails where memory is wanting, and where variables are too many.
pub fn walk_clause(
    alloc: Global,
    walking: &mut Walking,
    around: &Around<'_>,
    common: &Common<'_>,
    giver: Giver,
    once: &[WrittenNumber],
    arm: &Arm,
    body: &Core,
) -> Result<Indices, AllocError>
    ensures value { IfOk result (λ made. made ≡ walk.got (spec.clause_walk common.now.place giver (around_of around.now)
        common.now.types.now once.now common.now.aim.now arm.now (spec.body_part common.now.is_declared body.now)) (walk.seen walking.old)) }
    ensures walked { OnOk result (walk.seen walking.new ≡ walk.run (spec.clause_walk common.now.place giver (around_of around.now)
        common.now.types.now once.now common.now.aim.now arm.now (spec.body_part common.now.is_declared body.now)) (walk.seen walking.old)) }
{
    walking.remember()?;
    let values = open_parameters(
        alloc,
        walking,
        around.numbers,
        patterns_of(arm),
        common.types,
    )?;
    owe_exponents(alloc, around, once, walking)?;
    let how = Matching {
        in_case: false,
        is_owed: false,
    };
    let given = values.as_slice();
    let matched = match_arm(alloc, common.place, arm, around, how, given, walking)?;
    let found = names_given(alloc, walking, giver, given, matched)?;
    let value = walk_body(alloc, walking, around, common, found.as_slice(), body)?;
    walking.restore()?;
    Ok(value)
}

/// A clause of an arm as it is written: what no `val` declares is walked without the types that are written at it. It fails where memory
/// is wanting, and where variables are too many.
pub fn walk_written(
    alloc: Global,
    walking: &mut Walking,
    around: &Around<'_>,
    common: &Common<'_>,
    giver: Giver,
    once: &[WrittenNumber],
    arm: &Arm,
    body: &Core,
) -> Result<Indices, AllocError>
    ensures value { IfOk result (λ made. made ≡ walk.got (spec.written_walk common.now.place giver (around_of around.now)
        common.now.types.now once.now common.now.aim.now common.now.is_declared arm.now body.now) (walk.seen walking.old)) }
    ensures walked { OnOk result (walk.seen walking.new ≡ walk.run (spec.written_walk common.now.place giver (around_of around.now)
        common.now.types.now once.now common.now.aim.now common.now.is_declared arm.now body.now) (walk.seen walking.old)) }
{
    if common.is_declared {
        return walk_clause(alloc, walking, around, common, giver, once, arm, body);
    }
    match bare_arm(alloc, arm)? {
        None => walk_clause(alloc, walking, around, common, giver, once, arm, body),
        Some(bare) => walk_clause(alloc, walking, around, common, giver, once, &bare, body),
    }
}

/// What is owed once, at the first clause; at others nothing.
fn due_at(at: usize, once: &[WrittenNumber]) -> &[WrittenNumber]
    ensures { result.now ≡ spec.due_at at once.now }
{
    if at == 0 {
        return once;
    }
    &[]
}

/// The lesser one of two counts.
pub fn lesser(first: usize, second: usize) -> usize
    ensures { result ≡ min first second }
{
    if first < second { first } else { second }
}

/// Nothing where all clauses were walked; else what is false is owed. The one error is want of memory.
#[tactic(auto, using(value_indices::proofs::Walks::walks))]
pub fn end_clauses(
    alloc: Global,
    walking: &mut Walking,
    place: Place,
    all: bool,
) -> Result<(), AllocError>
    ensures { OnOk result (walk.seen walking.new ≡ walk.run (if all then give tt else wrong place) (walk.seen walking.old)) }
{
    if all {
        Ok(())
    } else {
        walking.wrong(alloc, place)
    }
}

/// Whether both counts are this one.
fn are_both(first: usize, second: usize, count: usize) -> bool
    ensures { result ≡ (first == count) && (second == count) }
{
    first == count && second == count
}

/// Clauses of these arms, over as many bodies. The one error is want of memory, also of numbers for variables.
fn walk_arms(
    alloc: Global,
    walking: &mut Walking,
    around: &Around<'_>,
    common: &Common<'_>,
    once: &[WrittenNumber],
    arms: &[Arm],
    bodies: &[Core],
) -> Result<(), AllocError>
    ensures { OnOk result (walk.seen walking.new ≡ walk.run (spec.clauses_walk common.now.place common.now.number
        (around_of around.now) common.now.types.now once.now common.now.aim.now common.now.is_declared arms.now bodies.now) (walk.seen walking.old)) }
{
    let count = lesser(arms.len(), bodies.len());
    for at in 0..count {
        let arm = &arms[at];
        let body = &bodies[at];
        let due = due_at(at, once);
        let giver = Giver::Arm(common.number, arms.len() - at - 1);
        walk_written(alloc, walking, around, common, giver, due, arm, body)?;
    }
    let all = are_both(arms.len(), bodies.len(), count);
    end_clauses(alloc, walking, common.place, all)
}

/// The clauses of a function or a measure. The one error is want of memory, also of numbers for variables.
pub fn walk_clauses(
    alloc: Global,
    walking: &mut Walking,
    around: &Around<'_>,
    types: &[Typ],
    once: &[WrittenNumber],
    aim: &Aim,
    is_declared: bool,
    core: &Core,
) -> Result<(), AllocError>
    ensures { OnOk result (walk.seen walking.new ≡ walk.run (spec.clauses_of (around_of around.now) types.now once.now aim.now is_declared
        core.now) (walk.seen walking.old)) }
{
    let common = Common {
        place: core.place,
        number: core.number,
        types,
        aim,
        is_declared,
    };
    match &core.kind {
        Kind::Clauses(arms) => walk_arms(
            alloc,
            walking,
            around,
            &common,
            once,
            arms.as_slice(),
            core.parts.as_slice(),
        ),
        _ => walking.wrong(alloc, core.place),
    }
}
