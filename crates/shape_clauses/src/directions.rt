//! Clauses of mappings, in one direction.
ghost use Rattle.std.specs.Prelude.{◌≡◌, ◌∷◌, ◌++◌, [], Some, IfOk, OnOk, option_map};
ghost use Rattle.sail_types.specs.Shapes.{shape};
ghost use Rattle.sail_core.specs.declared.patterns.Arm.TheVariants as A;
ghost use Rattle.shape_rules.specs.Around.{setting_of};
ghost use Rattle.shape_rules.specs.Findings.{first_failure, cast as cast_of};
ghost use Rattle.shape_rules.specs.Patterns.{look as look_of};
ghost use Rattle.shape_rules.specs.Scopes.{under};
ghost use Rattle.shape_rules.specs.Statements.{guarded_core, guard_faults};
ghost use Rattle.shape_rules.specs.Sides.{read_side, gives as gives_of, width_given};
ghost use Rattle.shape_clauses.specs.Clauses.{clauses_arms, clauses_bodies, clauses_faults};
ghost use Rattle.shape_clauses.specs.Mappings.{guard_part, direction_clause};
ghost use Rattle.shape_clauses.specs.Mappings.{forwards_clauses as forwards_of, backwards_clauses as backwards_of};
ghost use Rattle.shape_clauses.specs.Parts.{guard_cores, guarded_at};

use crate::clauses::{Clause, Clauses, cast_made, locals_under};
use sail_base::{Boxed, Items, Place};
use sail_core::{Arm, Core, Kind, Pattern};
use sail_syntax::{Exp, MappingClause, Pat, Side};
use sail_types::{Shape, Typ, shape_of};
use shape_calls::over;
use shape_expressions::{elaborate, place_of};
use shape_patterns::look;
use shape_rules::{Around, First, Local, Locals, Mapping};
use shape_sides::{elaborate_side, place_of_side};
use shape_widths::gives;
use std::alloc::{AllocError, Global};

/// An arm of one pattern. The one error is want of memory.
pub fn nested(alloc: Global, pattern: Pattern) -> Result<Arm, AllocError>
    ensures { IfOk result (λ arm. arm ≡ A.Nested (pattern ∷ [])) }
{
    let mut patterns = Items::new(alloc);
    patterns.push(pattern)?;
    Ok(Arm::Nested(patterns))
}

/// The guard of a side, where it has one, behind other cores, and its place.
fn read_guard(
    alloc: Global,
    around: &Around<'_>,
    guard: &Option<Boxed<Exp>>,
    locals: &mut Locals,
    cores: &mut Items<Core>,
    first: &mut First,
) -> Result<Option<Place>, AllocError>
    ensures place { IfOk result (λ place. place ≡ option_map (λ g. g.place) (guard_part guard.now)) }
    ensures cores { OnOk result (cores.new ≡ cores.old ++ guard_cores (guard_part guard.now) (setting_of around.now) locals.old) }
    ensures failures { OnOk result (first.new.error ≡ first_failure first.old.error
        (guard_faults (guard_part guard.now) (setting_of around.now) locals.old)) }
    ensures locals { OnOk result (locals.new ≡ locals.old) }
{
    match guard {
        None => Ok(None),
        Some(guard) => {
            let guard = guard.get();
            let made = elaborate(alloc, guard, around, locals, &Shape::Bool, first)?;
            made.into_shape(cores)?;
            Ok(Some(place_of(guard)))
        }
    }
}

/// What a guard that stands here guards, behind it.
fn guarded(place: Option<Place>, core: Core, mut cores: Items<Core>) -> Result<Core, AllocError>
    ensures { IfOk result (λ made. made ≡ guarded_at place cores core) }
{
    match place {
        None => Ok(core),
        Some(place) => {
            cores.push(core)?;
            Ok(over(place, Kind::When, cores))
        }
    }
}

/// What a side gives, a value of this type, where its value comes to that.
fn read_given(
    alloc: Global,
    around: &Around<'_>,
    side: &Pat,
    typ: &Typ,
    locals: &Locals,
    first: &mut First,
) -> Result<Core, AllocError>
    ensures core { IfOk result (λ core. core ≡ cast_of
        ((read_side side.now).elaborate (setting_of around.now) locals.now (shape typ.now)).core (read_side side.now).place) }
    ensures failures { OnOk result (first.new.error ≡ first_failure first.old.error
        ((read_side side.now).elaborate (setting_of around.now) locals.now (shape typ.now)).faults) }
{
    let want = shape_of(alloc, typ)?;
    let made = elaborate_side(alloc, side, around, locals, &want, first)?;
    cast_made(alloc, made, place_of_side(side))
}

/// What a side gives, behind the guard of the other side, where it has one: these names are in scope.
#[tactic(auto, using(shape_rules::proofs::Firsts::first_failure_append))]
fn read_behind(
    alloc: Global,
    around: &Around<'_>,
    guard: &Option<Boxed<Exp>>,
    side: &Pat,
    typ: &Typ,
    binds: Items<Local>,
    first: &mut First,
) -> Result<Core, AllocError>
    ensures core { IfOk result (λ core. core ≡ guarded_core (guard_part guard.now) (setting_of around.now) (under binds []) (cast_of
        ((read_side side.now).elaborate (setting_of around.now) (under binds []) (shape typ.now)).core (read_side side.now).place)) }
    ensures failures { OnOk result (first.new.error ≡ first_failure first.old.error
        (guard_faults (guard_part guard.now) (setting_of around.now) (under binds [])
        ++ ((read_side side.now).elaborate (setting_of around.now) (under binds []) (shape typ.now)).faults)) }
{
    let mut locals = locals_under(alloc, binds)?;
    let mut cores = Items::new(alloc);
    let place = read_guard(alloc, around, guard, &mut locals, &mut cores, first)?;
    let core = read_given(alloc, around, side, typ, &locals, first)?;
    guarded(place, core, cores)
}

/// How a side is matched with values of a type, where bare names have the widths of their places on the other side. What it binds goes
/// behind other names.
fn read_matched(
    alloc: Global,
    around: &Around<'_>,
    from: &Pat,
    from_typ: &Typ,
    to: &Pat,
    to_typ: &Typ,
    binds: &mut Items<Local>,
    first: &mut First,
) -> Result<Pattern, AllocError>
    ensures pattern { IfOk result (λ made. made ≡ (look_of from.now (setting_of around.now)
        (width_given (gives_of to.now (setting_of around.now) (Some to_typ.now))) (shape from_typ.now)).pattern) }
    ensures binds { OnOk result (binds.new ≡ binds.old ++ (look_of from.now (setting_of around.now)
        (width_given (gives_of to.now (setting_of around.now) (Some to_typ.now))) (shape from_typ.now)).binds) }
    ensures failures { OnOk result (first.new.error ≡ first_failure first.old.error (look_of from.now (setting_of around.now)
        (width_given (gives_of to.now (setting_of around.now) (Some to_typ.now))) (shape from_typ.now)).faults) }
{
    let mut widths = Items::new(alloc);
    gives(alloc, to, around, Some(to_typ), &mut widths)?;
    let subject = shape_of(alloc, from_typ)?;
    look(
        alloc,
        from,
        around,
        widths.as_slice(),
        &subject,
        binds,
        first,
    )
}

/// A clause of a mapping in one direction, and notes its failures: no function stands around its guard and what it gives.
#[tactic(auto, using(shape_rules::proofs::Firsts::first_failure_append))]
fn direction(
    alloc: Global,
    around: &Around<'_>,
    from: &Side,
    from_typ: &Typ,
    to: &Side,
    to_typ: &Typ,
    first: &mut First,
) -> Result<Clause, AllocError>
    ensures arm { IfOk result (λ made. made.arm
        ≡ (direction_clause (setting_of around.now) from.now from_typ.now to.now to_typ.now).arm) }
    ensures body { IfOk result (λ made. made.body
        ≡ (direction_clause (setting_of around.now) from.now from_typ.now to.now to_typ.now).body) }
    ensures failures { OnOk result (first.new.error ≡ first_failure first.old.error
        (direction_clause (setting_of around.now) from.now from_typ.now to.now to_typ.now).faults) }
{
    let mut binds = Items::new(alloc);
    let pattern = read_matched(
        alloc,
        around,
        &from.pattern,
        from_typ,
        &to.pattern,
        to_typ,
        &mut binds,
        first,
    )?;
    let arm = nested(alloc, pattern)?;
    let inside = around.unanswered();
    let body = read_behind(
        alloc,
        &inside,
        &from.guard,
        &to.pattern,
        to_typ,
        binds,
        first,
    )?;
    Ok(Clause { arm, body })
}

/// One more clause of a mapping in one direction, behind others.
fn push_direction(
    alloc: Global,
    around: &Around<'_>,
    from: &Side,
    from_typ: &Typ,
    to: &Side,
    to_typ: &Typ,
    clauses: &mut Clauses,
    first: &mut First,
) -> Result<(), AllocError>
    ensures arms { OnOk result (clauses.new.arms ≡ clauses.old.arms
        ++ (direction_clause (setting_of around.now) from.now from_typ.now to.now to_typ.now).arm ∷ []) }
    ensures bodies { OnOk result (clauses.new.bodies ≡ clauses.old.bodies
        ++ (direction_clause (setting_of around.now) from.now from_typ.now to.now to_typ.now).body ∷ []) }
    ensures failures { OnOk result (first.new.error ≡ first_failure first.old.error
        (direction_clause (setting_of around.now) from.now from_typ.now to.now to_typ.now).faults) }
{
    let clause = direction(alloc, around, from, from_typ, to, to_typ, first)?;
    clauses.push(clause)
}

/// The clauses of a mapping from its left side to its right one, and notes their failures. The one error is want of memory.
pub(crate) fn forwards_clauses(
    alloc: Global,
    around: &Around<'_>,
    mapping: &Mapping,
    clauses: &[MappingClause],
    first: &mut First,
) -> Result<Clauses, AllocError>
    ensures arms { IfOk result (λ made. made.arms ≡ clauses_arms (forwards_of (setting_of around.now) mapping.now clauses.now)) }
    ensures bodies { IfOk result (λ made. made.bodies ≡ clauses_bodies (forwards_of (setting_of around.now) mapping.now clauses.now)) }
    ensures failures { OnOk result (first.new.error ≡ first_failure first.old.error
        (clauses_faults (forwards_of (setting_of around.now) mapping.now clauses.now))) }
{
    let mut made = Clauses::new(alloc);
    for clause in clauses {
        push_direction(
            alloc,
            around,
            &clause.left,
            &mapping.left,
            &clause.right,
            &mapping.right,
            &mut made,
            first,
        )?;
    }
    Ok(made)
}

/// The clauses of a mapping from its right side to its left one, and notes their failures. The one error is want of memory.
pub(crate) fn backwards_clauses(
    alloc: Global,
    around: &Around<'_>,
    mapping: &Mapping,
    clauses: &[MappingClause],
    first: &mut First,
) -> Result<Clauses, AllocError>
    ensures arms { IfOk result (λ made. made.arms ≡ clauses_arms (backwards_of (setting_of around.now) mapping.now clauses.now)) }
    ensures bodies { IfOk result (λ made. made.bodies ≡ clauses_bodies (backwards_of (setting_of around.now) mapping.now clauses.now)) }
    ensures failures { OnOk result (first.new.error ≡ first_failure first.old.error
        (clauses_faults (backwards_of (setting_of around.now) mapping.now clauses.now))) }
{
    let mut made = Clauses::new(alloc);
    for clause in clauses {
        push_direction(
            alloc,
            around,
            &clause.right,
            &mapping.right,
            &clause.left,
            &mapping.left,
            &mut made,
            first,
        )?;
    }
    Ok(made)
}
