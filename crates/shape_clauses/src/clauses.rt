//! Clauses of functions and measures.
ghost use Rattle.std.specs.Prelude.{◌≡◌, ◌∷◌, ◌++◌, [], length, IfOk, OnOk};
ghost use Rattle.sail_base.specs.declared.place.Place.{Place as APlace};
ghost use Rattle.sail_core.specs.declared.patterns.Arm.TheVariants as A;
ghost use Rattle.shape_rules.specs.Around.{setting_of};
ghost use Rattle.shape_rules.specs.Findings.{first_failure, cast as cast_of};
ghost use Rattle.shape_rules.specs.Scopes.{under};
ghost use Rattle.shape_rules.specs.Expressions.{part};
ghost use Rattle.shape_calls.specs.Made.{made_of};
ghost use Rattle.shape_clauses.specs.Clauses.{takes_one_unit as takes_one_unit_of, is_one_unit, parameter_pieces};
ghost use Rattle.shape_clauses.specs.Clauses.{body_part, miscounted as miscounted_of, clause_read, core_of};

use sail_base::{Items, Place};
use sail_core::{Arm, Core, Kind, Pattern};
use sail_syntax::{Exp, Pat, TyExp};
use sail_types::Shape;
use shape_calls::{Made, cast, is_unit, missing, over};
use shape_expressions::{elaborate, elaborate_typed, place_of};
use shape_patterns::look_parameters;
use shape_rules::{Around, First, Local, Locals, ShapeError};
use std::alloc::{AllocError, Global};
use std::mem;

/// A clause: how it looks at its arguments, and its body.
#[derive(Drop)]
pub struct Clause {
    /// How it looks at its arguments.
    pub arm: Arm,
    /// Its body, whose nodes have no numbers yet.
    pub body: Core,
}

/// Clauses, tried in order.
#[derive(Drop)]
pub struct Clauses {
    /// How each looks at its arguments.
    pub arms: Items<Arm>,
    /// Their bodies, one for each.
    pub bodies: Items<Core>,
}

impl Clauses {
    /// No clause yet.
    pub fn new(alloc: Global) -> Clauses
        ensures arms { result.arms ≡ [] }
        ensures bodies { result.bodies ≡ [] }
    {
        Clauses {
            arms: Items::new(alloc),
            bodies: Items::new(alloc),
        }
    }

    /// One more clause, behind the others. The one error is want of memory.
    pub fn push(&mut self, clause: Clause) -> Result<(), AllocError>
        ensures arms { OnOk result (self.new.arms ≡ self.old.arms ++ clause.arm ∷ []) }
        ensures bodies { OnOk result (self.new.bodies ≡ self.old.bodies ++ clause.body ∷ []) }
    {
        let Clause { arm, body } = clause;
        self.arms.push(arm)?;
        self.bodies.push(body)
    }

    /// The clauses as a node, without a number yet.
    pub fn into_core(self, place: Place) -> Core
        ensures { result ≡ core_of place self.arms self.bodies }
    {
        let Clauses { arms, bodies } = self;
        over(place, Kind::Clauses(arms), bodies)
    }
}

fn takes_one_unit(params: &[Shape]) -> bool
    ensures { result ≡ takes_one_unit_of params.now }
{
    match params {
        [param] => is_unit(param),
        _ => false,
    }
}

/// Whether no pattern stands for one parameter, which is unit.
fn has_one_unit(params: &[Shape], parameters: &[Pat]) -> bool
    ensures { result ≡ is_one_unit params.now parameters.now }
{
    match parameters {
        [] => takes_one_unit(params),
        _ => false,
    }
}

/// How many parts stand for parameters of these shapes.
fn piece_count(params: &[Shape], parameters: &[Pat]) -> usize
    ensures { (place : APlace) → result ≡ length (parameter_pieces place params.now parameters.now) }
{
    if has_one_unit(params, parameters) {
        1
    } else {
        parameters.len()
    }
}

/// A clause with another count of parameters than is wanted, which is noted at its first word (M15).
fn miscounted(alloc: Global, place: Place, wanted: usize, found: usize, first: &mut First) -> Clause
    ensures arm { result.arm ≡ (miscounted_of place wanted found).arm }
    ensures body { result.body ≡ (miscounted_of place wanted found).body }
    ensures failures { first.new.error ≡ first_failure first.old.error (miscounted_of place wanted found).faults }
{
    first.note(ShapeError::Arity {
        place,
        wanted,
        found,
    });
    Clause {
        arm: Arm::Nested(Items::new(alloc)),
        body: missing(alloc, place),
    }
}

/// The body of a clause, which is one of an annotated expression where a type is written.
fn read_body(
    alloc: Global,
    around: &Around<'_>,
    body: &Exp,
    typ: &Option<TyExp>,
    locals: &mut Locals,
    want: &Shape,
    first: &mut First,
) -> Result<Made, AllocError>
    ensures made { IfOk result (λ made. made
        ≡ made_of (body_part typ.now (part body.now) (setting_of around.now) locals.old want.now)) }
    ensures failures { OnOk result (first.new.error ≡ first_failure first.old.error
        (body_part typ.now (part body.now) (setting_of around.now) locals.old want.now).faults) }
{
    match typ {
        None => elaborate(alloc, body, around, locals, want, first),
        Some(typ) => elaborate_typed(alloc, body, typ, around, locals, want, first),
    }
}

/// The core of what is made, where its value comes to the type that is wanted of it. The one error is want of memory.
pub fn cast_made(alloc: Global, mut made: Made, place: Place) -> Result<Core, AllocError>
    ensures { IfOk result (λ core. core ≡ cast_of made.core place) }
{
    let core = mem::replace(&mut made.core, missing(alloc, place));
    cast(alloc, core, place)
}

/// The names that patterns bind, in scope alone. The one error is want of memory.
pub(crate) fn locals_under(alloc: Global, binds: Items<Local>) -> Result<Locals, AllocError>
    ensures { IfOk result (λ locals. locals ≡ under binds []) }
{
    let mut locals = Locals::new(alloc);
    for bound in binds.into_vec() {
        locals.enter(bound)?;
    }
    Ok(locals)
}

/// A clause whose patterns bind these names.
fn read_under(
    alloc: Global,
    around: &Around<'_>,
    patterns: Items<Pattern>,
    binds: Items<Local>,
    body: &Exp,
    typ: &Option<TyExp>,
    want: &Shape,
    first: &mut First,
) -> Result<Clause, AllocError>
    ensures arm { IfOk result (λ made. made.arm ≡ A.Nested patterns) }
    ensures body { IfOk result (λ made. made.body ≡ cast_of
        (body_part typ.now (part body.now) (setting_of around.now) (under binds []) want.now).core (part body.now).place) }
    ensures failures { OnOk result (first.new.error ≡ first_failure first.old.error
        (body_part typ.now (part body.now) (setting_of around.now) (under binds []) want.now).faults) }
{
    let mut locals = locals_under(alloc, binds)?;
    let made = read_body(alloc, around, body, typ, &mut locals, want, first)?;
    let body = cast_made(alloc, made, place_of(body))?;
    Ok(Clause {
        arm: Arm::Nested(patterns),
        body,
    })
}

/// A clause with these patterns for parameters of these shapes, and notes its failures. The one error is want of memory.
#[tactic(auto, using(shape_rules::proofs::Firsts::first_failure_append))]
pub fn read_clause(
    alloc: Global,
    around: &Around<'_>,
    place: Place,
    params: &[Shape],
    parameters: &[Pat],
    body: &Exp,
    typ: &Option<TyExp>,
    want: &Shape,
    first: &mut First,
) -> Result<Clause, AllocError>
    ensures arm { IfOk result (λ made. made.arm
        ≡ (clause_read (setting_of around.now) place params.now parameters.now (part body.now) typ.now want.now).arm) }
    ensures body { IfOk result (λ made. made.body
        ≡ (clause_read (setting_of around.now) place params.now parameters.now (part body.now) typ.now want.now).body) }
    ensures failures { OnOk result (first.new.error ≡ first_failure first.old.error
        (clause_read (setting_of around.now) place params.now parameters.now (part body.now) typ.now want.now).faults) }
{
    let count = piece_count(params, parameters);
    if params.len() != count {
        return Ok(miscounted(alloc, place, params.len(), count, first));
    }
    let is_unit = has_one_unit(params, parameters);
    let mut binds = Items::new(alloc);
    let patterns = look_parameters(
        alloc, place, is_unit, parameters, around, params, &mut binds, first,
    )?;
    read_under(alloc, around, patterns, binds, body, typ, want, first)
}
