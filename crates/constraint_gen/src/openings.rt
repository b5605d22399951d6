//! Top-level lets and initial values.
ghost use Rattle.std.specs.Prelude.{◌≡◌, ◌&&◌, IfOk, OnOk, slice_get};
ghost use Rattle.std.specs.Option.{option_copied};
ghost use Rattle.value_indices.specs.Walking as walk;
ghost use Rattle.pattern_leaves.specs.Settings.{Around as Settings, around_of};
ghost use Rattle.function_notes.specs.Expressions.{part};
ghost use Rattle.function_notes.specs.Parts.{Part};
ghost use Rattle.function_notes.specs.Statements.{is_written};
ghost use Rattle.constraint_gen.specs.Models as models;

use call_arguments::Aim;
use function_notes::{
    Matching, Scope, arm_written, is_nested, match_one, walk_expression, written_aim,
};
use model_state::Register;
use pattern_leaves::{Around, Bound};
use sail_base::{Items, Place};
use sail_core::{Arm, Core, Opening, OpeningKind, Written};
use std::alloc::{AllocError, Global};
use type_arguments::copy_typ;
use value_indices::{Reading, Walking};

/// What is known in a top-level `let` or an initial value: named types, and names of lets.
fn apart<'a>(around: &Around<'a>) -> Around<'a>
    ensures { around_of result ≡ models.apart (around_of around.now) }
{
    Around {
        types: around.types,
        exception: None,
        registers: &[],
        functions: &[],
        directions: &[],
        lets: around.lets,
        numbers: &[],
        answer: None,
    }
}

/// Whether a type is written that is owed further in, in the value itself.
fn is_owed_inside(written: Option<&Written>, value: &Core) -> bool
    ensures { result ≡ is_written (option_copied written.entry) && Part.is_nested (part value.now) }
{
    match written {
        None => false,
        Some(_) => is_nested(value),
    }
}

/// A top-level `let` of this arm: the names that it binds. It fails where memory is wanting, and where variables are too many.
#[tactic(auto, using(value_indices::proofs::Walks::walks))]
pub fn walk_let(
    alloc: Global,
    walking: &mut Walking,
    around: &Around<'_>,
    place: Place,
    arm: &Arm,
    value: &Core,
) -> Result<Items<Bound>, AllocError>
    ensures value { IfOk result (λ made. made ≡ walk.got (models.let_walk (around_of around.now) place arm.now (part value.now))
        (walk.seen walking.old)) }
    ensures walked { OnOk result (walk.seen walking.new ≡ walk.run (models.let_walk (around_of around.now) place arm.now (part value.now))
        (walk.seen walking.old)) }
{
    let inner = apart(around);
    let written = arm_written(arm);
    let aim = written_aim(alloc, &inner, written)?;
    let indices = walk_expression(alloc, walking, &inner, &Scope::empty(), value, &aim)?;
    let is_owed = is_owed_inside(written, value);
    let how = Matching {
        in_case: false,
        is_owed,
    };
    match_one(alloc, place, arm, &inner, how, &indices, walking)
}

/// What is wanted of the initial value of a register. It fails where memory is wanting.
fn initial_aim(alloc: Global, register: &Register) -> Result<Aim, AllocError>
    ensures { IfOk result (λ made. made ≡ models.initial_aim register.now) }
{
    let typ = copy_typ(alloc, &register.typ)?;
    Ok(Aim::due(Reading::Of(typ, Items::new(alloc), Items::new(alloc))))
}

/// The initial value of a register. The one error is want of memory, also of numbers for variables.
fn walk_initial(
    alloc: Global,
    walking: &mut Walking,
    around: &Around<'_>,
    register: &Register,
    value: &Core,
) -> Result<(), AllocError>
    ensures { OnOk result (walk.seen walking.new ≡ walk.run (models.initial_walk (around_of around.now) register.now (part value.now))
        (walk.seen walking.old)) }
{
    let inner = apart(around);
    let aim = initial_aim(alloc, register)?;
    walk_expression(alloc, walking, &inner, &Scope::empty(), value, &aim)?;
    Ok(())
}

/// The initial value of the register of this number; what is false is owed where there is no such one. The one error is want of memory,
/// also of numbers for variables.
#[tactic(auto, using(value_indices::proofs::Walks::walks))]
fn walk_register(
    alloc: Global,
    walking: &mut Walking,
    around: &Around<'_>,
    place: Place,
    register: u32,
    value: &Core,
) -> Result<(), AllocError>
    ensures { OnOk result (walk.seen walking.new ≡ walk.run (models.initial_of (around_of around.now) place
        (slice_get (Settings.registers (around_of around.now)) register) (part value.now)) (walk.seen walking.old)) }
{
    match around.registers.get(register as usize) {
        None => walking.wrong(alloc, place),
        Some(register) => walk_initial(alloc, walking, around, register, value),
    }
}

/// A top-level `let` or an initial value. The one error is want of memory, also of numbers for variables.
#[tactic(auto, using(value_indices::proofs::Walks::walks))]
pub fn walk_opening(
    alloc: Global,
    walking: &mut Walking,
    around: &Around<'_>,
    opening: &Opening,
) -> Result<(), AllocError>
    ensures { OnOk result (walk.seen walking.new ≡ walk.run (models.opening_walk (around_of around.now) opening.now.place opening.now.kind
        (part opening.now.value)) (walk.seen walking.old)) }
{
    match &opening.kind {
        OpeningKind::Let(arm) => {
            walk_let(alloc, walking, around, opening.place, arm, &opening.value)?;
            Ok(())
        }
        OpeningKind::Register(register) => walk_register(
            alloc,
            walking,
            around,
            opening.place,
            *register,
            &opening.value,
        ),
    }
}
