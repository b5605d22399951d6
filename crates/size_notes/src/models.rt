//! What is read of a model.
ghost use Rattle.std.specs.Prelude.{◌≡◌, ◌++◌, [], IfOk, OnOk, map};
ghost use Rattle.value_indices.specs.Walking as walk;
ghost use Rattle.pattern_leaves.specs.Settings.{around_of};
ghost use Rattle.constraint_gen.specs.Expressions.{part};
ghost use Rattle.constraint_gen.specs.Defined.{AreNames};
ghost use Rattle.constraint_gen.specs.Models as models;
ghost use Rattle.size_splits.specs.Bodies.{body_read};
ghost use Rattle.size_notes.specs.Bodies as spec;

use crate::behind::{Behind, push_arm, push_behind, push_core};
use crate::functions::function_bodies;
use crate::mappings::read_mapping;
use crate::steps::{append_alone, ended_body};
use crate::written::WrittenSize;
use constraint_gen::{TopLevels, around_model, around_opening, top_level_names, walk_opening};
use pattern_leaves::Around;
use sail_base::Items;
use sail_core::{CoreModel, Direction, Function, Opening, OpeningKind};
use size_splits::BodySteps;
use std::alloc::{AllocError, Global};
use value_indices::Walking;

/// What is read of the definitions of a model.
#[derive(Drop)]
pub struct ModelBodies {
    /// For each function its measure, where it has one, and its body.
    pub functions: Items<Items<BodySteps>>,
    /// The mappings, of which each has two directions.
    pub mappings: Items<BodySteps>,
    /// The top-level lets and initial values.
    pub openings: Items<BodySteps>,
}

/// The walk over a top-level `let` or an initial value by itself. It fails where memory is wanting, and where variables are too many.
fn walk_alone(
    alloc: Global,
    next: u32,
    around: &Around<'_>,
    opening: &Opening,
) -> Result<Walking, AllocError>
    ensures { IfOk result (λ inner. walk.seen inner ≡ walk.restored (walk.run (models.opening_walk (around_of around.now) opening.now.place
        opening.now.kind (part opening.now.value)) (walk.remembering (walk.begun next)))) }
{
    let mut inner = Walking::new(alloc, next);
    inner.remember()?;
    walk_opening(alloc, &mut inner, around, opening)?;
    inner.restore()?;
    Ok(inner)
}

/// The sizes of types that are written in the pattern of a top-level `let`. It fails where memory is wanting.
fn pattern_sizes(
    alloc: Global,
    around: &Around<'_>,
    kind: &OpeningKind,
) -> Result<Items<WrittenSize>, AllocError>
    ensures { IfOk result (λ sizes. sizes ≡ spec.opening_sizes (around_of around.now) kind.now) }
{
    let mut sizes = Items::new(alloc);
    match kind {
        OpeningKind::Let(arm) => push_arm(alloc, &mut sizes, around.numbers, arm)?,
        OpeningKind::Register(_) => {}
    }
    Ok(sizes)
}

/// The sizes of types that are written in a top-level `let` or an initial value. It fails where memory is wanting.
fn opening_behind(
    alloc: Global,
    around: &Around<'_>,
    opening: &Opening,
) -> Result<Items<Behind>, AllocError>
    ensures { IfOk result (λ made. made ≡ spec.opening_behind (around_of around.now) opening.now) }
{
    let mut made = Items::new(alloc);
    push_core(alloc, &mut made, around.numbers, &opening.value)?;
    let sizes = pattern_sizes(alloc, around, &opening.kind)?;
    push_behind(&mut made, opening.value.number, sizes)?;
    Ok(made)
}

/// What is read of a top-level `let` or an initial value. It fails where memory is wanting, and where variables are too many.
fn read_opening(
    alloc: Global,
    around: &Around<'_>,
    opening: &Opening,
) -> Result<BodySteps, AllocError>
    ensures { IfOk result (λ body. body_read body ≡ spec.opening_body (around_of around.now) opening.now) }
{
    let mut body = Walking::new(alloc, 0);
    let inner = walk_alone(alloc, 0, around, opening)?;
    let behind = opening_behind(alloc, around, opening)?;
    append_alone(alloc, &mut body, inner, behind.as_slice())?;
    ended_body(alloc, body)
}

/// What is read of functions and their measures. It fails where memory is wanting, and where variables are too many.
fn read_functions(
    alloc: Global,
    around: &Around<'_>,
    functions: &[Function],
) -> Result<Items<Items<BodySteps>>, AllocError>
    ensures { IfOk result (λ made. map (map body_read) made ≡ map (spec.function_bodies (around_of around.now)) functions.now) }
{
    let mut made = Items::new(alloc);
    for function in functions {
        made.push(function_bodies(alloc, around, function)?)?;
    }
    Ok(made)
}

/// What is read of mappings, of directions by twos. It fails where memory is wanting, and where variables are too many.
fn read_mappings(
    alloc: Global,
    around: &Around<'_>,
    directions: &[Direction],
) -> Result<Items<BodySteps>, AllocError>
    ensures { IfOk result (λ made. map body_read made ≡ spec.mapping_bodies (around_of around.now) directions.now) }
{
    let mut made = Items::new(alloc);
    let pairs = directions.len() / 2;
    for pair in 0..pairs {
        let at = 2 * pair;
        let behind = at + 1;
        let forwards = &directions[at];
        let backwards = &directions[behind];
        made.push(read_mapping(alloc, around, forwards, backwards)?)?;
    }
    Ok(made)
}

/// What is read of the top-level lets and initial values of a model. It fails where memory is wanting, and where variables are too many.
fn read_openings(
    alloc: Global,
    core: &CoreModel,
    lets: &TopLevels,
) -> Result<Items<BodySteps>, AllocError>
    requires { AreNames core.now lets.now }
    ensures { IfOk result (λ made. map body_read made ≡ spec.opening_bodies (models.around_with core.now []) core.now.openings) }
{
    let mut made = Items::new(alloc);
    let openings = core.openings.as_slice();
    for at in 0..openings.len() {
        let around = around_opening(core, lets, at);
        let opening = &openings[at];
        made.push(read_opening(alloc, &around, opening)?)?;
    }
    Ok(made)
}

/// What is read of a model that was resolved, definition by definition: the notes of its walks, the types of parameters, and the sizes in
/// types that are written in bodies. It fails where memory is wanting, and where a definition has more than 2^32 - 1 variables.
pub fn bodies(alloc: Global, core: &CoreModel) -> Result<ModelBodies, AllocError>
    ensures { IfOk result (λ made. spec.model_read made ≡ spec.bodies_of core.now) }
{
    let lets = top_level_names(alloc, core)?;
    let around = around_model(core, lets.names.as_slice());
    let functions = read_functions(alloc, &around, core.functions.as_slice())?;
    let mappings = read_mappings(alloc, &around, core.directions.as_slice())?;
    let openings = read_openings(alloc, core, &lets)?;
    Ok(ModelBodies {
        functions,
        mappings,
        openings,
    })
}
