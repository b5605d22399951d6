//! What a note makes, where its type is opened as the walk opens it behind the note.
ghost use Rattle.std.specs.Prelude.{◌≡◌, IfOk};
ghost use Rattle.size_splits.specs.Reading as reading;
ghost use Rattle.size_splits.specs.Sizing as sizing;

use sail_base::{Items, Text};
use std::alloc::{AllocError, Global};
use value_indices::{Fact, Indices, Made, Reading, Step, Walking, copy_indices, opened};

/// The indices of what is made, and the facts of its opening.
#[derive(Drop)]
pub struct MadeValue {
    /// The indices.
    pub indices: Indices,
    /// The facts; none where it is made by indices.
    pub facts: Items<Fact>,
}

/// Whether a name is that of a type variable.
fn names_type(name: &Text) -> bool
    ensures { result ≡ sizing.names_type name.now }
{
    match name.as_bytes() {
        [] => false,
        [first, ..] => *first == 39,
    }
}

/// The type variable that a step names, if it names one.
fn type_named(step: &Step) -> Option<u32>
    ensures { result ≡ reading.type_named step.now }
{
    match step {
        Step::Names(variable, name) => if names_type(name) {
            Some(*variable)
        } else {
            None
        },
        _ => None,
    }
}

/// Whether a step notes nothing but a name.
fn is_passed(step: &Step) -> bool
    ensures { result ≡ reading.is_passed step.now }
{
    match step {
        Step::Names(_, _) => true,
        Step::Assumes(_) => true,
        Step::Remembers => true,
        Step::Restores => true,
        Step::Forgets => true,
        Step::Claims(_) => true,
        Step::Unclaims => true,
        _ => false,
    }
}

/// The first type variable that is named by these steps before anything else is noted; none where none is.
pub fn named_in(steps: &[Step]) -> Option<u32>
    ensures { result ≡ reading.named_in steps.now }
{
    for step in steps {
        if let Some(variable) = type_named(step) {
            return Some(variable);
        }
        if !is_passed(step) {
            return None;
        }
    }
    None
}

/// The number that another is above by; this one where one of both is wanting.
fn less_by(beyond: u32, variable: Option<u32>, other: Option<u32>) -> u32
    ensures { result ≡ sizing.less_by beyond variable other }
{
    match (variable, other) {
        (Some(variable), Some(other)) => variable.saturating_sub(other),
        _ => beyond,
    }
}

/// The first type variable that is named where a type is opened from nothing; none where none is. It fails where memory is wanting, and
/// where variables are too many.
fn first_bound(alloc: Global, reading: &Reading) -> Result<Option<u32>, AllocError>
    ensures { IfOk result (λ first. first ≡ sizing.first_bound reading.now) }
{
    let mut walking = Walking::new(alloc, 0);
    let _ = opened(alloc, &mut walking, reading)?;
    let steps = walking.into_steps();
    Ok(named_in(steps.as_slice()))
}

/// A type, opened so that its variables are counted from this one on. It fails where memory is wanting, and where variables are too many.
fn opened_at(alloc: Global, reading: &Reading, next: u32) -> Result<MadeValue, AllocError>
    ensures indices { IfOk result (λ made. made.indices ≡ sizing.indices_at reading.now next) }
    ensures facts { IfOk result (λ made. made.facts ≡ sizing.facts_at reading.now next) }
{
    let mut walking = Walking::new(alloc, next);
    let indices = opened(alloc, &mut walking, reading)?;
    let facts = walking.into_facts(alloc)?;
    Ok(MadeValue { indices, facts })
}

/// What is made, in a body of so many variables, where this type variable is named behind the note: its variables are those that the walk
/// names there. It fails where memory is wanting, and where variables are too many.
pub fn made_value(
    alloc: Global,
    variables: u32,
    made: &Made,
    named: Option<u32>,
) -> Result<MadeValue, AllocError>
    ensures indices { IfOk result (λ value. value.indices ≡ sizing.made_indices variables made.now named) }
    ensures facts { IfOk result (λ value. value.facts ≡ sizing.made_facts variables made.now named) }
{
    match made {
        Made::ByIndices(indices) => {
            let indices = copy_indices(alloc, indices)?;
            let facts = Items::new(alloc);
            Ok(MadeValue { indices, facts })
        }
        Made::ByType(reading) => {
            let bound = first_bound(alloc, reading)?;
            opened_at(alloc, reading, less_by(variables, named, bound))
        }
    }
}

/// What a step makes whose sizes are noted; of any other what has no sizes. It fails where memory is wanting, and where variables are too
/// many.
pub fn step_value(
    alloc: Global,
    variables: u32,
    step: &Step,
    behind: &[Step],
) -> Result<MadeValue, AllocError>
    ensures indices { IfOk result (λ value. value.indices ≡ reading.step_value variables step.now (reading.named_in behind.now)) }
    ensures facts { IfOk result (λ value. value.facts ≡ reading.step_facts variables step.now (reading.named_in behind.now)) }
{
    match step {
        Step::Sizes(_, made) => made_value(alloc, variables, made, named_in(behind)),
        _ => {
            let facts = Items::new(alloc);
            Ok(MadeValue {
                indices: Indices::Never,
                facts,
            })
        }
    }
}
