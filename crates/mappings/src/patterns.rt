//! Patterns and arms: `m(p)` is `Some(p)` of what the direction gives.
ghost use Rattle.std.specs.Prelude.{◌≡◌, [], ◌∷◌, map, IfOk};
ghost use Rattle.sail_core.specs.declared.patterns.Head.TheVariants as head;
ghost use Rattle.sail_core.specs.declared.patterns.Form.TheVariants as form;
ghost use Rattle.mappings.specs.Rewriting as freed;

use sail_base::{Items, Place};
use sail_core::{Arm, Form, Head, Pattern};
use std::alloc::{AllocError, Global};

/// `Some` of patterns, of which there is one.
fn some(alloc: Global, place: Place, parts: Items<Pattern>) -> Result<Items<Pattern>, AllocError>
    ensures { IfOk result (λ made. made ≡ freed.pattern place (form.Opens (head.Constructor 0 0)) parts ∷ []) }
{
    let form = Form::Opens(Head::Constructor(0, 0));
    let mut made = Items::new(alloc);
    made.push(Pattern { place, form, parts })?;
    Ok(made)
}

/// A pattern whose parts are done.
#[tactic(auto, using(crate::proofs::Forms::maps_one, crate::proofs::Forms::maps_other))]
fn free_form(
    alloc: Global,
    place: Place,
    form: Form,
    parts: Items<Pattern>,
) -> Result<Pattern, AllocError>
    ensures { IfOk result (λ made. made ≡ freed.free_form place form parts) }
{
    match form {
        Form::Maps(direction) => {
            let form = Form::Sees(direction);
            if parts.len() == 1 {
                let parts = some(alloc, place, parts)?;
                Ok(Pattern { place, form, parts })
            } else {
                Ok(Pattern { place, form, parts })
            }
        }
        form => Ok(Pattern { place, form, parts }),
    }
}

#[cycle(free_pattern)]
fn free_pattern(alloc: Global, pattern: Pattern) -> Result<Pattern, AllocError>
    ensures { IfOk result (λ made. made ≡ freed.free_pattern pattern) }
{
    let Pattern { place, form, parts } = pattern;
    let parts = free_patterns(alloc, parts)?;
    free_form(alloc, place, form, parts)
}

#[cycle(free_pattern)]
fn free_patterns(alloc: Global, patterns: Items<Pattern>) -> Result<Items<Pattern>, AllocError>
    ensures { IfOk result (λ made. made ≡ map freed.free_pattern patterns) }
{
    let mut made = Items::new(alloc);
    for pattern in patterns.into_vec() {
        made.push(free_pattern(alloc, pattern)?)?;
    }
    Ok(made)
}

/// The arm without mappings. It fails where memory is wanting.
pub(crate) fn free_arm(alloc: Global, arm: Arm) -> Result<Arm, AllocError>
    ensures { IfOk result (λ made. made ≡ freed.free_arm arm) }
{
    match arm {
        Arm::Nested(patterns) => Ok(Arm::Nested(free_patterns(alloc, patterns)?)),
        Arm::Flat(count, steps) => Ok(Arm::Flat(count, steps)),
    }
}

/// The arms without mappings, in order. It fails where memory is wanting.
pub(crate) fn free_arms(alloc: Global, arms: Items<Arm>) -> Result<Items<Arm>, AllocError>
    ensures { IfOk result (λ made. made ≡ map freed.free_arm arms) }
{
    let mut made = Items::new(alloc);
    for arm in arms.into_vec() {
        made.push(free_arm(alloc, arm)?)?;
    }
    Ok(made)
}
