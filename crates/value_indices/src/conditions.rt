//! Conditions of which some can't be said.
ghost use Rattle.std.specs.Prelude.{◌≡◌, IfOk};
ghost use Rattle.value_indices.specs.Steps.{conditions as conditions_among, conjunction as conjunction_of};

use crate::notes::Fact;
use sail_base::Items;
use sail_types::Con;
use std::alloc::{AllocError, Global};

/// All of these as one condition, which is false where one can't be said. It fails where memory is wanting.
pub fn conjunction(alloc: Global, conditions: Items<Option<Con>>) -> Result<Con, AllocError>
    ensures { IfOk result (λ all. all ≡ conjunction_of conditions) }
{
    let mut parts = Items::new(alloc);
    for condition in conditions.into_vec() {
        match condition {
            None => return Ok(Con::Truth(false)),
            Some(part) => parts.push(part)?,
        }
    }
    Ok(Con::All(parts))
}

/// The conditions among facts, in order. It fails where memory is wanting.
pub fn conditions_of(alloc: Global, facts: Items<Fact>) -> Result<Items<Con>, AllocError>
    ensures { IfOk result (λ conditions. conditions ≡ conditions_among facts) }
{
    let mut conditions = Items::new(alloc);
    for fact in facts.into_vec() {
        if let Some(condition) = fact.into_condition() {
            conditions.push(condition)?;
        }
    }
    Ok(conditions)
}
