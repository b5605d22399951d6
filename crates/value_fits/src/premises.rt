//! What is known of an item, as a premise.
ghost use Rattle.std.specs.Prelude.{◌≡◌, option_map, IfOk};
ghost use Rattle.sail_types.specs.Readings.{together};
ghost use Rattle.sail_types.specs.declared.numbers.Con.TheVariants as C;
ghost use Rattle.value_fits.specs.Fitting as fitting;

use crate::conditions::{implies, one};
use crate::fitted::Fitted;
use sail_base::Items;
use sail_types::Con;
use std::alloc::{AllocError, Global};
use value_indices::{Fact, conditions_of};

/// All conditions, in order, where each can be said.
fn all_said(alloc: Global, conditions: Items<Option<Con>>) -> Result<Option<Items<Con>>, AllocError>
    ensures { IfOk result (λ made. made ≡ together conditions) }
{
    let mut made = Items::new(alloc);
    for condition in conditions.into_vec() {
        match condition {
            None => return Ok(None),
            Some(condition) => made.push(condition)?,
        }
    }
    Ok(Some(made))
}

/// All conditions where all facts are true, where each can be said.
fn all_implied(
    alloc: Global,
    facts: Items<Con>,
    conditions: Items<Option<Con>>,
) -> Result<Option<Con>, AllocError>
    ensures { IfOk result (λ made. made ≡ option_map (λ all. fitting.implies (C.All facts) (C.All all)) (together conditions)) }
{
    match all_said(alloc, conditions)? {
        None => Ok(None),
        Some(all) => Ok(Some(implies(alloc, Con::All(facts), Con::All(all))?)),
    }
}

/// One condition in place of all: where the facts are true. It is the conditions themselves where there is no fact.
fn if_all(
    alloc: Global,
    facts: Items<Con>,
    conditions: Items<Option<Con>>,
) -> Result<Items<Option<Con>>, AllocError>
    ensures { IfOk result (λ made. made ≡ fitting.if_all facts conditions) }
{
    if facts.is_empty() || conditions.is_empty() {
        return Ok(conditions);
    }
    let condition = all_implied(alloc, facts, conditions)?;
    one(alloc, condition)
}

/// What has to be true where these facts, and what comes into force for it, are true. Nothing comes into force. It fails where
/// memory is wanting.
pub fn under_premise(alloc: Global, facts: Items<Fact>, made: Fitted) -> Result<Fitted, AllocError>
    ensures { IfOk result (λ said. said ≡ fitting.under_premise facts made) }
{
    let mut facts = facts;
    facts.append(made.facts)?;
    let known = conditions_of(alloc, facts)?;
    let said = if_all(alloc, known, made.conditions)?;
    Ok(Fitted::says(alloc, said, made.next))
}
