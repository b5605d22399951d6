//! The conditions among facts, lent.
ghost use Rattle.std.specs.Prelude.{◌≡◌, ◌++◌, [], ◌∷◌, IfOk, OnOk, map};
ghost use Rattle.value_indices.specs.Steps.{conditions};
ghost use Rattle.size_splits.specs.Reading.{pointed};

use sail_types::Con;
use std::alloc::{AllocError, Global};
use value_indices::Fact;

/// Puts a fact's condition at the end, if it is one. The one error is want of memory.
fn push_condition<'a>(fact: &'a Fact, made: &mut Vec<&'a Con>) -> Result<(), AllocError>
    ensures { OnOk result (map pointed made.new.items ≡ map pointed made.old.items ++ conditions (fact.now ∷ [])) }
{
    match fact {
        Fact::Holds(condition) => {
            made.push(condition)?;
            Ok(())
        }
        Fact::IsGiven(_) => Ok(()),
    }
}

/// Puts the conditions among facts at the end. The one error is want of memory.
fn push_conditions<'a>(facts: &'a [Fact], made: &mut Vec<&'a Con>) -> Result<(), AllocError>
    ensures { OnOk result (map pointed made.new.items ≡ map pointed made.old.items ++ conditions facts.now) }
{
    for fact in facts {
        push_condition(fact, made)?;
    }
    Ok(())
}

/// The conditions among facts of two lists, one behind the other. It fails where memory is wanting.
#[tactic(auto, using(crate::proofs::Facts::conditions_append))]
pub fn conditions_of<'a>(
    alloc: Global,
    facts: &'a [Fact],
    more: &'a [Fact],
) -> Result<Vec<&'a Con>, AllocError>
    ensures { IfOk result (λ made. map pointed made.items ≡ conditions (facts.now ++ more.now)) }
{
    let mut made = Vec::new(alloc);
    push_conditions(facts, &mut made)?;
    push_conditions(more, &mut made)?;
    Ok(made)
}
