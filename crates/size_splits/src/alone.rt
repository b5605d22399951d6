//! The variables whose numbers a value gives by itself, and that are in its sizes.
ghost use Rattle.std.specs.Prelude.{◌≡◌, [], IfOk, OnOk};
ghost use Rattle.std.specs.List.{list_any};
ghost use Rattle.size_splits.specs.Alone as spec;

use call_notes::note_numbers;
use sail_base::Items;
use sail_types::Types;
use size_values::value_names;
use std::alloc::{AllocError, Global};
use value_indices::{Fact, Indices, Walking};

/// What comes into force behind a value: the numbers of which variables are noted. It fails where memory is wanting.
#[tactic(auto, unfolding(value_indices::specs::Walking::got, value_indices::specs::Walking::run))]
fn given_facts(alloc: Global, value: &Indices) -> Result<Items<Fact>, AllocError>
    ensures { IfOk result (λ facts. facts ≡ spec.given_facts value.now) }
{
    let mut walking = Walking::new(alloc, 0);
    note_numbers(alloc, &mut walking, 0, value)?;
    walking.into_facts(alloc)
}

/// Whether a variable is there by then.
fn is_seen(seen: &[u32], variable: u32) -> bool
    ensures { result ≡ list_any (spec.is_it variable) seen.now }
{
    for other in seen {
        if variable == *other {
            return true;
        }
    }
    false
}

/// Puts a variable, where this is so and it isn't there. It fails where memory is wanting.
fn push_once(seen: &mut Items<u32>, is: bool, variable: u32) -> Result<(), AllocError>
    ensures { OnOk result (seen.new ≡ spec.once_where is variable seen.old) }
{
    if !is {
        return Ok(());
    }
    if is_seen(seen.as_slice(), variable) {
        Ok(())
    } else {
        seen.push(variable)
    }
}

/// Puts the variable whose number a fact says to be noted, where it is in a size. It fails where memory is wanting.
fn push_given(
    alloc: Global,
    seen: &mut Items<u32>,
    types: &Types,
    value: &Indices,
    fact: &Fact,
) -> Result<(), AllocError>
    ensures { OnOk result (seen.new ≡ spec.with_given types.now value.now seen.old fact.now) }
{
    match fact {
        Fact::Holds(_) => Ok(()),
        Fact::IsGiven(variable) => {
            let is = value_names(alloc, types, *variable, value)?;
            push_once(seen, is, *variable)
        }
    }
}

/// The same of each of these facts, each variable once. It fails where memory is wanting.
fn all_given(
    alloc: Global,
    types: &Types,
    value: &Indices,
    facts: &[Fact],
) -> Result<Items<u32>, AllocError>
    ensures { IfOk result (λ given. given ≡ spec.all_given types.now value.now [] facts.now) }
{
    let mut seen = Items::new(alloc);
    for fact in facts {
        push_given(alloc, &mut seen, types, value, fact)?;
    }
    Ok(seen)
}

/// The variables whose numbers a value gives by itself, and that are in its sizes, each once. It fails where memory is wanting.
pub fn sizes_given(alloc: Global, types: &Types, value: &Indices) -> Result<Items<u32>, AllocError>
    ensures { IfOk result (λ given. given ≡ spec.sizes_given types.now value.now) }
{
    let facts = given_facts(alloc, value)?;
    all_given(alloc, types, value, facts.as_slice())
}
