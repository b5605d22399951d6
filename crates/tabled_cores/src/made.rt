//! What nodes make: that there is a case under each combination of numbers, in which all sizes are constants for certain, and that a value tells the
//! sizes of its type.
ghost use Rattle.std.specs.Prelude.{◌≡◌, not, nat_lt, length, IfOk};
ghost use Rattle.std.specs.List.{list_all};
ghost use Rattle.monomorph.specs.Reading.{inside_of};
ghost use Rattle.tabled_cores.specs.Notes as spec;

use crate::sizes::{one_passes, tells, values_pass};
use crate::small::{both, either};
use expression_forms::is_type_below;
use monomorph::Inside;
use size_splits::{MadeValue, made_value, sizes_given};
use size_values::{Picked, Variables};
use sized_trees::{Choice, case_under, choices_at, is_given, picked_by};
use std::alloc::{AllocError, Global};
use told_sizes::reading_among;
use value_indices::{Fact, Indices, Made, Reading};

/// Whether a fact gives no number but one of a variable of the body.
fn gives_own(inside: &Inside<'_>, fact: &Fact) -> bool
    ensures { result ≡ spec.gives_own (inside_of inside.now) fact.now }
{
    match fact {
        Fact::Holds(_) => true,
        Fact::IsGiven(variable) => *variable < inside.variables,
    }
}

/// The same of each of these.
fn all_own(inside: &Inside<'_>, facts: &[Fact]) -> bool
    ensures { result ≡ list_all (spec.gives_own (inside_of inside.now)) facts.now }
{
    for fact in facts {
        if !gives_own(inside, fact) {
            return false;
        }
    }
    true
}

/// Whether numbers of the body's variables alone are known.
fn few_known(inside: &Inside<'_>) -> bool
    ensures { result ≡ not (nat_lt (inside_of inside.now).variables (length (inside_of inside.now).numbers)) }
{
    !((inside.variables as usize) < inside.numbers.len())
}

/// Whether numbers of the body's variables alone are known and given.
fn facts_own(inside: &Inside<'_>, facts: &[Fact]) -> bool
    ensures { result ≡ spec.facts_own (inside_of inside.now) facts.now }
{
    both(few_known(inside), all_own(inside, facts))
}

/// Whether what is made names variables of the body alone.
fn made_alone(inside: &Inside<'_>, made: &Made) -> bool
    ensures { result ≡ spec.made_alone (inside_of inside.now) made.now }
{
    match made {
        Made::ByIndices(_) => true,
        Made::ByType(reading) => is_type_below(inside.variables, reading),
    }
}

/// Whether sizes of a type name variables of the body alone, and a value tells them. It fails where memory is wanting.
fn type_tells(
    alloc: Global,
    inside: &Inside<'_>,
    reading: &Reading,
    picked: &[Picked],
) -> Result<bool, AllocError>
    ensures { IfOk result (λ tell. tell ≡ spec.type_tells (inside_of inside.now) reading.now picked.now) }
{
    let variables = Variables::Before(inside.variables);
    let among = reading_among(alloc, inside.types, reading, &variables)?;
    let told = tells(alloc, inside, reading, picked)?;
    Ok(both(among, told))
}

/// The same of what is made.
fn made_tells(
    alloc: Global,
    inside: &Inside<'_>,
    made: &Made,
    picked: &[Picked],
) -> Result<bool, AllocError>
    ensures { IfOk result (λ tell. tell ≡ spec.made_tells (inside_of inside.now) made.now picked.now) }
{
    match made {
        Made::ByIndices(_) => Ok(true),
        Made::ByType(reading) => type_tells(alloc, inside, reading, picked),
    }
}

/// Whether there is a case where these numbers are taken. It fails where memory is wanting.
fn has_case(
    alloc: Global,
    inside: &Inside<'_>,
    operands: &[Indices],
    value: &Indices,
    choice: &Choice,
) -> Result<bool, AllocError>
    ensures { IfOk result (λ has. has ≡ spec.has_case_of (inside_of inside.now) operands.now value.now choice.now) }
{
    let case = case_under(alloc, inside, operands, value, choice)?;
    Ok(case.is_some())
}

/// Whether all sizes there are constants for certain, and a value tells those of its type. It fails where memory is wanting.
fn choice_passes(
    alloc: Global,
    inside: &Inside<'_>,
    operands: &[Indices],
    made: &Made,
    value: &Indices,
    choice: &Choice,
) -> Result<bool, AllocError>
    ensures { IfOk result (λ passes. passes ≡ spec.choice_passes (inside_of inside.now) operands.now made.now value.now choice.now) }
{
    let picked = picked_by(alloc, choice)?;
    let taken = values_pass(alloc, inside, choice.noted.as_slice(), operands)?;
    let given = one_passes(alloc, inside, picked.as_slice(), value)?;
    let tell = made_tells(alloc, inside, made, choice.noted.as_slice())?;
    Ok(both(taken, both(given, tell)))
}

/// Whether there is a case for each of these.
fn all_have_cases(
    alloc: Global,
    inside: &Inside<'_>,
    operands: &[Indices],
    value: &Indices,
    choices: &[Choice],
) -> Result<bool, AllocError>
    ensures { IfOk result (λ have. have ≡ list_all (spec.has_case_of (inside_of inside.now) operands.now value.now) choices.now) }
{
    for choice in choices {
        if !has_case(alloc, inside, operands, value, choice)? {
            return Ok(false);
        }
    }
    Ok(true)
}

/// Whether each of these passes.
fn all_pass(
    alloc: Global,
    inside: &Inside<'_>,
    operands: &[Indices],
    made: &Made,
    value: &Indices,
    choices: &[Choice],
) -> Result<bool, AllocError>
    ensures { IfOk result (λ pass. pass ≡ list_all (spec.choice_passes (inside_of inside.now) operands.now made.now value.now) choices.now) }
{
    for choice in choices {
        if !choice_passes(alloc, inside, operands, made, value, choice)? {
            return Ok(false);
        }
    }
    Ok(true)
}

/// Whether the numbers of all these variables are noted.
fn all_in_force(facts: &[Fact], picked: &[Picked]) -> bool
    ensures { result ≡ list_all (spec.is_in_force facts.now) picked.now }
{
    for one in picked {
        if !is_given(facts, one.variable) {
            return false;
        }
    }
    true
}

/// Whether those of a choice are. It fails where memory is wanting.
fn choice_noted(alloc: Global, facts: &[Fact], choice: &Choice) -> Result<bool, AllocError>
    ensures { IfOk result (λ noted. noted ≡ spec.choice_noted facts.now choice.now) }
{
    let picked = picked_by(alloc, choice)?;
    Ok(all_in_force(facts, picked.as_slice()))
}

/// The same of each of these.
fn all_noted(alloc: Global, facts: &[Fact], choices: &[Choice]) -> Result<bool, AllocError>
    ensures { IfOk result (λ noted. noted ≡ list_all (spec.choice_noted facts.now) choices.now) }
{
    for choice in choices {
        if !choice_noted(alloc, facts, choice)? {
            return Ok(false);
        }
    }
    Ok(true)
}

/// Whether what a node makes is so, under each combination that counts there; a case may go by numbers that its value gives, or (not `given`)
/// only by those that are noted by then. It fails where memory is wanting, and where variables are too many.
pub fn made_tested(
    alloc: Global,
    given: bool,
    inside: &Inside<'_>,
    facts: &[Fact],
    operands: &[Indices],
    made: &Made,
) -> Result<bool, AllocError>
    ensures { IfOk result (λ tested. tested ≡ spec.made_tested given (inside_of inside.now) facts.now operands.now made.now) }
{
    let MadeValue {
        indices,
        facts: opening,
    } = made_value(alloc, inside.variables, made, None)?;
    let own = sizes_given(alloc, inside.types, &indices)?;
    let choices = choices_at(alloc, inside, facts, opening.as_slice(), own.as_slice())?;
    let have = all_have_cases(alloc, inside, operands, &indices, choices.as_slice())?;
    let pass = all_pass(alloc, inside, operands, made, &indices, choices.as_slice())?;
    let noted = all_noted(alloc, facts, choices.as_slice())?;
    let alone = both(facts_own(inside, facts), made_alone(inside, made));
    Ok(both(both(have, both(alone, pass)), either(given, noted)))
}
