//! The combinations of numbers of split variables that count at a place.
ghost use Rattle.std.specs.Prelude.{◌≡◌, ◌++◌, [], ◌∷◌, IfOk, OnOk, map};
ghost use Rattle.value_indices.specs.Steps.{conditions};
ghost use Rattle.size_values.specs.Numbers.{known_of, meant};
ghost use Rattle.size_splits.specs.Reading.{pointed};
ghost use Rattle.size_splits.specs.Splits as spec;

use sail_base::Items;
use sail_types::Con;
use size_splits::{conditions_of, domain};
use size_values::{Picked, Variables, may_hold};
use std::alloc::{AllocError, Global};
use value_indices::Fact;

/// A combination with a number more, in front. It fails where memory is wanting.
fn with_pick(
    alloc: Global,
    variable: u32,
    number: i128,
    combination: &[Picked],
) -> Result<Items<Picked>, AllocError>
    ensures { IfOk result (λ made. made ≡ spec.picked variable number ∷ combination.now) }
{
    let mut made = Items::new(alloc);
    made.push(Picked { variable, number })?;
    let rest = Items::from_slice(alloc, combination)?;
    made.append(rest)?;
    Ok(made)
}

/// Puts combinations with a number more at the end. The one error is want of memory.
fn push_with_number(
    alloc: Global,
    made: &mut Items<Items<Picked>>,
    variable: u32,
    number: i128,
    combinations: &[Items<Picked>],
) -> Result<(), AllocError>
    ensures { OnOk result (made.new ≡ made.old ++ spec.with_number variable combinations.now number) }
{
    for combination in combinations {
        made.push(with_pick(alloc, variable, number, combination.as_slice())?)?;
    }
    Ok(())
}

/// Combinations with each of these numbers more. It fails where memory is wanting.
fn with_numbers(
    alloc: Global,
    variable: u32,
    numbers: &[i128],
    combinations: &[Items<Picked>],
) -> Result<Items<Items<Picked>>, AllocError>
    ensures { IfOk result (λ made. made ≡ spec.with_numbers variable numbers.now combinations.now) }
{
    let mut made = Items::new(alloc);
    for number in numbers {
        push_with_number(alloc, &mut made, variable, *number, combinations)?;
    }
    Ok(made)
}

/// Combinations with each number that a variable takes more; as they are where it isn't opened. It fails where memory is wanting.
fn with_domain(
    alloc: Global,
    variable: u32,
    numbers: Option<Items<i128>>,
    combinations: Items<Items<Picked>>,
) -> Result<Items<Items<Picked>>, AllocError>
    ensures { IfOk result (λ made. made ≡ spec.with_domain variable numbers combinations) }
{
    match numbers {
        None => Ok(combinations),
        Some(numbers) => {
            with_numbers(alloc, variable, numbers.as_slice(), combinations.as_slice())
        }
    }
}

/// The one combination of no numbers. It fails where memory is wanting.
fn no_numbers(alloc: Global) -> Result<Items<Items<Picked>>, AllocError>
    ensures { IfOk result (λ made. made ≡ [] ∷ []) }
{
    let mut made = Items::new(alloc);
    made.push(Items::new(alloc))?;
    Ok(made)
}

/// The combinations of the numbers that these variables take under these conditions. It fails where memory is wanting.
fn combinations(
    alloc: Global,
    variables: &Variables<'_>,
    conditions: &[&Con],
    split: &[u32],
) -> Result<Items<Items<Picked>>, AllocError>
    ensures { IfOk result (λ made. made ≡ spec.combinations (meant variables.now) (map pointed conditions.now) split.now) }
{
    match split {
        [] => no_numbers(alloc),
        [variable, rest @ ..] => {
            let made = combinations(alloc, variables, conditions, rest)?;
            let numbers = domain(alloc, variables, *variable, conditions)?;
            with_domain(alloc, *variable, numbers, made)
        }
    }
}

/// Puts a combination at the end, where this is so. The one error is want of memory.
fn push_where(
    alloc: Global,
    made: &mut Items<Items<Picked>>,
    may: bool,
    combination: &[Picked],
) -> Result<(), AllocError>
    ensures { OnOk result (made.new ≡ made.old ++ spec.one_where may combination.now) }
{
    if may {
        return made.push(Items::from_slice(alloc, combination)?);
    }
    Ok(())
}

/// Those combinations under which no fact is constant and false, where these numbers are known. It fails where memory is wanting.
fn those_that_may(
    alloc: Global,
    numbers: &[Option<i128>],
    facts: &[Fact],
    combinations: &[Items<Picked>],
) -> Result<Items<Items<Picked>>, AllocError>
    ensures { IfOk result (λ made. made ≡ spec.those_that_may (known_of numbers.now) (conditions facts.now) combinations.now) }
{
    let mut made = Items::new(alloc);
    for combination in combinations {
        let picked = combination.as_slice();
        let may = may_hold(facts, &Variables::Known(numbers, picked));
        push_where(alloc, &mut made, may, picked)?;
    }
    Ok(made)
}

/// The combinations of numbers of split variables that count where these facts are in force, and the others are those of a type that is
/// opened there: one number for each variable that is opened by then, and those under which a fact in force is constant and false left out.
/// It fails where memory is wanting.
pub fn counted(
    alloc: Global,
    numbers: &[Option<i128>],
    split: &[u32],
    facts: &[Fact],
    own: &[Fact],
) -> Result<Items<Items<Picked>>, AllocError>
    ensures { IfOk result (λ made. made ≡ spec.counted (known_of numbers.now) split.now facts.now own.now) }
{
    let conditions = conditions_of(alloc, facts, own)?;
    let variables = Variables::Known(numbers, &[]);
    let made = combinations(alloc, &variables, conditions.as_slice(), split)?;
    those_that_may(alloc, numbers, facts, made.as_slice())
}
