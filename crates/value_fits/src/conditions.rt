//! Conditions on numbers and truths.
ghost use Rattle.std.specs.Prelude.{◌≡◌, ◌∷◌, [], option_map, IfOk, Some};
ghost use Rattle.sail_types.specs.Readings.{read_con as read_con_of};
ghost use Rattle.sail_types.specs.Sums.{read};
ghost use Rattle.value_indices.specs.Opening.{at_most as at_most_of, equal as equal_of, largest_num as largest, least_num as least};
ghost use Rattle.value_fits.specs.Fitting as fitting;

use crate::fitted::Fitted;
use crate::pairs::pair_count;
use sail_base::{Boxed, Items};
use sail_types::{Con, Index, Num, copy_con, copy_num, read_con, read_number};
use std::alloc::{AllocError, Global};
use value_indices::{at_most, equal, largest_num, least_num};

/// One condition. It fails where memory is wanting.
pub fn one(alloc: Global, condition: Option<Con>) -> Result<Items<Option<Con>>, AllocError>
    ensures { IfOk result (λ made. made ≡ condition ∷ []) }
{
    let mut made = Items::new(alloc);
    made.push(condition)?;
    Ok(made)
}

/// Two conditions. It fails where memory is wanting.
fn two(
    alloc: Global,
    first: Option<Con>,
    second: Option<Con>,
) -> Result<Items<Option<Con>>, AllocError>
    ensures { IfOk result (λ made. made ≡ first ∷ second ∷ []) }
{
    let mut made = one(alloc, first)?;
    made.push(second)?;
    Ok(made)
}

/// The second where the first is true. It fails where memory is wanting.
pub fn implies(alloc: Global, first: Con, second: Con) -> Result<Con, AllocError>
    ensures { IfOk result (λ made. made ≡ fitting.implies first second) }
{
    let mut made = Items::new(alloc);
    made.push(Con::Not(Boxed::new(alloc, first)?))?;
    made.push(second)?;
    Ok(Con::Any(made))
}

/// The second where the first is true; none where the second can't be said.
fn implies_if(alloc: Global, first: &Con, second: &Option<Con>) -> Result<Option<Con>, AllocError>
    ensures { IfOk result (λ made. made ≡ option_map (λ e. fitting.implies first.now e) second.now) }
{
    match second {
        None => Ok(None),
        Some(second) => {
            let first = copy_con(alloc, first)?;
            Ok(Some(implies(alloc, first, copy_con(alloc, second)?)?))
        }
    }
}

/// The second where the first is true; none where the first can't be said.
fn implied_if(alloc: Global, first: Option<Con>, second: &Con) -> Result<Option<Con>, AllocError>
    ensures { IfOk result (λ made. made ≡ option_map (λ e. fitting.implies e second.now) first) }
{
    match first {
        None => Ok(None),
        Some(first) => Ok(Some(implies(alloc, first, copy_con(alloc, second)?)?)),
    }
}

/// A truth is the one that is wanted, which is none where it can't be said. It fails where memory is wanting.
pub fn truth_fits(
    alloc: Global,
    truth: &Con,
    wanted: Option<Con>,
) -> Result<Items<Option<Con>>, AllocError>
    ensures { IfOk result (λ made. made ≡ fitting.truth_fits truth.now wanted) }
{
    let there = implies_if(alloc, truth, &wanted)?;
    let back = implied_if(alloc, wanted, truth)?;
    two(alloc, there, back)
}

/// A number is another, which is none where it can't be said.
fn equal_if(alloc: Global, number: &Num, wanted: Option<Num>) -> Result<Option<Con>, AllocError>
    ensures { IfOk result (λ made. made ≡ option_map (equal_of number.now) wanted) }
{
    match wanted {
        None => Ok(None),
        Some(wanted) => Ok(Some(equal(copy_num(alloc, number)?, wanted))),
    }
}

/// A number is the one that is wanted, which is none where it can't be said. It fails where memory is wanting.
pub fn number_fits(
    alloc: Global,
    number: &Num,
    wanted: Option<Num>,
) -> Result<Items<Option<Con>>, AllocError>
    ensures { IfOk result (λ made. made ≡ fitting.number_fits number.now wanted) }
{
    let condition = equal_if(alloc, number, wanted)?;
    one(alloc, condition)
}

fn at_least_if(alloc: Global, number: &Num, low: Option<Num>) -> Result<Option<Con>, AllocError>
    ensures { IfOk result (λ made. made ≡ option_map (λ a. at_most_of a number.now) low) }
{
    match low {
        None => Ok(None),
        Some(low) => Ok(Some(at_most(low, copy_num(alloc, number)?))),
    }
}

fn at_most_if(alloc: Global, number: &Num, high: Option<Num>) -> Result<Option<Con>, AllocError>
    ensures { IfOk result (λ made. made ≡ option_map (λ b. at_most_of number.now b) high) }
{
    match high {
        None => Ok(None),
        Some(high) => Ok(Some(at_most(copy_num(alloc, number)?, high))),
    }
}

/// A number is between two others, each of which is none where it can't be said.
fn in_range(
    alloc: Global,
    number: &Num,
    low: Option<Num>,
    high: Option<Num>,
) -> Result<Items<Option<Con>>, AllocError>
    ensures { IfOk result (λ made. made ≡ fitting.in_range number.now low high) }
{
    let above = at_least_if(alloc, number, low)?;
    let below = at_most_if(alloc, number, high)?;
    two(alloc, above, below)
}

/// An argument is another of its kind.
fn index_fits(
    alloc: Global,
    index: &Index,
    wanted: &Index,
) -> Result<Items<Option<Con>>, AllocError>
    ensures { IfOk result (λ made. made ≡ fitting.index_fits index.now wanted.now) }
{
    match (index, wanted) {
        (Index::Number(number), Index::Number(wanted)) => {
            let wanted = copy_num(alloc, wanted)?;
            number_fits(alloc, number, Some(wanted))
        }
        (Index::Truth(truth), Index::Truth(wanted)) => {
            let wanted = copy_con(alloc, wanted)?;
            truth_fits(alloc, truth, Some(wanted))
        }
        _ => one(alloc, Some(Con::Truth(false))),
    }
}

/// Arguments are others, in order; what is false where there are more of either. It fails where memory is wanting.
pub fn indices_fit(
    alloc: Global,
    indices: &[Index],
    wanted: &[Index],
) -> Result<Items<Option<Con>>, AllocError>
    ensures { IfOk result (λ made. made ≡ fitting.indices_fit indices.now wanted.now) }
{
    let count = pair_count(indices.len(), wanted.len());
    let mut made = Items::new(alloc);
    for index in 0..count {
        made.append(index_fits(alloc, &indices[index], &wanted[index])?)?;
    }
    if indices.len() == wanted.len() {
        return Ok(made);
    }
    made.push(Some(Con::Truth(false)))?;
    Ok(made)
}

/// A number is what another is where its variables stand for these arguments. It fails where memory is wanting.
pub fn number_under(
    alloc: Global,
    number: &Num,
    wanted: &Num,
    indices: &[Index],
    next: u32,
) -> Result<Fitted, AllocError>
    ensures { IfOk result (λ made. made ≡ fitting.says (fitting.number_fits number.now (read indices.now wanted.now)) next) }
{
    let wanted = read_number(alloc, wanted, indices)?;
    let conditions = number_fits(alloc, number, wanted)?;
    Ok(Fitted::says(alloc, conditions, next))
}

/// A number is another. It fails where memory is wanting.
pub fn number_is(alloc: Global, number: &Num, wanted: &Num, next: u32) -> Result<Fitted, AllocError>
    ensures { IfOk result (λ made. made ≡ fitting.says (fitting.number_fits number.now (Some wanted.now)) next) }
{
    let wanted = copy_num(alloc, wanted)?;
    let conditions = number_fits(alloc, number, Some(wanted))?;
    Ok(Fitted::says(alloc, conditions, next))
}

/// A truth is what another is where its variables stand for these arguments. It fails where memory is wanting.
pub fn truth_under(
    alloc: Global,
    truth: &Con,
    wanted: &Con,
    indices: &[Index],
    next: u32,
) -> Result<Fitted, AllocError>
    ensures { IfOk result (λ made. made ≡ fitting.says (fitting.truth_fits truth.now (read_con_of indices.now wanted.now)) next) }
{
    let wanted = read_con(alloc, wanted, indices)?;
    let conditions = truth_fits(alloc, truth, wanted)?;
    Ok(Fitted::says(alloc, conditions, next))
}

/// A number is between what two others are where their variables stand for these arguments. It fails where memory is wanting.
pub fn range_under(
    alloc: Global,
    number: &Num,
    low: &Num,
    high: &Num,
    indices: &[Index],
    next: u32,
) -> Result<Fitted, AllocError>
    ensures { IfOk result (λ made. made
        ≡ fitting.says (fitting.in_range number.now (read indices.now low.now) (read indices.now high.now)) next) }
{
    let low = read_number(alloc, low, indices)?;
    let high = read_number(alloc, high, indices)?;
    let conditions = in_range(alloc, number, low, high)?;
    Ok(Fitted::says(alloc, conditions, next))
}

/// A number is an integer, from the least one to the largest one. It fails where memory is wanting.
pub fn any_integer_fits(alloc: Global, number: &Num, next: u32) -> Result<Fitted, AllocError>
    ensures { IfOk result (λ made. made ≡ fitting.says (fitting.in_range number.now (Some least) (Some largest)) next) }
{
    let conditions = in_range(
        alloc,
        number,
        Some(least_num(alloc)),
        Some(largest_num(alloc)),
    )?;
    Ok(Fitted::says(alloc, conditions, next))
}
