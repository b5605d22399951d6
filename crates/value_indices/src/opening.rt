//! What is known of a number, a width or a length where a value is opened, with fresh variables for what can't be said.
ghost use Rattle.std.specs.Prelude.{◌≡◌, IfOk, OnOk};
ghost use Rattle.value_indices.specs.Opening as opening;
ghost use Rattle.value_indices.specs.Walking as walk;

use crate::indices::{Indices, Naming, Reading};
use crate::walking::Walking;
use sail_base::{Boxed, Items};
use sail_types::{Comparison, Con, Index, Num, copy_num, read_index};
use std::alloc::{AllocError, Global};

/// `t <= u`
pub fn at_most(low: Num, high: Num) -> Con
    ensures { result ≡ opening.at_most low high }
{
    Con::Compare(Comparison::LessEqual, low, high)
}

/// `t == u`
pub fn equal(left: Num, right: Num) -> Con
    ensures { result ≡ opening.equal left right }
{
    Con::Compare(Comparison::Equal, left, right)
}

/// The largest integer. It takes no memory.
pub fn largest_num(alloc: Global) -> Num
    ensures { result ≡ opening.largest_num }
{
    Num::constant(alloc, 85070591730234615865843651857942052864)
}

/// The least integer. It takes no memory.
pub fn least_num(alloc: Global) -> Num
    ensures { result ≡ opening.least_num }
{
    Num::constant(alloc, -85070591730234615865843651857942052864)
}

/// 0. It takes no memory.
pub fn zero_num(alloc: Global) -> Num
    ensures { result ≡ opening.zero_num }
{
    Num::constant(alloc, 0)
}

/// The largest width. It takes no memory.
#[tactic(auto, unfolding(crate::specs::Opening::widest))]
fn widest(alloc: Global) -> Num
    ensures { result ≡ opening.widest }
{
    Num::constant(alloc, 128)
}

/// The largest length. It takes no memory.
#[tactic(auto, unfolding(crate::specs::Opening::longest))]
fn longest(alloc: Global) -> Num
    ensures { result ≡ opening.longest }
{
    Num::constant(alloc, 4096)
}

/// A number is from one to another: two facts, the lower bound first. It fails where memory is wanting.
#[tactic(auto, using(crate::proofs::Walks::walks), unfolding(crate::specs::Opening::between))]
pub fn between(
    alloc: Global,
    walked: &mut Walking,
    low: Num,
    number: &Num,
    high: Num,
) -> Result<(), AllocError>
    ensures { OnOk result (walk.seen walked.new ≡ walk.run (opening.between low number.now high) (walk.seen walked.old)) }
{
    walked.assume(at_most(low, copy_num(alloc, number)?))?;
    walked.assume(at_most(copy_num(alloc, number)?, high))
}

/// A variable for an integer, with its bounds. It fails where memory is wanting, and where variables are too many.
#[tactic(auto, using(crate::proofs::Walks::walks), unfolding(crate::specs::Opening::fresh_integer))]
pub fn fresh_integer(alloc: Global, walked: &mut Walking) -> Result<Num, AllocError>
    ensures value { IfOk result (λ number. number ≡ walk.got opening.fresh_integer (walk.seen walked.old)) }
    ensures walked { OnOk result (walk.seen walked.new ≡ walk.run opening.fresh_integer (walk.seen walked.old)) }
{
    let number = Num::variable(alloc, walked.fresh()?)?;
    between(alloc, walked, least_num(alloc), &number, largest_num(alloc))?;
    Ok(number)
}

/// A number, or a variable for one that can't be said. It fails where memory is wanting, and where variables are too many.
#[tactic(auto, using(crate::proofs::Walks::walks), unfolding(crate::specs::Opening::number_or_fresh))]
pub fn number_or_fresh(
    alloc: Global,
    walked: &mut Walking,
    number: Option<Num>,
) -> Result<Num, AllocError>
    ensures value { IfOk result (λ made. made ≡ walk.got (opening.number_or_fresh number) (walk.seen walked.old)) }
    ensures walked { OnOk result (walk.seen walked.new ≡ walk.run (opening.number_or_fresh number) (walk.seen walked.old)) }
{
    match number {
        None => fresh_integer(alloc, walked),
        Some(number) => Ok(number),
    }
}

/// A truth, or a variable for one that can't be said. It fails where memory is wanting, and where variables are too many.
#[tactic(auto, using(crate::proofs::Walks::walks), unfolding(crate::specs::Opening::truth_or_fresh))]
pub fn truth_or_fresh(walked: &mut Walking, truth: Option<Con>) -> Result<Con, AllocError>
    ensures value { IfOk result (λ made. made ≡ walk.got (opening.truth_or_fresh truth) (walk.seen walked.old)) }
    ensures walked { OnOk result (walk.seen walked.new ≡ walk.run (opening.truth_or_fresh truth) (walk.seen walked.old)) }
{
    match truth {
        None => Ok(Con::Holds(walked.fresh()?)),
        Some(truth) => Ok(truth),
    }
}

/// An argument, or a variable for one of that kind that can't be said, of which nothing is known. It fails where memory is wanting, and where variables are too many.
#[tactic(auto, using(crate::proofs::Walks::walks), unfolding(crate::specs::Opening::index_or_fresh))]
pub fn index_or_fresh(
    alloc: Global,
    walked: &mut Walking,
    kind: &Index,
    index: Option<Index>,
) -> Result<Index, AllocError>
    ensures value { IfOk result (λ made. made ≡ walk.got (opening.index_or_fresh kind.now index) (walk.seen walked.old)) }
    ensures walked { OnOk result (walk.seen walked.new ≡ walk.run (opening.index_or_fresh kind.now index) (walk.seen walked.old)) }
{
    if let Some(index) = index {
        return Ok(index);
    }
    match kind {
        Index::Number(_) => Ok(Index::Number(Num::variable(alloc, walked.fresh()?)?)),
        Index::Truth(_) => Ok(Index::Truth(Con::Holds(walked.fresh()?))),
    }
}

/// An argument read under what its variables stand for, or a variable where it can't be said. It fails where memory is wanting, and
/// where variables are too many.
#[tactic(auto, using(crate::proofs::Walks::walks), unfolding(crate::specs::Opening::read_or_fresh))]
pub fn read_or_fresh(
    alloc: Global,
    walked: &mut Walking,
    indices: &[Index],
    index: &Index,
) -> Result<Index, AllocError>
    ensures value { IfOk result (λ made. made ≡ walk.got (opening.read_or_fresh indices.now index.now) (walk.seen walked.old)) }
    ensures walked { OnOk result (walk.seen walked.new ≡ walk.run (opening.read_or_fresh indices.now index.now) (walk.seen walked.old)) }
{
    let read = read_index(alloc, index, indices)?;
    index_or_fresh(alloc, walked, index, read)
}

/// Arguments read so, in order. It fails where memory is wanting, and where variables are too many.
#[tactic(auto, unfolding(crate::specs::Opening::each_read))]
pub fn read_each_or_fresh(
    alloc: Global,
    walked: &mut Walking,
    indices: &[Index],
    arguments: &[Index],
) -> Result<Items<Index>, AllocError>
    ensures value { IfOk result (λ made. made ≡ walk.got (opening.each_read indices.now arguments.now) (walk.seen walked.old)) }
    ensures walked { OnOk result (walk.seen walked.new ≡ walk.run (opening.each_read indices.now arguments.now) (walk.seen walked.old)) }
{
    let mut made = Items::new(alloc);
    for argument in arguments {
        made.push(read_or_fresh(alloc, walked, indices, argument)?)?;
    }
    Ok(made)
}

/// A variable, with the name of what is opened, if that has one. It fails where memory is wanting, and where variables are too many.
#[tactic(auto, using(crate::proofs::Walks::walks), unfolding(crate::specs::Opening::fresh_for))]
pub fn fresh_for(walked: &mut Walking, naming: &Naming) -> Result<u32, AllocError>
    ensures value { IfOk result (λ variable. variable ≡ walk.got (opening.fresh_for naming.now) (walk.seen walked.old)) }
    ensures walked { OnOk result (walk.seen walked.new ≡ walk.run (opening.fresh_for naming.now) (walk.seen walked.old)) }
{
    match naming {
        Naming::Named(name) => walked.fresh_named(name.clone()?),
        _ => walked.fresh(),
    }
}

/// That a number isn't below a bound that can be said.
pub fn bound_below(low: Option<Num>, number: Num) -> Option<Con>
    ensures { result ≡ opening.bound_below low number }
{
    match low {
        None => None,
        Some(low) => Some(at_most(low, number)),
    }
}

/// That a number isn't above a bound that can be said.
pub fn bound_above(number: Num, high: Option<Num>) -> Option<Con>
    ensures { result ≡ opening.bound_above number high }
{
    match high {
        None => None,
        Some(high) => Some(at_most(number, high)),
    }
}

/// A variable for an integer from one number to another. It fails where memory is wanting, and where variables are too many.
#[tactic(auto, using(crate::proofs::Walks::walks), unfolding(crate::specs::Opening::integer_between))]
pub fn integer_between(
    alloc: Global,
    walked: &mut Walking,
    naming: &Naming,
    low: Option<Num>,
    high: Option<Num>,
) -> Result<Indices, AllocError>
    ensures value { IfOk result (λ made. made ≡ walk.got (opening.integer_between naming.now low high) (walk.seen walked.old)) }
    ensures walked { OnOk result (walk.seen walked.new ≡ walk.run (opening.integer_between naming.now low high) (walk.seen walked.old)) }
{
    let number = Num::variable(alloc, fresh_for(walked, naming)?)?;
    walked.assume_if(bound_below(low, copy_num(alloc, &number)?))?;
    walked.assume_if(bound_above(copy_num(alloc, &number)?, high))?;
    Ok(Indices::Integer(number))
}

/// A variable for any integer. It fails where memory is wanting, and where variables are too many.
#[tactic(auto, using(crate::proofs::Walks::walks), unfolding(crate::specs::Opening::any_integer))]
pub fn any_integer(
    alloc: Global,
    walked: &mut Walking,
    naming: &Naming,
) -> Result<Indices, AllocError>
    ensures value { IfOk result (λ made. made ≡ walk.got (opening.any_integer naming.now) (walk.seen walked.old)) }
    ensures walked { OnOk result (walk.seen walked.new ≡ walk.run (opening.any_integer naming.now) (walk.seen walked.old)) }
{
    integer_between(
        alloc,
        walked,
        naming,
        Some(least_num(alloc)),
        Some(largest_num(alloc)),
    )
}

/// A variable for any truth. It fails where memory is wanting, and where variables are too many.
#[tactic(auto, using(crate::proofs::Walks::walks), unfolding(crate::specs::Opening::any_truth))]
pub fn any_truth(walked: &mut Walking, naming: &Naming) -> Result<Indices, AllocError>
    ensures value { IfOk result (λ made. made ≡ walk.got (opening.any_truth naming.now) (walk.seen walked.old)) }
    ensures walked { OnOk result (walk.seen walked.new ≡ walk.run (opening.any_truth naming.now) (walk.seen walked.old)) }
{
    Ok(Indices::Truth(Con::Holds(fresh_for(walked, naming)?)))
}

/// Bits of a width, which is from 0 to the largest one. It fails where memory is wanting.
#[tactic(auto, using(crate::proofs::Walks::walks), unfolding(crate::specs::Opening::bits_of, crate::specs::Opening::widest))]
pub fn bits_of(alloc: Global, walked: &mut Walking, width: Num) -> Result<Indices, AllocError>
    ensures value { IfOk result (λ made. made ≡ walk.got (opening.bits_of width) (walk.seen walked.old)) }
    ensures walked { OnOk result (walk.seen walked.new ≡ walk.run (opening.bits_of width) (walk.seen walked.old)) }
{
    between(alloc, walked, zero_num(alloc), &width, widest(alloc))?;
    Ok(Indices::Bits(width))
}

/// A vector of a length, which is from 0 to the largest one, and of items of this type. It fails where memory is wanting.
#[tactic(auto, using(crate::proofs::Walks::walks), unfolding(crate::specs::Opening::vector_of, crate::specs::Opening::longest))]
pub fn vector_of(
    alloc: Global,
    walked: &mut Walking,
    item: Reading,
    length: Num,
) -> Result<Indices, AllocError>
    ensures value { IfOk result (λ made. made ≡ walk.got (opening.vector_of item length) (walk.seen walked.old)) }
    ensures walked { OnOk result (walk.seen walked.new ≡ walk.run (opening.vector_of item length) (walk.seen walked.old)) }
{
    between(alloc, walked, zero_num(alloc), &length, longest(alloc))?;
    Ok(Indices::Vector(length, Boxed::new(alloc, item)?))
}

/// The integer that is this number, which tells its bounds where those are told and it isn't constant. It fails where memory is
/// wanting.
#[tactic(auto, using(crate::proofs::Walks::walks), unfolding(crate::specs::Opening::integer_of))]
pub fn integer_of(
    alloc: Global,
    walked: &mut Walking,
    tells: bool,
    number: Num,
) -> Result<Indices, AllocError>
    ensures value { IfOk result (λ made. made ≡ walk.got (opening.integer_of tells number) (walk.seen walked.old)) }
    ensures walked { OnOk result (walk.seen walked.new ≡ walk.run (opening.integer_of tells number) (walk.seen walked.old)) }
{
    if tells {
        if !number.terms.is_empty() {
            between(alloc, walked, least_num(alloc), &number, largest_num(alloc))?;
        }
    }
    Ok(Indices::Integer(number))
}
