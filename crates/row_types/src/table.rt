//! The table of the builtins.
ghost use Rattle.std.specs.Prelude.{◌≡◌, IfOk, [], ◌∷◌, ◌++◌, pos};
ghost use Rattle.sail_types.specs.Sums.{constant};
ghost use Rattle.sail_types.specs.declared.shapes.Shape.{out-Shape};
ghost use Rattle.row_types.specs.Formulas.{least, most, first, second, third, at_most as at_most_of};
ghost use Rattle.row_types.specs.Formulas.{equal as equal_of, within as within_of};
ghost use Rattle.row_types.specs.RowTypes.{with_product as with_product_of, under as under_of};
ghost use Rattle.row_types.specs.RowTypes.{bounded as bounded_of, any_integer as any_integer_of};
ghost use Rattle.row_types.specs.RowTypes.{bits_of_first as bits_of_first_of, alike as alike_of, wide as wide_of};
ghost use Rattle.row_types.specs.RowTypes.{access as access_of, bits_of_bytes as bits_of_bytes_of};
ghost use Rattle.row_types.specs.RowTypes.{compared as compared_of, row_type as row_type_of};

use crate::kinds::{Outcome, Product, RowType};
use crate::numbers::{
    LEAST, MOST, as_wide, at_least, at_most, equal, one, plus_times, times, times_power, two,
    up_to, within,
};
use sail_base::{Boxed, Items};
use sail_types::{Comparison, Con, Num, Row, Shape};
use std::alloc::{AllocError, Global};

/// What a call of a builtin owes over the numbers of its arguments, and what its result is, where the first
/// argument has this shape. `eq` and `neq` alone depend on it. It fails where memory is wanting.
pub fn row_type(alloc: Global, row: Row, shape: &Shape) -> Result<RowType, AllocError>
    ensures { IfOk result (λ made. made ≡ row_type_of row shape.now) }
{
    match row {
        Row::AddInt => bounded(alloc, Product::Nothing, plus_times(alloc, 0, 1, 1, 0)?),
        Row::SubInt => bounded(alloc, Product::Nothing, plus_times(alloc, 0, -1, 1, 0)?),
        Row::MultInt => bounded(alloc, Product::OfArguments, Num::variable(alloc, 4)?),
        Row::NegInt => Ok(free(alloc, Outcome::Integer(times(alloc, -1, 0, 0)?))),
        Row::Pow2 => power(alloc),
        Row::AbsInt => Ok(free(alloc, between(alloc, 0, MOST))),
        Row::MinInt => minimum(alloc),
        Row::MaxInt => maximum(alloc),
        Row::EdivInt => quotient(alloc),
        Row::EmodInt => rest(alloc),
        Row::TdivInt | Row::TmodInt => divided(alloc),
        Row::LtInt => comparison(alloc, Comparison::Less),
        Row::LteqInt => comparison(alloc, Comparison::LessEqual),
        Row::GtInt => comparison(alloc, Comparison::Greater),
        Row::GteqInt => comparison(alloc, Comparison::GreaterEqual),
        Row::Eq => compared(alloc, Comparison::Equal, shape),
        Row::Neq => compared(alloc, Comparison::NotEqual, shape),
        Row::NotBool => negation(alloc),
        Row::AddBits | Row::SubBits | Row::MultBits | Row::AndBits | Row::OrBits | Row::XorBits =>
            alike(alloc, Outcome::Bits(Num::variable(alloc, 0)?)),
        Row::AddBitsInt
        | Row::SubBitsInt
        | Row::NotBits
        | Row::ShiftlBits
        | Row::ShiftrBits
        | Row::ArithShiftrBits => Ok(free(alloc, Outcome::Bits(Num::variable(alloc, 0)?))),
        Row::Shiftl | Row::Shiftr | Row::ArithShiftr => shifted(alloc),
        Row::LtU
        | Row::LteqU
        | Row::GtU
        | Row::GteqU
        | Row::LtS
        | Row::LteqS
        | Row::GtS
        | Row::GteqS => alike(alloc, Outcome::Bool),
        Row::Append => Ok(free(alloc, Outcome::Bits(plus_times(alloc, 0, 1, 1, 0)?))),
        Row::ZeroExtend | Row::SignExtend => extended(alloc),
        Row::Truncate => truncated(alloc),
        Row::Zeros | Row::Ones | Row::ToBits => bits_of_first(alloc),
        Row::ReplicateBits => replicated(alloc),
        Row::Unsigned => unsigned(alloc),
        Row::Signed => signed(alloc),
        Row::Length => Ok(free(alloc, Outcome::Integer(Num::variable(alloc, 0)?))),
        Row::MulWideUu | Row::MulWideSs | Row::MulWideSu => wide(alloc),
        Row::CountLeadingZeros => counted(alloc),
        Row::BoolToBits => Ok(free(alloc, Outcome::Bits(Num::constant(alloc, 1)))),
        Row::VectorInit => repeated(alloc),
        Row::ConcatStr | Row::DecStr | Row::BitsStr => Ok(free(alloc, Outcome::String)),
        Row::MemRead | Row::MemReserve => read(alloc),
        Row::MemWrite => written(alloc, Outcome::Unit),
        Row::MemWriteCond => written(alloc, Outcome::Bool),
        Row::MemMapped => Ok(under(access(alloc)?, Outcome::Bool)),
        Row::Print | Row::PrintEndline => Ok(free(alloc, Outcome::Unit)),
        Row::ConsolePut => put(alloc),
    }
}

fn with_product(product: Product, conditions: Items<Con>, outcome: Outcome) -> RowType
    ensures { result ≡ with_product_of product conditions outcome }
{
    RowType {
        conditions,
        product,
        outcome,
    }
}

fn under(conditions: Items<Con>, outcome: Outcome) -> RowType
    ensures { result ≡ under_of conditions outcome }
{
    with_product(Product::Nothing, conditions, outcome)
}

/// A result that owes nothing.
fn free(alloc: Global, outcome: Outcome) -> RowType
    ensures { result ≡ under_of [] outcome }
{
    under(Items::new(alloc), outcome)
}

/// An integer, which has to be from the least to the largest.
fn bounded(alloc: Global, product: Product, number: Num) -> Result<RowType, AllocError>
    ensures { IfOk result (λ made. made ≡ bounded_of product number) }
{
    let conditions = within(alloc, LEAST, &number, MOST)?;
    Ok(with_product(product, conditions, Outcome::Integer(number)))
}

/// An integer between two, of which no more is known.
fn between(alloc: Global, low: i128, high: i128) -> Outcome
    ensures { result ≡ Outcome.Fresh (constant low) (constant high) [] }
{
    let low = Num::constant(alloc, low);
    Outcome::Fresh(low, Num::constant(alloc, high), Items::new(alloc))
}

/// An integer from the least to the largest, of which these are true.
fn known(alloc: Global, facts: Items<Con>) -> Outcome
    ensures { result ≡ Outcome.Fresh (constant least) (constant most) facts }
{
    let low = Num::constant(alloc, LEAST);
    Outcome::Fresh(low, Num::constant(alloc, MOST), facts)
}

fn power(alloc: Global) -> Result<RowType, AllocError>
    ensures { IfOk result (λ made. made ≡ row_type_of Row.Pow2 Shape.Int) }
{
    let conditions = within(alloc, 0, &Num::variable(alloc, 0)?, 126)?;
    Ok(under(conditions, Outcome::Integer(times_power(alloc, 1, 0, 0)?)))
}

fn minimum(alloc: Global) -> Result<RowType, AllocError>
    ensures { IfOk result (λ made. made ≡ row_type_of Row.MinInt Shape.Int) }
{
    let facts = two(alloc, at_most(alloc, 3, 0)?, at_most(alloc, 3, 1)?)?;
    Ok(free(alloc, known(alloc, facts)))
}

fn maximum(alloc: Global) -> Result<RowType, AllocError>
    ensures { IfOk result (λ made. made ≡ row_type_of Row.MaxInt Shape.Int) }
{
    let facts = two(alloc, at_most(alloc, 0, 3)?, at_most(alloc, 1, 3)?)?;
    Ok(free(alloc, known(alloc, facts)))
}

/// The quotient rounded down: where the divisor is a constant, it says between which of its multiples the
/// dividend is.
fn quotient(alloc: Global) -> Result<RowType, AllocError>
    ensures { IfOk result (λ made. made ≡ row_type_of Row.EdivInt Shape.Int) }
{
    let dividend = Num::variable(alloc, 0)?;
    let end = plus_times(alloc, 4, 1, 1, -1)?;
    let above = Con::Compare(Comparison::LessEqual, dividend, end);
    let facts = two(alloc, at_most(alloc, 4, 0)?, above)?;
    let conditions = one(alloc, at_least(alloc, 1, 1)?)?;
    Ok(with_product(Product::OfResult, conditions, known(alloc, facts)))
}

fn rest(alloc: Global) -> Result<RowType, AllocError>
    ensures { IfOk result (λ made. made ≡ row_type_of Row.EmodInt Shape.Int) }
{
    let conditions = one(alloc, at_least(alloc, 1, 1)?)?;
    let low = Num::constant(alloc, 0);
    let high = times(alloc, 1, 1, -1)?;
    Ok(under(conditions, Outcome::Fresh(low, high, Items::new(alloc))))
}

fn divided(alloc: Global) -> Result<RowType, AllocError>
    ensures { IfOk result (λ made. made ≡ row_type_of Row.TdivInt Shape.Int) }
{
    let divisor = Num::variable(alloc, 1)?;
    let nonzero = Con::Compare(Comparison::NotEqual, divisor, Num::constant(alloc, 0));
    Ok(under(one(alloc, nonzero)?, between(alloc, LEAST, MOST)))
}

/// Two integers are compared.
fn comparison(alloc: Global, how: Comparison) -> Result<RowType, AllocError>
    ensures { IfOk result (λ made. made ≡ under_of [] (Outcome.Truth (Con.Compare how first second))) }
{
    let left = Num::variable(alloc, 0)?;
    let truth = Con::Compare(how, left, Num::variable(alloc, 1)?);
    Ok(free(alloc, Outcome::Truth(truth)))
}

/// Two values of a shape are compared.
fn compared(alloc: Global, how: Comparison, shape: &Shape) -> Result<RowType, AllocError>
    ensures { IfOk result (λ made. made ≡ compared_of how (out-Shape shape.now)) }
{
    match shape {
        Shape::Int => comparison(alloc, how),
        Shape::Bits => alike(alloc, Outcome::Bool),
        _ => Ok(free(alloc, Outcome::Bool)),
    }
}

fn negation(alloc: Global) -> Result<RowType, AllocError>
    ensures { IfOk result (λ made. made ≡ row_type_of Row.NotBool Shape.Bool) }
{
    let truth = Con::Not(Boxed::new(alloc, Con::Holds(0))?);
    Ok(free(alloc, Outcome::Truth(truth)))
}

/// Of two words that are as wide.
fn alike(alloc: Global, outcome: Outcome) -> Result<RowType, AllocError>
    ensures { IfOk result (λ made. made ≡ alike_of outcome) }
{
    Ok(under(as_wide(alloc)?, outcome))
}

fn shifted(alloc: Global) -> Result<RowType, AllocError>
    ensures { IfOk result (λ made. made ≡ row_type_of Row.Shiftl Shape.Bits) }
{
    let conditions = one(alloc, at_least(alloc, 0, 1)?)?;
    Ok(under(conditions, Outcome::Bits(Num::variable(alloc, 0)?)))
}

fn extended(alloc: Global) -> Result<RowType, AllocError>
    ensures { IfOk result (λ made. made ≡ row_type_of Row.ZeroExtend Shape.Int) }
{
    let conditions = one(alloc, at_most(alloc, 1, 0)?)?;
    Ok(under(conditions, Outcome::Bits(Num::variable(alloc, 0)?)))
}

fn truncated(alloc: Global) -> Result<RowType, AllocError>
    ensures { IfOk result (λ made. made ≡ row_type_of Row.Truncate Shape.Bits) }
{
    let conditions = two(alloc, at_least(alloc, 0, 1)?, at_most(alloc, 1, 0)?)?;
    Ok(under(conditions, Outcome::Bits(Num::variable(alloc, 1)?)))
}

/// So many bits as the first argument says.
fn bits_of_first(alloc: Global) -> Result<RowType, AllocError>
    ensures { IfOk result (λ made. made ≡ bits_of_first_of) }
{
    let conditions = one(alloc, at_least(alloc, 0, 0)?)?;
    Ok(under(conditions, Outcome::Bits(Num::variable(alloc, 0)?)))
}

fn replicated(alloc: Global) -> Result<RowType, AllocError>
    ensures { IfOk result (λ made. made ≡ row_type_of Row.ReplicateBits Shape.Bits) }
{
    let conditions = one(alloc, at_least(alloc, 0, 1)?)?;
    let outcome = Outcome::Bits(Num::variable(alloc, 4)?);
    Ok(with_product(Product::OfArguments, conditions, outcome))
}

fn unsigned(alloc: Global) -> Result<RowType, AllocError>
    ensures { IfOk result (λ made. made ≡ row_type_of Row.Unsigned Shape.Bits) }
{
    let conditions = one(alloc, up_to(alloc, 0, 126)?)?;
    let low = Num::constant(alloc, 0);
    let high = times_power(alloc, 1, 0, -1)?;
    Ok(under(conditions, Outcome::Fresh(low, high, Items::new(alloc))))
}

fn signed(alloc: Global) -> Result<RowType, AllocError>
    ensures { IfOk result (λ made. made ≡ row_type_of Row.Signed Shape.Bits) }
{
    let conditions = two(alloc, up_to(alloc, 0, 126)?, at_least(alloc, 1, 0)?)?;
    let low = times_power(alloc, -1, -1, 0)?;
    let high = times_power(alloc, 1, -1, -1)?;
    Ok(under(conditions, Outcome::Fresh(low, high, Items::new(alloc))))
}

/// A word twice as wide as each of two.
fn wide(alloc: Global) -> Result<RowType, AllocError>
    ensures { IfOk result (λ made. made ≡ wide_of) }
{
    let mut conditions = as_wide(alloc)?;
    conditions.push(up_to(alloc, 0, 64)?)?;
    Ok(under(conditions, Outcome::Bits(times(alloc, 2, 0, 0)?)))
}

fn counted(alloc: Global) -> Result<RowType, AllocError>
    ensures { IfOk result (λ made. made ≡ row_type_of Row.CountLeadingZeros Shape.Bits) }
{
    let low = Num::constant(alloc, 0);
    let high = Num::variable(alloc, 0)?;
    Ok(free(alloc, Outcome::Fresh(low, high, Items::new(alloc))))
}

fn repeated(alloc: Global) -> Result<RowType, AllocError>
    ensures { IfOk result (λ made. made ≡ row_type_of Row.VectorInit Shape.Int) }
{
    let conditions = one(alloc, at_least(alloc, 0, 0)?)?;
    Ok(under(conditions, Outcome::Vector(Num::variable(alloc, 0)?)))
}

/// A count of bytes from 1 to 16, and an address of 64 bits.
fn access(alloc: Global) -> Result<Items<Con>, AllocError>
    ensures { IfOk result (λ made. made ≡ access_of) }
{
    let mut conditions = within(alloc, 1, &Num::variable(alloc, 0)?, 16)?;
    conditions.push(equal(alloc, 1, Num::constant(alloc, 64))?)?;
    Ok(conditions)
}

fn read(alloc: Global) -> Result<RowType, AllocError>
    ensures { IfOk result (λ made. made ≡ row_type_of Row.MemRead Shape.Int) }
{
    let outcome = Outcome::Bits(times(alloc, 8, 0, 0)?);
    Ok(under(access(alloc)?, outcome))
}

/// What is written has eight bits for each byte.
fn written(alloc: Global, outcome: Outcome) -> Result<RowType, AllocError>
    ensures { IfOk result (λ made. made ≡ under_of (access_of ++ equal_of third bits_of_bytes_of ∷ []) outcome) }
{
    let mut conditions = access(alloc)?;
    conditions.push(equal(alloc, 2, times(alloc, 8, 0, 0)?)?)?;
    Ok(under(conditions, outcome))
}

fn put(alloc: Global) -> Result<RowType, AllocError>
    ensures { IfOk result (λ made. made ≡ row_type_of Row.ConsolePut Shape.Bits) }
{
    let conditions = one(alloc, equal(alloc, 0, Num::constant(alloc, 8))?)?;
    Ok(under(conditions, Outcome::Unit))
}
