//! What the variables of a builtin's row stand for in a call.
ghost use Rattle.std.specs.Prelude.{◌≡◌, map, IfOk};
ghost use Rattle.call_notes.specs.Rows as rows;

use call_arguments::{is_below, is_con_below};
use row_types::Product;
use sail_base::Items;
use sail_types::{Con, Index, Num, copy_con, copy_num, multiply, read_con, read_number};
use std::alloc::{AllocError, Global};
use type_arguments::copy_indices;
use value_indices::Indices;

/// What the variables of a row stand for: the numbers of the arguments, that of the result, and the product.
#[derive(Drop)]
pub struct Numbers {
    /// What they stand for, in order.
    pub indices: Items<Index>,
    /// Whether the product is one that can be said. Where it isn't, 0 stands in its place.
    pub has_product: bool,
}

impl Numbers {
    /// A number where its variables stand for these; none where it can't be said. It fails where memory is wanting.
    pub fn number(&self, alloc: Global, number: &Num) -> Result<Option<Num>, AllocError>
        ensures { IfOk result (λ made. made ≡ rows.number_in self.now number.now) }
    {
        if self.has_product {
            return read_number(alloc, number, self.indices.as_slice());
        }
        if is_below(4, number) {
            return read_number(alloc, number, self.indices.as_slice());
        }
        Ok(None)
    }

    /// A condition where its variables stand for these; none where it can't be said. It fails where memory is wanting.
    pub fn condition(&self, alloc: Global, con: &Con) -> Result<Option<Con>, AllocError>
        ensures { IfOk result (λ made. made ≡ rows.condition_in self.now con.now) }
    {
        if self.has_product {
            return read_con(alloc, con, self.indices.as_slice());
        }
        if is_con_below(4, con) {
            return read_con(alloc, con, self.indices.as_slice());
        }
        Ok(None)
    }

    /// Conditions where their variables stand for these, in order. It fails where memory is wanting.
    pub fn conditions(&self, alloc: Global, cons: &[Con]) -> Result<Items<Option<Con>>, AllocError>
        ensures { IfOk result (λ made. made ≡ rows.conditions_in self.now cons.now) }
    {
        let mut made = Items::new(alloc);
        for con in cons {
            made.push(self.condition(alloc, con)?)?;
        }
        Ok(made)
    }
}

/// The number 0. It takes no memory.
fn zero_index(alloc: Global) -> Index
    ensures { result ≡ rows.zero_index }
{
    Index::Number(Num::constant(alloc, 0))
}

/// What stands for an argument: an integer itself, the width of bits, the length of a vector, a truth itself; 0 for any other. It fails
/// where memory is wanting.
pub fn argument_index(alloc: Global, value: &Indices) -> Result<Index, AllocError>
    ensures { IfOk result (λ made. made ≡ rows.argument_index value.now) }
{
    match value {
        Indices::Integer(number) => Ok(Index::Number(copy_num(alloc, number)?)),
        Indices::Bits(width) => Ok(Index::Number(copy_num(alloc, width)?)),
        Indices::Vector(length, _) => Ok(Index::Number(copy_num(alloc, length)?)),
        Indices::Truth(con) => Ok(Index::Truth(copy_con(alloc, con)?)),
        _ => Ok(zero_index(alloc)),
    }
}

/// What stands for the argument at a position; 0 where there is none.
fn index_at(alloc: Global, arguments: &[Indices], position: usize) -> Result<Index, AllocError>
    ensures { IfOk result (λ made. made ≡ rows.index_at arguments.now position) }
{
    match arguments.get(position) {
        None => Ok(zero_index(alloc)),
        Some(value) => argument_index(alloc, value),
    }
}

/// What stands for the first three arguments; 0 for each that isn't there. It fails where memory is wanting.
#[tactic(auto, using(crate::proofs::Firsts::three_at))]
pub fn three_indices(alloc: Global, arguments: &[Indices]) -> Result<Items<Index>, AllocError>
    ensures { IfOk result (λ made. made ≡ rows.three_indices (map rows.argument_index arguments.now)) }
{
    let mut made = Items::new(alloc);
    made.push(index_at(alloc, arguments, 0)?)?;
    made.push(index_at(alloc, arguments, 1)?)?;
    made.push(index_at(alloc, arguments, 2)?)?;
    Ok(made)
}

/// The number that a variable stands for; 0 where it stands for none. It fails where memory is wanting.
fn number_of(alloc: Global, indices: &[Index], variable: usize) -> Result<Num, AllocError>
    ensures { IfOk result (λ made. made ≡ rows.number_of indices.now variable) }
{
    match indices.get(variable) {
        None => Ok(Num::constant(alloc, 0)),
        Some(index) => match index {
            Index::Number(number) => copy_num(alloc, number),
            Index::Truth(_) => Ok(Num::constant(alloc, 0)),
        },
    }
}

/// The product that a row speaks of; none where it can't be said. It fails where memory is wanting.
fn product_of(
    alloc: Global,
    product: Product,
    indices: &[Index],
    answer: &Num,
) -> Result<Option<Num>, AllocError>
    ensures { IfOk result (λ made. made ≡ rows.product_of product indices.now answer.now) }
{
    match product {
        Product::Nothing => Ok(Some(Num::constant(alloc, 0))),
        Product::OfArguments => {
            let first = number_of(alloc, indices, 0)?;
            let second = number_of(alloc, indices, 1)?;
            multiply(alloc, &first, &second)
        }
        Product::OfResult => {
            let second = number_of(alloc, indices, 1)?;
            multiply(alloc, &second, answer)
        }
    }
}

/// What variables stand for behind those of the arguments.
fn with_product(
    alloc: Global,
    indices: &[Index],
    answer: &Num,
    product: Option<Num>,
) -> Result<Numbers, AllocError>
    ensures { IfOk result (λ made. made ≡ rows.with_product indices.now answer.now product) }
{
    let mut indices = copy_indices(alloc, indices)?;
    indices.push(Index::Number(copy_num(alloc, answer)?))?;
    match product {
        None => {
            indices.push(zero_index(alloc))?;
            Ok(Numbers {
                indices,
                has_product: false,
            })
        }
        Some(product) => {
            indices.push(Index::Number(product))?;
            Ok(Numbers {
                indices,
                has_product: true,
            })
        }
    }
}

/// What the variables of a row stand for, where the first three stand for these and the result is this number. It fails where memory is
/// wanting.
pub fn numbers_under(
    alloc: Global,
    product: Product,
    indices: &[Index],
    answer: &Num,
) -> Result<Numbers, AllocError>
    ensures { IfOk result (λ made. made ≡ rows.numbers_under product indices.now answer.now) }
{
    let product = product_of(alloc, product, indices, answer)?;
    with_product(alloc, indices, answer, product)
}

/// What is false.
fn false_alone(alloc: Global) -> Result<Items<Option<Con>>, AllocError>
    ensures { IfOk result (λ made. made ≡ rows.false_alone) }
{
    let mut made = Items::new(alloc);
    made.push(None)?;
    Ok(made)
}

/// What a call owes: what is false, where the row speaks of a product of two of its arguments that can't be said. It fails where memory
/// is wanting.
pub fn owed_by(
    alloc: Global,
    product: Product,
    numbers: &Numbers,
    cons: &[Con],
) -> Result<Items<Option<Con>>, AllocError>
    ensures { IfOk result (λ made. made ≡ rows.owed_by product numbers.now cons.now) }
{
    match product {
        Product::Nothing => numbers.conditions(alloc, cons),
        Product::OfArguments => {
            if numbers.has_product {
                numbers.conditions(alloc, cons)
            } else {
                false_alone(alloc)
            }
        }
        Product::OfResult => numbers.conditions(alloc, cons),
    }
}
