//! Constraints and arguments: copies, equality, and what they become under what their variables stand for.
ghost use Rattle.std.specs.Prelude.{◌≡◌, ◌↔◌, IsTrue, IfOk, map};
ghost use Rattle.sail_types.specs.Readings.{together, truth_at, read_con as read_con_of, read_index as read_index_of};
ghost use Rattle.sail_types.specs.Readings.{read_indices as read_indices_of};

use crate::numbers::{Comparison, Con, Index};
use crate::small::{both, same_integers, same_place, same_truth};
use crate::substitution::read_number;
use crate::sums::{copy_num, same_num};
use sail_base::{Boxed, Items};
use std::alloc::{AllocError, Global};

/// The same constraint once more. It fails where memory is wanting.
#[cycle(copy_con)]
pub fn copy_con(alloc: Global, con: &Con) -> Result<Con, AllocError>
    ensures { IfOk result (λ copy. copy ≡ con.now) }
{
    match con {
        Con::Truth(truth) => Ok(Con::Truth(*truth)),
        Con::Holds(number) => Ok(Con::Holds(*number)),
        Con::Compare(how, left, right) => {
            let left = copy_num(alloc, left)?;
            Ok(Con::Compare(*how, left, copy_num(alloc, right)?))
        }
        Con::OneOf(number, choices) => {
            let number = copy_num(alloc, number)?;
            Ok(Con::OneOf(number, Items::from_slice(alloc, choices.as_slice())?))
        }
        Con::Not(part) => {
            let part = copy_con(alloc, part.get())?;
            Ok(Con::Not(Boxed::new(alloc, part)?))
        }
        Con::All(parts) => Ok(Con::All(copy_cons(alloc, parts.as_slice())?)),
        Con::Any(parts) => Ok(Con::Any(copy_cons(alloc, parts.as_slice())?)),
    }
}

#[cycle(copy_con)]
fn copy_cons(alloc: Global, parts: &[Con]) -> Result<Items<Con>, AllocError>
    ensures { IfOk result (λ copy. copy ≡ parts.now) }
{
    let mut copies = Items::new(alloc);
    for part in parts {
        copies.push(copy_con(alloc, part)?)?;
    }
    Ok(copies)
}

/// Whether two constraints are the same.
#[cycle(same_con)]
pub fn same_con(a: &Con, b: &Con) -> bool
    ensures { IsTrue result ↔ (a.now ≡ b.now) }
{
    match (a, b) {
        (Con::Truth(truth), Con::Truth(other)) => same_truth(*truth, *other),
        (Con::Holds(number), Con::Holds(other)) => same_place(*number, *other),
        (Con::Compare(how, left, right), Con::Compare(other, other_left, other_right)) => both(
            both(same_comparison(how, other), same_num(left, other_left)),
            same_num(right, other_right),
        ),
        (Con::OneOf(number, choices), Con::OneOf(other, others)) => both(
            same_num(number, other),
            same_integers(choices.as_slice(), others.as_slice()),
        ),
        (Con::Not(part), Con::Not(other)) => same_con(part.get(), other.get()),
        (Con::All(parts), Con::All(others)) => same_cons(parts.as_slice(), others.as_slice()),
        (Con::Any(parts), Con::Any(others)) => same_cons(parts.as_slice(), others.as_slice()),
        _ => false,
    }
}

#[cycle(same_con)]
fn same_cons(a: &[Con], b: &[Con]) -> bool
    ensures { IsTrue result ↔ (a.now ≡ b.now) }
{
    if a.len() != b.len() {
        return false;
    }
    let mut at = 0;
    for item in a {
        if !same_con(item, &b[at]) {
            return false;
        }
        at += 1;
    }
    true
}

fn same_comparison(a: &Comparison, b: &Comparison) -> bool
    ensures { IsTrue result ↔ (a.now ≡ b.now) }
{
    a == b
}

/// What a Bool variable stands for. It fails where memory is wanting.
fn truth(alloc: Global, indices: &[Index], number: u32) -> Result<Con, AllocError>
    ensures { IfOk result (λ made. made ≡ truth_at indices.now number) }
{
    match indices.get(number as usize) {
        Some(Index::Truth(con)) => copy_con(alloc, con),
        _ => Ok(Con::Truth(false)),
    }
}

/// A constraint read under what its variables stand for; none where a number past the largest integer
/// stands on the way. It fails where memory is wanting.
#[cycle(read_con)]
pub fn read_con(alloc: Global, con: &Con, indices: &[Index]) -> Result<Option<Con>, AllocError>
    ensures { IfOk result (λ made. made ≡ read_con_of indices.now con.now) }
{
    match con {
        Con::Truth(truth) => Ok(Some(Con::Truth(*truth))),
        Con::Holds(number) => Ok(Some(truth(alloc, indices, *number)?)),
        Con::Compare(how, left, right) => {
            let Some(left) = read_number(alloc, left, indices)? else {
                return Ok(None);
            };
            match read_number(alloc, right, indices)? {
                None => Ok(None),
                Some(right) => Ok(Some(Con::Compare(*how, left, right))),
            }
        }
        Con::OneOf(number, choices) => match read_number(alloc, number, indices)? {
            None => Ok(None),
            Some(number) => {
                let choices = Items::from_slice(alloc, choices.as_slice())?;
                Ok(Some(Con::OneOf(number, choices)))
            }
        },
        Con::Not(part) => match read_con(alloc, part.get(), indices)? {
            None => Ok(None),
            Some(part) => Ok(Some(Con::Not(Boxed::new(alloc, part)?))),
        },
        Con::All(parts) => match read_cons(alloc, parts.as_slice(), indices)? {
            None => Ok(None),
            Some(parts) => Ok(Some(Con::All(parts))),
        },
        Con::Any(parts) => match read_cons(alloc, parts.as_slice(), indices)? {
            None => Ok(None),
            Some(parts) => Ok(Some(Con::Any(parts))),
        },
    }
}

#[cycle(read_con)]
fn read_cons(
    alloc: Global,
    parts: &[Con],
    indices: &[Index],
) -> Result<Option<Items<Con>>, AllocError>
    ensures { IfOk result (λ made. made ≡ together (map (read_con_of indices.now) parts.now)) }
{
    let mut made = Items::new(alloc);
    for part in parts {
        match read_con(alloc, part, indices)? {
            None => return Ok(None),
            Some(read) => made.push(read)?,
        }
    }
    Ok(Some(made))
}

/// The same argument once more. It fails where memory is wanting.
pub fn copy_index(alloc: Global, index: &Index) -> Result<Index, AllocError>
    ensures { IfOk result (λ copy. copy ≡ index.now) }
{
    match index {
        Index::Number(number) => Ok(Index::Number(copy_num(alloc, number)?)),
        Index::Truth(con) => Ok(Index::Truth(copy_con(alloc, con)?)),
    }
}

/// Whether two arguments are the same.
pub fn same_index(a: &Index, b: &Index) -> bool
    ensures { IsTrue result ↔ (a.now ≡ b.now) }
{
    match (a, b) {
        (Index::Number(number), Index::Number(other)) => same_num(number, other),
        (Index::Truth(con), Index::Truth(other)) => same_con(con, other),
        _ => false,
    }
}

/// An argument read under what its variables stand for; none where a number past the largest integer stands
/// on the way. It fails where memory is wanting.
pub fn read_index(
    alloc: Global,
    index: &Index,
    indices: &[Index],
) -> Result<Option<Index>, AllocError>
    ensures { IfOk result (λ made. made ≡ read_index_of indices.now index.now) }
{
    match index {
        Index::Number(number) => match read_number(alloc, number, indices)? {
            None => Ok(None),
            Some(number) => Ok(Some(Index::Number(number))),
        },
        Index::Truth(con) => match read_con(alloc, con, indices)? {
            None => Ok(None),
            Some(con) => Ok(Some(Index::Truth(con))),
        },
    }
}

/// Arguments read under what their variables stand for; none where a number past the largest integer stands
/// on the way. It fails where memory is wanting.
pub fn read_indices(
    alloc: Global,
    items: &[Index],
    indices: &[Index],
) -> Result<Option<Items<Index>>, AllocError>
    ensures { IfOk result (λ made. made ≡ read_indices_of indices.now items.now) }
{
    let mut made = Items::new(alloc);
    for item in items {
        match read_index(alloc, item, indices)? {
            None => return Ok(None),
            Some(read) => made.push(read)?,
        }
    }
    Ok(Some(made))
}
