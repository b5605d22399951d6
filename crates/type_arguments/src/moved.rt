//! Numbers, constraints and types read one binder further in.
ghost use Rattle.std.specs.Prelude.{◌≡◌, IfOk, map};
ghost use Rattle.sail_types.specs.Readings.{together};
ghost use Rattle.type_arguments.specs.Moved.{next as next_of, moved as moved_of, moved_num as moved_num_of, moved_atom as moved_atom_of};
ghost use Rattle.type_arguments.specs.Moved.{moved_term as moved_term_of, moved_con as moved_con_of, moved_index as moved_index_of};
ghost use Rattle.type_arguments.specs.Moved.{moved_indices as moved_indices_of, moved_typ as moved_typ_of, moved_types as moved_types_of};

use sail_types::{Atom, Boxed, Con, Index, Items, Num, Term, Typ};
use std::alloc::{AllocError, Global};

/// The number behind a variable's; none past the largest.
fn next(number: u32) -> Option<u32>
    ensures { result ≡ next_of number }
{
    if number < u32::MAX {
        Some(number + 1)
    } else {
        None
    }
}

/// A variable's number, one further from the depth on.
fn moved(depth: u32, number: u32) -> Option<u32>
    ensures { result ≡ moved_of depth number }
{
    if number < depth {
        Some(number)
    } else {
        next(number)
    }
}

#[cycle(moved_num)]
fn moved_atom(alloc: Global, depth: u32, atom: &Atom) -> Result<Option<Atom>, AllocError>
    ensures { IfOk result (λ made. made ≡ moved_atom_of depth atom.now) }
{
    match atom {
        Atom::Variable(number) => match moved(depth, *number) {
            None => Ok(None),
            Some(number) => Ok(Some(Atom::Variable(number))),
        },
        Atom::Power(exponent) => match moved_num(alloc, depth, exponent.get())? {
            None => Ok(None),
            Some(exponent) => Ok(Some(Atom::Power(Boxed::new(alloc, exponent)?))),
        },
    }
}

/// A number read one binder further in: each variable from the depth on has the number behind its own; none
/// where that passes the largest of 32 bits. It fails where memory is wanting.
#[cycle(moved_num)]
pub fn moved_num(alloc: Global, depth: u32, number: &Num) -> Result<Option<Num>, AllocError>
    ensures { IfOk result (λ made. made ≡ moved_num_of depth number.now) }
{
    match moved_terms(alloc, depth, number.terms.as_slice())? {
        None => Ok(None),
        Some(terms) => Ok(Some(Num {
            terms,
            constant: number.constant,
        })),
    }
}

#[cycle(moved_num)]
fn moved_terms(alloc: Global, depth: u32, terms: &[Term]) -> Result<Option<Items<Term>>, AllocError>
    ensures { IfOk result (λ made. made ≡ together (map (moved_term_of depth) terms.now)) }
{
    let mut made = Items::new(alloc);
    for term in terms {
        match moved_term(alloc, depth, term)? {
            None => return Ok(None),
            Some(moved) => made.push(moved)?,
        }
    }
    Ok(Some(made))
}

#[cycle(moved_num)]
fn moved_term(alloc: Global, depth: u32, term: &Term) -> Result<Option<Term>, AllocError>
    ensures { IfOk result (λ made. made ≡ moved_term_of depth term.now) }
{
    match moved_atom(alloc, depth, &term.atom)? {
        None => Ok(None),
        Some(atom) => Ok(Some(Term {
            coefficient: term.coefficient,
            atom,
        })),
    }
}

/// A constraint read one binder further in: each variable from the depth on has the number behind its own;
/// none where that passes the largest of 32 bits. It fails where memory is wanting.
#[cycle(moved_con)]
pub fn moved_con(alloc: Global, depth: u32, con: &Con) -> Result<Option<Con>, AllocError>
    ensures { IfOk result (λ made. made ≡ moved_con_of depth con.now) }
{
    match con {
        Con::Truth(truth) => Ok(Some(Con::Truth(*truth))),
        Con::Holds(number) => match moved(depth, *number) {
            None => Ok(None),
            Some(number) => Ok(Some(Con::Holds(number))),
        },
        Con::Compare(how, left, right) => {
            let Some(left) = moved_num(alloc, depth, left)? else {
                return Ok(None);
            };
            match moved_num(alloc, depth, right)? {
                None => Ok(None),
                Some(right) => Ok(Some(Con::Compare(*how, left, right))),
            }
        }
        Con::OneOf(number, choices) => match moved_num(alloc, depth, number)? {
            None => Ok(None),
            Some(number) => {
                let choices = Items::from_slice(alloc, choices.as_slice())?;
                Ok(Some(Con::OneOf(number, choices)))
            }
        },
        Con::Not(part) => match moved_con(alloc, depth, part.get())? {
            None => Ok(None),
            Some(part) => Ok(Some(Con::Not(Boxed::new(alloc, part)?))),
        },
        Con::All(parts) => match moved_cons(alloc, depth, parts.as_slice())? {
            None => Ok(None),
            Some(parts) => Ok(Some(Con::All(parts))),
        },
        Con::Any(parts) => match moved_cons(alloc, depth, parts.as_slice())? {
            None => Ok(None),
            Some(parts) => Ok(Some(Con::Any(parts))),
        },
    }
}

#[cycle(moved_con)]
fn moved_cons(alloc: Global, depth: u32, parts: &[Con]) -> Result<Option<Items<Con>>, AllocError>
    ensures { IfOk result (λ made. made ≡ together (map (moved_con_of depth) parts.now)) }
{
    let mut made = Items::new(alloc);
    for part in parts {
        match moved_con(alloc, depth, part)? {
            None => return Ok(None),
            Some(moved) => made.push(moved)?,
        }
    }
    Ok(Some(made))
}

/// An argument read one binder further in, from the depth on; none where a variable's number would pass the
/// largest of 32 bits. It fails where memory is wanting.
pub fn moved_index(alloc: Global, depth: u32, index: &Index) -> Result<Option<Index>, AllocError>
    ensures { IfOk result (λ made. made ≡ moved_index_of depth index.now) }
{
    match index {
        Index::Number(number) => match moved_num(alloc, depth, number)? {
            None => Ok(None),
            Some(number) => Ok(Some(Index::Number(number))),
        },
        Index::Truth(con) => match moved_con(alloc, depth, con)? {
            None => Ok(None),
            Some(con) => Ok(Some(Index::Truth(con))),
        },
    }
}

/// Arguments read one binder further in, from the depth on; none where a variable's number would pass the
/// largest of 32 bits. It fails where memory is wanting.
pub fn moved_indices(
    alloc: Global,
    depth: u32,
    indices: &[Index],
) -> Result<Option<Items<Index>>, AllocError>
    ensures { IfOk result (λ made. made ≡ moved_indices_of depth indices.now) }
{
    let mut made = Items::new(alloc);
    for index in indices {
        match moved_index(alloc, depth, index)? {
            None => return Ok(None),
            Some(moved) => made.push(moved)?,
        }
    }
    Ok(Some(made))
}

#[tactic(auto, using(crate::proofs::Parts::moved_tuple, crate::proofs::Parts::moved_named))]
/// A type read one binder further in: each Int and Bool variable from the depth on has the number behind its
/// own; none where that, or a depth inside, passes the largest of 32 bits. It fails where memory is wanting.
#[cycle(moved_typ)]
pub fn moved_typ(alloc: Global, depth: u32, typ: &Typ) -> Result<Option<Typ>, AllocError>
    ensures { IfOk result (λ made. made ≡ moved_typ_of depth typ.now) }
{
    match typ {
        Typ::Unit => Ok(Some(Typ::Unit)),
        Typ::Bool => Ok(Some(Typ::Bool)),
        Typ::Truth(con) => match moved_con(alloc, depth, con)? {
            None => Ok(None),
            Some(con) => Ok(Some(Typ::Truth(con))),
        },
        Typ::Bit => Ok(Some(Typ::Bit)),
        Typ::Bits(width) => match moved_num(alloc, depth, width)? {
            None => Ok(None),
            Some(width) => Ok(Some(Typ::Bits(width))),
        },
        Typ::Int(number) => match moved_num(alloc, depth, number)? {
            None => Ok(None),
            Some(number) => Ok(Some(Typ::Int(number))),
        },
        Typ::Range(low, high) => {
            let Some(low) = moved_num(alloc, depth, low)? else {
                return Ok(None);
            };
            match moved_num(alloc, depth, high)? {
                None => Ok(None),
                Some(high) => Ok(Some(Typ::Range(low, high))),
            }
        }
        Typ::String => Ok(Some(Typ::String)),
        Typ::List(item) => match moved_typ(alloc, depth, item.get())? {
            None => Ok(None),
            Some(item) => Ok(Some(Typ::List(Boxed::new(alloc, item)?))),
        },
        Typ::Vector(length, item) => {
            let Some(length) = moved_num(alloc, depth, length)? else {
                return Ok(None);
            };
            match moved_typ(alloc, depth, item.get())? {
                None => Ok(None),
                Some(item) => Ok(Some(Typ::Vector(length, Boxed::new(alloc, item)?))),
            }
        }
        Typ::Tuple(parts) => match moved_types(alloc, depth, parts.as_slice())? {
            None => Ok(None),
            Some(parts) => Ok(Some(Typ::Tuple(parts))),
        },
        Typ::Named(place, indices, arguments) => {
            let Some(indices) = moved_indices(alloc, depth, indices.as_slice())? else {
                return Ok(None);
            };
            match moved_types(alloc, depth, arguments.as_slice())? {
                None => Ok(None),
                Some(arguments) => Ok(Some(Typ::Named(*place, indices, arguments))),
            }
        }
        Typ::Variable(position) => Ok(Some(Typ::Variable(*position))),
        Typ::Exists(name, con, part) => {
            let Some(inside) = next(depth) else {
                return Ok(None);
            };
            let Some(con) = moved_con(alloc, inside, con)? else {
                return Ok(None);
            };
            match moved_typ(alloc, inside, part.get())? {
                None => Ok(None),
                Some(part) => {
                    let name = name.clone()?;
                    Ok(Some(Typ::Exists(name, con, Boxed::new(alloc, part)?)))
                }
            }
        }
    }
}

/// Types read one binder further in, from the depth on; none where a variable's number would pass the largest
/// of 32 bits. It fails where memory is wanting.
#[cycle(moved_typ)]
pub fn moved_types(
    alloc: Global,
    depth: u32,
    types: &[Typ],
) -> Result<Option<Items<Typ>>, AllocError>
    ensures { IfOk result (λ made. made ≡ moved_types_of depth types.now) }
{
    let mut made = Items::new(alloc);
    for typ in types {
        match moved_typ(alloc, depth, typ)? {
            None => return Ok(None),
            Some(moved) => made.push(moved)?,
        }
    }
    Ok(Some(made))
}
