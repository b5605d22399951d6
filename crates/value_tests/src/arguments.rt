use crate::named::texts;
use sail_base::{Boxed, Items, Text};
use sail_types::{Atom, Comparison, Con, Index, Num, Term, Typ, power, push_number};
use std::alloc::{AllocError, Global};
use std::test::Fail;
use type_arguments::*;

/// The number that is a variable this many times, with a constant.
fn line(
    alloc: Global,
    coefficient: i128,
    variable: u32,
    constant: i128,
) -> Result<Num, AllocError> {
    let mut terms = Items::new(alloc);
    terms.push(Term {
        coefficient,
        atom: Atom::Variable(variable),
    })?;
    Ok(Num { terms, constant })
}

fn one_of<T: Drop>(alloc: Global, a: T) -> Result<Items<T>, AllocError> {
    let mut items = Items::new(alloc);
    items.push(a)?;
    Ok(items)
}

/// Puts a type behind a text: its variables by their numbers, and no more forms than the tests have.
fn push_typ(out: &mut Vec<u8>, names: &[Text], typ: &Typ) -> Result<(), AllocError> {
    match typ {
        Typ::Bits(width) => {
            out.extend_from_slice(b"bits(")?;
            push_number(out, names, width)?;
        }
        Typ::Range(low, high) => {
            out.extend_from_slice(b"range(")?;
            push_number(out, names, low)?;
            out.extend_from_slice(b", ")?;
            push_number(out, names, high)?;
        }
        Typ::List(item) => {
            out.extend_from_slice(b"list(")?;
            push_typ(out, names, item.get())?;
        }
        Typ::Truth(Con::Truth(true)) => out.extend_from_slice(b"bool(true")?,
        Typ::Exists(_, Con::Compare(Comparison::Less, left, right), part) => {
            out.extend_from_slice(b"{(")?;
            push_number(out, names, left)?;
            out.extend_from_slice(b" < ")?;
            push_number(out, names, right)?;
            out.extend_from_slice(b"). ")?;
            push_typ(out, names, part.get())?;
            return out.extend_from_slice(b"}");
        }
        _ => out.extend_from_slice(b"other(")?,
    }
    out.extend_from_slice(b")")
}

fn push_normal(out: &mut Vec<u8>, names: &[Text], normal: &Normal) -> Result<(), AllocError> {
    match normal {
        Normal::Number(number) => push_number(out, names, number),
        Normal::Constraint(_) => out.extend_from_slice(b"constraint"),
        Normal::Typ(typ) => push_typ(out, names, typ),
    }
}

/// `{'k, 'k < 'n. T}`
fn below(alloc: Global, part: Typ) -> Result<Typ, AllocError> {
    let name = Text::new(alloc, "'k")?;
    let less = Con::Compare(
        Comparison::Less,
        line(alloc, 1, 0, 0)?,
        line(alloc, 1, 1, 0)?,
    );
    Ok(Typ::Exists(name, less, Boxed::new(alloc, part)?))
}

/// The right side of a named type with the parameters 'n, 'p (a Bool) and 'a, applied to a number, `true` and `range(0, 'm)`, where 'm
/// is variable 0 of the place where it is applied: as text, `none` where it can't be said.
fn applied_text(alloc: Global, number: Num, right: Normal) -> Result<Vec<u8>, AllocError> {
    let names = texts(alloc, &["'0", "'1"])?;
    let zero = Num::constant(alloc, 0);
    let types = one_of(alloc, Typ::Range(zero, line(alloc, 1, 0, 0)?))?;
    let mut indices = one_of(alloc, Index::Number(number))?;
    indices.push(Index::Truth(Con::Truth(true)))?;
    let mut out = Vec::new(alloc);
    match applied(alloc, indices.as_slice(), types.as_slice(), &right)? {
        None => out.extend_from_slice(b"none")?,
        Some(made) => push_normal(&mut out, names.as_slice(), &made)?,
    }
    Ok(out)
}

/// Whether the right side of a named type is this text where it is applied to variable 0 and 1 more.
fn is_made(alloc: Global, right: Normal, text: &str) -> Result<bool, AllocError> {
    let made = applied_text(alloc, line(alloc, 1, 0, 1)?, right)?;
    Ok(made.as_slice() == text.as_bytes())
}

#[test]
fn named_numbers_are_applied(rt: HostRuntime) -> Result<(), Fail> {
    let alloc = rt.alloc();
    let eight = line(alloc, 8, 0, 0)?;
    assert!(rt; is_made(alloc, Normal::Number(eight), "8 * '0 + 8")?);
    let large = line(alloc, 1 << 126, 0, 1 << 126)?;
    assert!(rt; is_made(alloc, Normal::Number(large), "none")?);
    Ok(())
}

#[test]
fn named_powers_are_applied(rt: HostRuntime) -> Result<(), Fail> {
    let alloc = rt.alloc();
    let raised = Normal::Number(power(alloc, line(alloc, 1, 0, 0)?)?);
    let made = applied_text(
        alloc,
        Num::constant(alloc, 200),
        copy_normal(alloc, &raised)?,
    )?;
    assert!(rt; made.as_slice() == "2 ^ (200)".as_bytes());
    assert!(rt; is_made(alloc, raised, "2 ^ ('0 + 1)")?);
    Ok(())
}

#[test]
fn named_types_are_applied(rt: HostRuntime) -> Result<(), Fail> {
    let alloc = rt.alloc();
    let width = Typ::Bits(line(alloc, 1, 0, -1)?);
    assert!(rt; is_made(alloc, Normal::Typ(width), "bits('0)")?);
    assert!(rt; is_made(alloc, Normal::Typ(Typ::Variable(0)), "range(0, '0)")?);
    Ok(())
}

#[test]
fn named_types_with_parts_are_applied(rt: HostRuntime) -> Result<(), Fail> {
    let alloc = rt.alloc();
    let list = Typ::List(Boxed::new(alloc, Typ::Variable(0))?);
    assert!(rt; is_made(alloc, Normal::Typ(list), "list(range(0, '0))")?);
    let truth = Typ::Truth(Con::Holds(1));
    assert!(rt; is_made(alloc, Normal::Typ(truth), "bool(true)")?);
    Ok(())
}

#[test]
fn named_types_with_binders_are_applied(rt: HostRuntime) -> Result<(), Fail> {
    let alloc = rt.alloc();
    let inner = below(alloc, Typ::Bits(line(alloc, 3, 1, 0)?))?;
    assert!(rt;
        is_made(
            alloc,
            Normal::Typ(inner),
            "{('0 < '1 + 1). bits(3 * '1 + 3)}"
        )?
    );
    let own = below(alloc, Typ::Variable(0))?;
    let made = applied_text(alloc, Num::constant(alloc, 9), Normal::Typ(own))?;
    assert!(rt; made.as_slice() == "{('0 < 9). range(0, '1)}".as_bytes());
    Ok(())
}

/// Whether a copy of a type has no values.
fn is_void(alloc: Global, typ: Typ) -> Result<bool, AllocError> {
    Ok(is_void_normal(&Normal::Typ(copy_typ(alloc, &typ)?)))
}

#[test]
fn empty_ranges_are_found(rt: HostRuntime) -> Result<(), Fail> {
    let alloc = rt.alloc();
    let one = Typ::Range(Num::constant(alloc, 2), Num::constant(alloc, 2));
    assert!(rt; !is_void(alloc, one)?);
    let unknown = Typ::Range(line(alloc, 1, 0, 0)?, Num::constant(alloc, -1));
    assert!(rt; !is_void(alloc, unknown)?);
    let empty = Typ::Range(Num::constant(alloc, 3), Num::constant(alloc, 2));
    let inside = below(alloc, Typ::List(Boxed::new(alloc, empty)?))?;
    assert!(rt; is_void(alloc, inside)?);
    Ok(())
}

#[test]
fn negative_widths_are_found(rt: HostRuntime) -> Result<(), Fail> {
    let alloc = rt.alloc();
    assert!(rt; !is_void(alloc, Typ::Bits(Num::constant(alloc, 0)))?);
    assert!(rt; is_void(alloc, Typ::Bits(Num::constant(alloc, -1)))?);
    assert!(rt; !is_void(alloc, Typ::Bits(line(alloc, 1, 0, -1)?))?);
    Ok(())
}
