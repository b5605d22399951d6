use crate::named::{Named, Part, table, texts};
use crate::written::Written::{Bit, Bits, Int, Truth, Unit};
use crate::written::{Written, value, values};
use sail_base::{Boxed, Items};
use sail_types::*;
use std::alloc::{AllocError, Global};
use std::process::Abort;
use std::test::Fail;

/// `option`, a struct `pair` of the fields `f` and `g`, an enum `color` of `Red` and `Green`, and a struct `flags` of the field `bits`.
const TABLE: &[(&str, Named)] = &[
    (
        "option",
        Named::Union(&[("Some", Part::Variable), ("None", Part::Unit)]),
    ),
    (
        "pair",
        Named::Struct(&[("f", Part::Bool), ("g", Part::Bit)]),
    ),
    ("color", Named::Enum(&["Red", "Green"])),
    ("flags", Named::Struct(&[("bits", Part::Bits(8))])),
];

fn pair_of<T: Drop>(alloc: Global, a: T, b: T) -> Result<Items<T>, AllocError> {
    let mut items = Items::new(alloc);
    items.push(a)?;
    items.push(b)?;
    Ok(items)
}

fn one_of<T: Drop>(alloc: Global, a: T) -> Result<Items<T>, AllocError> {
    let mut items = Items::new(alloc);
    items.push(a)?;
    Ok(items)
}

/// Whether a shape prints as this text, where 'a is variable 0.
fn is_shape_text(
    alloc: Global,
    types: &Types,
    shape: Shape,
    text: &str,
) -> Result<bool, AllocError> {
    let names = texts(alloc, &["'a"])?;
    let mut out = Vec::new(alloc);
    push_shape(&mut out, types, names.as_slice(), &shape)?;
    Ok(out.as_slice() == text.as_bytes())
}

#[test]
fn shapes_print_as_the_manual_writes_types(rt: HostRuntime) -> Result<(), Fail> {
    let alloc = rt.alloc();
    let types = table(alloc, TABLE)?;
    assert!(rt; is_shape_text(alloc, &types, Shape::Bits, "bits")?);
    assert!(rt; is_shape_text(alloc, &types, Shape::Named(2, Items::new(alloc)), "color")?);
    assert!(rt; is_shape_text(alloc, &types, Shape::Variable(0), "'a")?);
    assert!(rt; is_shape_text(alloc, &types, Shape::Hole, "_")?);
    Ok(())
}

#[test]
fn shapes_of_lists_and_vectors_print(rt: HostRuntime) -> Result<(), Fail> {
    let alloc = rt.alloc();
    let types = table(alloc, TABLE)?;
    let list = Shape::List(Boxed::new(alloc, Shape::Int)?);
    assert!(rt; is_shape_text(alloc, &types, list, "list(int)")?);
    let vector = Shape::Vector(Boxed::new(alloc, Shape::Bits)?);
    assert!(rt; is_shape_text(alloc, &types, vector, "vector(bits)")?);
    Ok(())
}

#[test]
fn shapes_of_tuples_and_unions_print(rt: HostRuntime) -> Result<(), Fail> {
    let alloc = rt.alloc();
    let types = table(alloc, TABLE)?;
    let tuple = Shape::Tuple(pair_of(alloc, Shape::Int, Shape::Bits)?);
    assert!(rt; is_shape_text(alloc, &types, tuple, "(int, bits)")?);
    let option = Shape::Named(0, one_of(alloc, Shape::Int)?);
    assert!(rt; is_shape_text(alloc, &types, option, "option(int)")?);
    Ok(())
}

/// Whether a number prints as this text, where 'n and 'm are variables 0 and 1.
fn is_number_text(alloc: Global, number: &Num, text: &str) -> Result<bool, AllocError> {
    let names = texts(alloc, &["'n", "'m"])?;
    let mut out = Vec::new(alloc);
    push_number(&mut out, names.as_slice(), number)?;
    Ok(out.as_slice() == text.as_bytes())
}

/// Whether a number is there, and prints as this text.
fn is_found_text(alloc: Global, number: Option<Num>, text: &str) -> Result<bool, AllocError> {
    match number {
        None => Ok(false),
        Some(number) => is_number_text(alloc, &number, text),
    }
}

#[test]
fn variables_and_constants_print(rt: HostRuntime) -> Result<(), Fail> {
    let alloc = rt.alloc();
    assert!(rt; is_number_text(alloc, &Num::variable(alloc, 0)?, "'n")?);
    assert!(rt; is_number_text(alloc, &Num::constant(alloc, 0), "0")?);
    Ok(())
}

#[test]
fn multiples_print_in_normal_form(rt: HostRuntime) -> Result<(), Fail> {
    let alloc = rt.alloc();
    let n = Num::variable(alloc, 0)?;
    let before = plus(alloc, -1, &n, Num::constant(alloc, 0))?;
    assert!(rt; is_found_text(alloc, before, "-1 * 'n")?);
    let none = subtract(alloc, &n, &n)?;
    assert!(rt; is_found_text(alloc, none, "0")?);
    Ok(())
}

/// `'n - 1`.
fn less(alloc: Global) -> Result<Option<Num>, AllocError> {
    add(alloc, &Num::variable(alloc, 0)?, &Num::constant(alloc, -1))
}

#[test]
fn sums_print_in_normal_form(rt: HostRuntime) -> Result<(), Fail> {
    let alloc = rt.alloc();
    assert!(rt; is_found_text(alloc, less(alloc)?, "'n + -1")?);
    let less = less(alloc)?.ok_or("a sum")?;
    let both = plus(alloc, 2, &Num::variable(alloc, 1)?, less)?;
    assert!(rt; is_found_text(alloc, both, "'n + 2 * 'm + -1")?);
    Ok(())
}

#[test]
fn products_print_in_normal_form(rt: HostRuntime) -> Result<(), Fail> {
    let alloc = rt.alloc();
    let n = Num::variable(alloc, 0)?;
    let double = multiply(alloc, &Num::constant(alloc, 2), &n)?;
    assert!(rt; is_found_text(alloc, double, "2 * 'n")?);
    Ok(())
}

#[test]
fn powers_print_in_normal_form(rt: HostRuntime) -> Result<(), Fail> {
    let alloc = rt.alloc();
    let raised = power(alloc, less(alloc)?.ok_or("a sum")?)?;
    assert!(rt; is_number_text(alloc, &raised, "2 ^ ('n + -1)")?);
    let placed = subst(alloc, &raised, 0, &Num::constant(alloc, 9))?;
    assert!(rt; is_found_text(alloc, placed, "256")?);
    Ok(())
}

/// Whether a value prints as this text.
fn is_value_text(
    alloc: Global,
    types: &Types,
    value: Value,
    text: &str,
) -> Result<bool, AllocError> {
    let mut out = Vec::new(alloc);
    push_value(&mut out, types, &value)?;
    Ok(out.as_slice() == text.as_bytes())
}

/// Words, and their texts.
const WORDS: &[(Written, &str)] = &[
    (Bits(8, 3), "0x03"),
    (Bits(12, 0x0af), "0x0af"),
    (Bits(3, 5), "0b101"),
    (Bits(0, 0), "0b"),
];

/// Other values without parts, and their texts.
const PLAIN: &[(Written, &str)] = &[
    (Int(-5), "-5"),
    (Int(1 << 126), "85070591730234615865843651857942052864"),
    (Int(-(1 << 126)), "-85070591730234615865843651857942052864"),
    (Bit(false), "bitzero"),
    (Bit(true), "bitone"),
    (Truth(true), "true"),
    (Unit, "()"),
    (Written::Member(2, 1), "Green"),
];

fn check(rt: &impl Abort, alloc: Global, rows: &[(Written, &str)]) -> Result<(), AllocError> {
    let types = table(alloc, TABLE)?;
    for (written, text) in rows {
        let value = value(alloc, written)?;
        assert!(rt; is_value_text(alloc, &types, value, text)?, "{text}");
    }
    Ok(())
}

#[test]
fn words_print_as_in_the_report(rt: HostRuntime) -> Result<(), Fail> {
    check(&rt, rt.alloc(), WORDS)?;
    Ok(())
}

#[test]
fn plain_values_print_as_in_the_report(rt: HostRuntime) -> Result<(), Fail> {
    check(&rt, rt.alloc(), PLAIN)?;
    Ok(())
}

#[test]
fn tuples_and_structs_print_as_in_the_report(rt: HostRuntime) -> Result<(), Fail> {
    let alloc = rt.alloc();
    let types = table(alloc, TABLE)?;
    let tuple = Value::Tuple(values(alloc, &[Int(1), Truth(false)])?);
    assert!(rt; is_value_text(alloc, &types, tuple, "(1, false)")?);
    let flags = Value::Struct(3, values(alloc, &[Bits(8, 0xa8)])?);
    assert!(rt; is_value_text(alloc, &types, flags, "{bits = 0xa8}")?);
    Ok(())
}

#[test]
fn vectors_print_as_in_the_report(rt: HostRuntime) -> Result<(), Fail> {
    let alloc = rt.alloc();
    let types = table(alloc, TABLE)?;
    let vector = Value::Vector(values(alloc, &[Int(1), Int(2)])?);
    assert!(rt; is_value_text(alloc, &types, vector, "[1, 2]")?);
    let words = Value::Vector(values(alloc, &[Bits(8, 1), Bits(8, 2)])?);
    assert!(rt; is_value_text(alloc, &types, words, "[0x01, 0x02]")?);
    Ok(())
}

/// Whether the zero of a type prints as this text.
fn is_zero_text(alloc: Global, typ: &Typ, text: &str) -> Result<bool, AllocError> {
    let types = table(alloc, TABLE)?;
    match zero_of(alloc, &types, typ)? {
        None => Ok(false),
        Some(zero) => is_value_text(alloc, &types, zero, text),
    }
}

#[test]
fn zeros_print_as_in_the_report(rt: HostRuntime) -> Result<(), Fail> {
    let alloc = rt.alloc();
    let pair = Typ::Named(1, Items::new(alloc), Items::new(alloc));
    assert!(rt; is_zero_text(alloc, &pair, "{f = false, g = bitzero}")?);
    let range = Typ::Range(Num::constant(alloc, 3), Num::constant(alloc, 9));
    assert!(rt; is_zero_text(alloc, &range, "3")?);
    Ok(())
}

#[test]
fn names_find_their_rows(rt: HostRuntime) {
    assert!(rt; row_named("mul_wide_su") == Some(Row::MulWideSu));
    assert!(rt; row_named("cons") == None);
}

#[test]
fn operators_find_their_rows(rt: HostRuntime) -> Result<(), Fail> {
    let alloc = rt.alloc();
    let types = table(alloc, TABLE)?;
    let members = row_members(alloc, &types, Row::Eq)?;
    assert!(rt; members.len() == 7, "six shapes and one enum");
    Ok(())
}
