use crate::named::{Named, Part, table};
use crate::written::Written::{Bit, Int, Truth, Unit};
use crate::written::values;
use sail_base::{Boxed, Items, Text};
use sail_fits::{same_type, value_fits};
use sail_types::{Con, Index, Num, Shape, Typ, Types, Value};
use std::alloc::{AllocError, Global};
use std::test::Fail;

const OPTION: u32 = 0;

const PAIR: u32 = 1;

const COLOR: u32 = 2;

const SHADE: u32 = 3;

const WRAPPED: u32 = 4;

/// `option`, a struct `pair` of a bool and a bit, enums `color` of two members and `shade` of one, and a struct `wrapped('a)` with
/// one field of `option('a)`.
const TABLE: &[(&str, Named)] = &[
    (
        "option",
        Named::Union(&[("Some", Part::Variable), ("None", Part::Unit)]),
    ),
    (
        "pair",
        Named::Struct(&[("f", Part::Bool), ("g", Part::Bit)]),
    ),
    ("color", Named::Enum(&["Red", "Green"])),
    ("shade", Named::Enum(&["Dark"])),
    ("wrapped", Named::Struct(&[("inside", Part::Of(OPTION))])),
];

fn one_of<T: Drop>(alloc: Global, a: T) -> Result<Items<T>, AllocError> {
    let mut items = Items::new(alloc);
    items.push(a)?;
    Ok(items)
}

fn pair_of<T: Drop>(alloc: Global, a: T, b: T) -> Result<Items<T>, AllocError> {
    let mut items = one_of(alloc, a)?;
    items.push(b)?;
    Ok(items)
}

/// `Some(value)`
fn some(alloc: Global, value: Value) -> Result<Value, AllocError> {
    Ok(Value::Union(OPTION, 0, Boxed::new(alloc, value)?))
}

/// `option(item)`
fn option(alloc: Global, item: Shape) -> Result<Shape, AllocError> {
    Ok(Shape::Named(OPTION, one_of(alloc, item)?))
}

fn list(alloc: Global, item: Shape) -> Result<Shape, AllocError> {
    Ok(Shape::List(Boxed::new(alloc, item)?))
}

/// Whether a value fits a shape.
fn fits(types: &Types, value: Value, shape: Shape) -> bool {
    value_fits(types, &value, &shape)
}

/// The shape of a named type without arguments.
fn of(alloc: Global, place: u32) -> Shape {
    Shape::Named(place, Items::new(alloc))
}

#[test]
fn lists_fit_their_shapes(rt: HostRuntime) -> Result<(), Fail> {
    let alloc = rt.alloc();
    let types = table(alloc, TABLE)?;
    assert!(rt;
        fits(
            &types,
            Value::List(Items::new(alloc)),
            list(alloc, Shape::Int)?
        )
    );
    assert!(rt;
        fits(
            &types,
            Value::List(Items::new(alloc)),
            list(alloc, Shape::Hole)?
        )
    );
    let vector = Shape::Vector(Boxed::new(alloc, Shape::Int)?);
    assert!(rt; !fits(&types, Value::List(Items::new(alloc)), vector));
    let integers = Value::List(values(alloc, &[Int(1)])?);
    assert!(rt; !fits(&types, integers, list(alloc, Shape::Bool)?));
    Ok(())
}

#[test]
fn options_fit_their_shapes(rt: HostRuntime) -> Result<(), Fail> {
    let alloc = rt.alloc();
    let types = table(alloc, TABLE)?;
    assert!(rt;
        fits(
            &types,
            some(alloc, Value::Truth(true))?,
            option(alloc, Shape::Bool)?
        )
    );
    assert!(rt;
        !fits(
            &types,
            some(alloc, Value::Truth(true))?,
            option(alloc, Shape::Int)?
        )
    );
    Ok(())
}

#[test]
fn options_fit_no_other_types(rt: HostRuntime) -> Result<(), Fail> {
    let alloc = rt.alloc();
    let types = table(alloc, TABLE)?;
    assert!(rt; !fits(&types, some(alloc, Value::Unit)?, of(alloc, COLOR)));
    let wrapped = Value::Struct(WRAPPED, one_of(alloc, some(alloc, Value::Truth(true))?)?);
    let shape = Shape::Named(WRAPPED, one_of(alloc, Shape::Bool)?);
    assert!(rt; fits(&types, wrapped, shape));
    Ok(())
}

#[test]
fn structs_and_tuples_fit_their_shapes(rt: HostRuntime) -> Result<(), Fail> {
    let alloc = rt.alloc();
    let types = table(alloc, TABLE)?;
    let pair = Value::Struct(PAIR, values(alloc, &[Truth(true), Bit(true)])?);
    assert!(rt; fits(&types, pair, of(alloc, PAIR)));
    let crossed = Value::Struct(PAIR, values(alloc, &[Bit(true), Truth(true)])?);
    assert!(rt; !fits(&types, crossed, of(alloc, PAIR)));
    Ok(())
}

#[test]
fn short_structs_and_tuples_fit_by_their_parts(rt: HostRuntime) -> Result<(), Fail> {
    let alloc = rt.alloc();
    let types = table(alloc, TABLE)?;
    let short = Value::Struct(PAIR, values(alloc, &[Truth(true)])?);
    assert!(rt; !fits(&types, short, of(alloc, PAIR)));
    let two = Value::Tuple(values(alloc, &[Int(1), Unit])?);
    let shape = Shape::Tuple(pair_of(alloc, Shape::Int, Shape::Unit)?);
    assert!(rt; fits(&types, two, shape));
    Ok(())
}

#[test]
fn members_and_plain_values_fit_their_shapes(rt: HostRuntime) -> Result<(), Fail> {
    let alloc = rt.alloc();
    let types = table(alloc, TABLE)?;
    assert!(rt; fits(&types, Value::Member(COLOR, 1), of(alloc, COLOR)));
    assert!(rt; !fits(&types, Value::Member(COLOR, 2), of(alloc, COLOR)));
    assert!(rt; !fits(&types, Value::Member(COLOR, 0), of(alloc, SHADE)));
    assert!(rt; fits(&types, Value::Integer(-1), Shape::Variable(0)));
    assert!(rt; !fits(&types, Value::Unit, Shape::Hole));
    assert!(rt; !fits(&types, Value::Unit, Shape::Never));
    Ok(())
}

/// `{name, true. int(name)}`
fn some_int(alloc: Global, name: &str) -> Result<Typ, AllocError> {
    let number = Num::variable(alloc, 0)?;
    let typ = Boxed::new(alloc, Typ::Int(number))?;
    Ok(Typ::Exists(Text::new(alloc, name)?, Con::Truth(true), typ))
}

fn range(alloc: Global, low: i128, high: i128) -> Typ {
    Typ::Range(Num::constant(alloc, low), Num::constant(alloc, high))
}

fn named(alloc: Global, index: i128, argument: Typ) -> Result<Typ, AllocError> {
    let indices = one_of(alloc, Index::Number(Num::constant(alloc, index)))?;
    Ok(Typ::Named(WRAPPED, indices, one_of(alloc, argument)?))
}

/// Whether two types are the same.
fn same(a: Typ, b: Typ) -> bool {
    same_type(&a, &b)
}

#[test]
fn types_are_the_same_but_for_names(rt: HostRuntime) -> Result<(), Fail> {
    let alloc = rt.alloc();
    assert!(rt; same(some_int(alloc, "'n")?, some_int(alloc, "'m")?));
    assert!(rt; !same(some_int(alloc, "'n")?, Typ::Int(Num::variable(alloc, 0)?)));
    Ok(())
}

#[test]
fn ranges_and_variables_are_the_same_by_their_numbers(rt: HostRuntime) -> Result<(), Fail> {
    let alloc = rt.alloc();
    assert!(rt; !same(Typ::Variable(0), Typ::Variable(1)));
    assert!(rt; same(range(alloc, 0, 1), range(alloc, 0, 1)));
    assert!(rt; !same(range(alloc, 0, 1), range(alloc, 0, 2)));
    Ok(())
}

#[test]
fn named_types_are_the_same_by_their_arguments(rt: HostRuntime) -> Result<(), Fail> {
    let alloc = rt.alloc();
    assert!(rt; same(named(alloc, 3, Typ::Bit)?, named(alloc, 3, Typ::Bit)?));
    assert!(rt; !same(named(alloc, 3, Typ::Bit)?, named(alloc, 4, Typ::Bit)?));
    assert!(rt; !same(named(alloc, 3, Typ::Bit)?, named(alloc, 3, Typ::Bool)?));
    Ok(())
}
