//! Whether a value has a shape. It takes no memory: the fields and payloads of named types are read as
//! types, beside what their variables stand for.
ghost use Rattle.std.specs.Prelude.{◌≡◌, map, false};
ghost use Rattle.sail_types.specs.Named.{fields, payload};
ghost use Rattle.sail_types.specs.Shapes.{at, each_fits, fits, put, shape as shape_of_type, shapes_under};
ghost use Rattle.sail_types.specs.Shapes.{fields_fit as fields_fit_of, payload_fits as payload_fits_of};
ghost use Rattle.sail_fits.specs.parts.Heads.{head_shape, is_exists, listed, part_shape};
ghost use Rattle.std.specs.List.{list_all};

use sail_types::{Shape, Typ, Types, Value};

/// Shapes in order: as they are, or those of types whose variables stand for other such shapes.
#[derive(Clone, Copy)]
enum Listed<'a> {
    /// Shapes.
    Shapes(&'a [Shape]),
    /// Types, and what their variables stand for.
    Types(&'a [Typ], &'a Listed<'a>),
}

/// A shape: as it is, or that of a type whose variables stand for shapes.
#[derive(Clone, Copy)]
enum Part<'a> {
    /// A shape.
    Shape(&'a Shape),
    /// A type, and what its variables stand for.
    Typ(&'a Typ, &'a Listed<'a>),
}

/// The outermost form of a shape.
#[derive(Clone, Copy)]
enum Head<'a> {
    Unit,
    Bool,
    Bit,
    Bits,
    Int,
    String,
    List(Part<'a>),
    Vector(Part<'a>),
    Tuple(Listed<'a>),
    Named(u32, Listed<'a>),
    Variable(u32),
    Hole,
    Never,
}

/// Whether a value has a shape; a Type variable fits all, and nothing has the shape of a hole.
pub fn value_fits(types: &Types, value: &Value, shape: &Shape) -> bool
    ensures { result ≡ fits types.now value.now shape.now }
{
    head_fits(types, value, head_of_shape(shape))
}

/// A type without the binders around it.
fn inside(typ: &Typ) -> &Typ
    ensures shape { shape_of_type result.now ≡ shape_of_type typ.now }
    ensures plain { is_exists result.now ≡ false }
{
    match typ {
        Typ::Exists(_, _, part) => inside(part.get()),
        _ => typ,
    }
}

/// The outermost form of a shape.
fn head_of_shape<'a>(shape: &'a Shape) -> Head<'a>
    ensures { head_shape result ≡ shape.now }
{
    match shape {
        Shape::Unit => Head::Unit,
        Shape::Bool => Head::Bool,
        Shape::Bit => Head::Bit,
        Shape::Bits => Head::Bits,
        Shape::Int => Head::Int,
        Shape::String => Head::String,
        Shape::List(item) => Head::List(Part::Shape(item.get())),
        Shape::Vector(item) => Head::Vector(Part::Shape(item.get())),
        Shape::Tuple(parts) => Head::Tuple(Listed::Shapes(parts.as_slice())),
        Shape::Named(place, arguments) => Head::Named(*place, Listed::Shapes(arguments.as_slice())),
        Shape::Variable(position) => Head::Variable(*position),
        Shape::Hole => Head::Hole,
        Shape::Never => Head::Never,
    }
}

/// The outermost form of the shape of a type whose variables stand for these shapes.
fn head_of_typ<'a>(known: &'a Listed<'a>, typ: &'a Typ) -> Head<'a>
    ensures { head_shape result ≡ put (at (listed known.now)) (shape_of_type typ.now) }
{
    match inside(typ) {
        Typ::Variable(position) => match known {
            Listed::Shapes(shapes) => head_in_shapes(shapes, *position),
            Listed::Types(types, outer) => match types.get(*position as usize) {
                None => Head::Hole,
                Some(typ) => head_of_typ(outer, typ),
            },
        },
        Typ::Unit => Head::Unit,
        Typ::Bool => Head::Bool,
        Typ::Truth(_) => Head::Bool,
        Typ::Bit => Head::Bit,
        Typ::Bits(_) => Head::Bits,
        Typ::Int(_) => Head::Int,
        Typ::Range(_, _) => Head::Int,
        Typ::String => Head::String,
        Typ::List(item) => Head::List(Part::Typ(item.get(), known)),
        Typ::Vector(_, item) => Head::Vector(Part::Typ(item.get(), known)),
        Typ::Tuple(parts) => Head::Tuple(Listed::Types(parts.as_slice(), known)),
        Typ::Named(place, _, arguments) => {
            Head::Named(*place, Listed::Types(arguments.as_slice(), known))
        }
        Typ::Exists(_, _, _) => unreachable!(),
    }
}

/// The outermost form of the shape at a position; a hole where there is none.
fn head_in_shapes<'a>(shapes: &'a [Shape], position: u32) -> Head<'a>
    ensures { head_shape result ≡ at shapes.now position }
{
    match shapes.get(position as usize) {
        None => Head::Hole,
        Some(shape) => head_of_shape(shape),
    }
}

/// The outermost form of a shape.
fn head_of_part<'a>(part: Part<'a>) -> Head<'a>
    ensures { head_shape result ≡ part_shape part.entry }
{
    match part {
        Part::Shape(shape) => head_of_shape(shape),
        Part::Typ(typ, known) => head_of_typ(known, typ),
    }
}

/// Whether a value has the shape of this form.
#[cycle(fits)]
fn head_fits(types: &Types, value: &Value, head: Head<'_>) -> bool
    ensures { result ≡ fits types.now value.now (head_shape head.entry) }
{
    match (value, head) {
        (_, Head::Variable(_)) => true,
        (Value::Unit, Head::Unit) => true,
        (Value::Integer(_), Head::Int) => true,
        (Value::Truth(_), Head::Bool) => true,
        (Value::Bit(_), Head::Bit) => true,
        (Value::Bits(_), Head::Bits) => true,
        (Value::String(_), Head::String) => true,
        (Value::Member(place, member), Head::Named(other, _)) => {
            *place == other && (*member as usize) < types.members(*place).len()
        }
        (Value::Tuple(parts), Head::Tuple(shapes)) => parts_fit(types, parts.as_slice(), shapes),
        (Value::Struct(place, parts), Head::Named(other, arguments)) => {
            *place == other && fields_fit(types, parts.as_slice(), *place, arguments)
        }
        (Value::Union(place, constructor, payload), Head::Named(other, arguments)) => {
            *place == other && payload_fits(types, payload.get(), *place, *constructor, arguments)
        }
        (Value::List(items), Head::List(item)) => all_fit(types, items.as_slice(), item),
        (Value::Vector(items), Head::Vector(item)) => all_fit(types, items.as_slice(), item),
        _ => false,
    }
}

/// Whether each value has one shape.
#[cycle(fits)]
fn all_fit(types: &Types, values: &[Value], part: Part<'_>) -> bool
    ensures { result ≡ list_all (λ f. f (part_shape part.entry)) (map (fits types.now) values.now) }
{
    for value in values {
        if !head_fits(types, value, head_of_part(part)) {
            return false;
        }
    }
    true
}

/// Whether there are as many values as shapes, and each has its own.
#[cycle(fits)]
fn parts_fit(types: &Types, values: &[Value], shapes: Listed<'_>) -> bool
    ensures { result ≡ each_fits (map (fits types.now) values.now) (listed shapes.entry) }
{
    match shapes {
        Listed::Shapes(shapes) => shapes_fit(types, values, shapes),
        Listed::Types(parts, known) => types_fit(types, values, parts, known),
    }
}

/// Whether there are as many values as shapes, and each has its own.
#[cycle(fits)]
#[tactic(auto, using(crate::proofs::Unlike::shapes_unlike))]
fn shapes_fit(types: &Types, values: &[Value], shapes: &[Shape]) -> bool
    ensures { result ≡ each_fits (map (fits types.now) values.now) shapes.now }
{
    if values.len() != shapes.len() {
        return false;
    }
    let mut index = 0;
    for value in values {
        if !head_fits(types, value, head_of_shape(&shapes[index])) {
            return false;
        }
        index += 1;
    }
    true
}

/// Whether there are as many values as types, and each has the shape of its own.
#[cycle(fits)]
#[tactic(auto, using(crate::proofs::Unlike::types_unlike))]
fn types_fit<'a>(types: &Types, values: &[Value], parts: &'a [Typ], known: &'a Listed<'a>) -> bool
    ensures { result ≡ each_fits (map (fits types.now) values.now) (shapes_under (listed known.now) parts.now) }
{
    if values.len() != parts.len() {
        return false;
    }
    let mut index = 0;
    for value in values {
        if !head_fits(types, value, head_of_typ(known, &parts[index])) {
            return false;
        }
        index += 1;
    }
    true
}

/// Whether a value is a payload of the constructor of the union at a place in the table.
#[cycle(fits)]
fn payload_fits(
    types: &Types,
    value: &Value,
    place: u32,
    constructor: u32,
    arguments: Listed<'_>,
) -> bool
    ensures { result ≡ payload_fits_of (fits types.now value.now) (listed arguments.entry) (payload types.now place constructor) }
{
    match types.constructors(place).get(constructor as usize) {
        None => false,
        Some(field) => head_fits(types, value, head_of_typ(&arguments, &field.typ)),
    }
}

/// Whether values are those of the fields of the struct at a place in the table.
#[cycle(fits)]
#[tactic(auto, using(crate::proofs::Unlike::fields_unlike))]
fn fields_fit(types: &Types, values: &[Value], place: u32, arguments: Listed<'_>) -> bool
    ensures { result ≡ fields_fit_of (map (fits types.now) values.now) (listed arguments.entry) (fields types.now place) }
{
    let Some(fields) = types.fields(place) else {
        return false;
    };
    if values.len() != fields.len() {
        return false;
    }
    let mut index = 0;
    for value in values {
        if !head_fits(types, value, head_of_typ(&arguments, &fields[index].typ)) {
            return false;
        }
        index += 1;
    }
    true
}
