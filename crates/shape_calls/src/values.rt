//! Literals and names, what is wanted of parts, and what is known of structs.
ghost use Rattle.std.specs.Prelude.{◌≡◌, IfOk, OnOk, option_map};
ghost use Rattle.std.specs.Option.{option_copied};
ghost use Rattle.sail_types.specs.declared.shapes.Shape.{out-Shape};
ghost use Rattle.sail_types.specs.declared.shapes.Shape.TheVariants as V;
ghost use Rattle.sail_core.specs.declared.tree.Kind.TheVariants as K;
ghost use Rattle.shape_rules.specs.Findings as found;
ghost use Rattle.shape_rules.specs.Around.{setting_of};
ghost use Rattle.shape_rules.specs.Values as spec;
ghost use Rattle.shape_calls.specs.Made.{made_of};
ghost use Rattle.shape_calls.specs.Structs.{named_of};
ghost use Rattle.sail_types.specs.Named.{fields as fields_of};
ghost use Rattle.sail_core.specs.declared.patterns.Literal.TheVariants as L;

use crate::made::{Made, leaf, mismatched, over, refused, settled, unknown};
use sail_base::{Boxed, Items, Kind as ParameterKind, Operator, Place};
use sail_core::{Core, Kind, Literal as CoreLiteral};
use sail_syntax::{Literal, Name};
use sail_types::{Parameter, Shape, Types, copy_shape};
use shape_joins::join_shapes;
use shape_rules::{Around, First, Local, Meant};
use shape_widths::{core_literal, literal_shape};
use std::alloc::{AllocError, Global};

/// A named type of which a shape is.
#[derive(Clone, Copy)]
pub struct Named<'s> {
    /// Its place in the table.
    pub place: u32,
    /// Its arguments.
    pub arguments: &'s [Shape],
}

/// A literal. The one error is want of memory.
pub fn constant_found(
    alloc: Global,
    place: Place,
    literal: &Literal,
    want: &Shape,
    first: &mut First,
) -> Result<Made, AllocError>
    ensures made { IfOk result (λ made. made ≡ made_of (spec.constant_found place literal.now want.now)) }
    ensures failures { OnOk result (first.new.error ≡ found.first_failure first.old.error (spec.constant_found place literal.now want.now).faults) }
{
    let literal_kind = Kind::Constant(core_literal(literal)?);
    settled(
        alloc,
        place,
        want,
        literal_shape(literal),
        leaf(alloc, place, literal_kind),
        first,
    )
}

/// `()`. The one error is want of memory.
pub fn unit_found(
    alloc: Global,
    place: Place,
    want: &Shape,
    first: &mut First,
) -> Result<Made, AllocError>
    ensures made { IfOk result (λ made. made ≡ made_of (found.settled place want.now V.Unit (λ s. found.leaf place (K.Constant L.Unit)))) }
    ensures failures { OnOk result (first.new.error
        ≡ found.first_failure first.old.error (found.settled place want.now V.Unit (λ s. found.leaf place (K.Constant L.Unit))).faults) }
{
    let core = leaf(alloc, place, Kind::Constant(CoreLiteral::Unit));
    settled(alloc, place, want, Shape::Unit, core, first)
}

/// What the node of a local name is. The one error is want of memory.
pub fn local_kind(local: &Local) -> Result<Kind, AllocError>
    ensures { IfOk result (λ kind. kind ≡ spec.local_kind local.now) }
{
    let name = local.name.clone()?;
    if local.is_variable {
        Ok(Kind::Variable(name))
    } else {
        Ok(Kind::Local(name))
    }
}

/// A name that no local has. The one error is want of memory.
pub fn global_found(
    alloc: Global,
    place: Place,
    meant: Option<&Meant>,
    want: &Shape,
    first: &mut First,
) -> Result<Made, AllocError>
    ensures made { IfOk result (λ made. made ≡ made_of (spec.global_found place (option_copied meant.entry) want.now)) }
    ensures failures { OnOk result (first.new.error
        ≡ found.first_failure first.old.error (spec.global_found place (option_copied meant.entry) want.now).faults) }
{
    match meant {
        Some(Meant::Register(register, shape)) => {
            let shape = copy_shape(alloc, shape)?;
            settled(
                alloc,
                place,
                want,
                shape,
                leaf(alloc, place, Kind::Register(*register)),
                first,
            )
        }
        Some(Meant::Let(bound, shape)) => {
            let shape = copy_shape(alloc, shape)?;
            settled(
                alloc,
                place,
                want,
                shape,
                leaf(alloc, place, Kind::TopLevel(*bound)),
                first,
            )
        }
        Some(Meant::Member(union, member)) => {
            let shape = Shape::Named(*union, Items::new(alloc));
            let literal = Kind::Constant(CoreLiteral::Member(*union, *member));
            settled(
                alloc,
                place,
                want,
                shape,
                leaf(alloc, place, literal),
                first,
            )
        }
        _ => Ok(unknown(alloc, place)),
    }
}

/// A name: the innermost local that has it, else what it means elsewhere. The one error is want of memory.
pub fn name_found(
    alloc: Global,
    name: &Name,
    local: Option<&Local>,
    meant: Option<&Meant>,
    want: &Shape,
    first: &mut First,
) -> Result<Made, AllocError>
    ensures made { IfOk result (λ made. made ≡ made_of (spec.name_found name.now (option_copied local.entry) (option_copied meant.entry) want.now)) }
    ensures failures { OnOk result (first.new.error
        ≡ found.first_failure first.old.error (spec.name_found name.now (option_copied local.entry) (option_copied meant.entry) want.now).faults) }
{
    match local {
        Some(local) => {
            let shape = copy_shape(alloc, &local.shape)?;
            let kind = local_kind(local)?;
            settled(
                alloc,
                name.place,
                want,
                shape,
                leaf(alloc, name.place, kind),
                first,
            )
        }
        None => global_found(alloc, name.place, meant, want, first),
    }
}

/// What is wanted of the parts of a tuple of so many; nothing of any, where no such tuple is wanted.
pub fn tuple_wants(count: usize, want: &Shape) -> &[Shape]
    ensures { result.now ≡ spec.tuple_wants count (out-Shape want.now) }
{
    match want {
        Shape::Tuple(parts) => {
            if count == parts.len() {
                parts.as_slice()
            } else {
                &[]
            }
        }
        _ => &[],
    }
}

/// What is wanted of the items of a vector. The one error is want of memory.
pub fn vector_want(alloc: Global, want: &Shape) -> Result<Shape, AllocError>
    ensures { IfOk result (λ item. item ≡ spec.vector_want (out-Shape want.now)) }
{
    match want {
        Shape::Vector(item) => copy_shape(alloc, item.get()),
        _ => Ok(Shape::Never),
    }
}

/// What is wanted of the items of a list. The one error is want of memory.
pub fn list_want(alloc: Global, want: &Shape) -> Result<Shape, AllocError>
    ensures { IfOk result (λ item. item ≡ spec.list_want (out-Shape want.now)) }
{
    match want {
        Shape::List(item) => copy_shape(alloc, item.get()),
        _ => Ok(Shape::Never),
    }
}

/// A vector of items of this shape. The one error is want of memory.
pub fn vector_found(
    alloc: Global,
    place: Place,
    want: &Shape,
    item: Shape,
    cores: Items<Core>,
    first: &mut First,
) -> Result<Made, AllocError>
    ensures made { IfOk result (λ made. made
        ≡ made_of (found.settled place want.now (V.Vector item) (λ s. found.over place (K.Vector (spec.vector_want (out-Shape s))) cores))) }
    ensures failures { OnOk result (first.new.error ≡ found.first_failure first.old.error
        (found.settled place want.now (V.Vector item) (λ s. found.over place (K.Vector (spec.vector_want (out-Shape s))) cores)).faults) }
{
    let shape = Shape::Vector(Boxed::new(alloc, item)?);
    match join_shapes(alloc, &shape, want)? {
        Some(shape) => {
            let item = vector_want(alloc, &shape)?;
            let core = over(place, Kind::Vector(item), cores);
            Ok(Made { shape, core })
        }
        None => {
            let error = mismatched(alloc, place, want, shape)?;
            Ok(refused(alloc, error, first))
        }
    }
}

/// A list of items of this shape. The one error is want of memory.
pub fn list_found(
    alloc: Global,
    place: Place,
    want: &Shape,
    item: Shape,
    cores: Items<Core>,
    first: &mut First,
) -> Result<Made, AllocError>
    ensures made { IfOk result (λ made. made
        ≡ made_of (found.settled place want.now (V.List item) (λ s. found.over place (K.List (spec.list_want (out-Shape s))) cores))) }
    ensures failures { OnOk result (first.new.error ≡ found.first_failure first.old.error
        (found.settled place want.now (V.List item) (λ s. found.over place (K.List (spec.list_want (out-Shape s))) cores)).faults) }
{
    let shape = Shape::List(Boxed::new(alloc, item)?);
    match join_shapes(alloc, &shape, want)? {
        Some(shape) => {
            let item = list_want(alloc, &shape)?;
            let core = over(place, Kind::List(item), cores);
            Ok(Made { shape, core })
        }
        None => {
            let error = mismatched(alloc, place, want, shape)?;
            Ok(refused(alloc, error, first))
        }
    }
}

/// What the node of `&` or `|` on truths is; none of another operator.
pub fn logical_kind(operator: Operator) -> Option<Kind>
    ensures { result ≡ spec.logical_kind operator }
{
    match operator {
        Operator::And => Some(Kind::And),
        Operator::Or => Some(Kind::Or),
        _ => None,
    }
}

/// Whether a shape is that of truths, or fits every shape.
pub fn is_truth(shape: &Shape) -> bool
    ensures { result ≡ spec.is_truth_form (out-Shape shape.now) }
{
    match shape {
        Shape::Bool => true,
        Shape::Never => true,
        _ => false,
    }
}

/// How many of these parameters are types.
fn type_parameters(parameters: &[Parameter]) -> usize
    ensures { result ≡ spec.type_parameters parameters.now }
{
    let mut count = 0;
    for parameter in parameters {
        if parameter.kind == ParameterKind::Type {
            count += 1;
        }
    }
    count
}

/// How many Type parameters the named type at a place in the table has.
pub fn variables_of_type(around: &Around<'_>, place: u32) -> usize
    ensures { result ≡ spec.variables_of_type (setting_of around.now) place }
{
    match around.types.definitions.get(place as usize) {
        Some(definition) => type_parameters(definition.parameters.as_slice()),
        None => 0,
    }
}

/// How many fields the struct at a place in the table has; none where no struct stands there.
pub fn field_count(types: &Types, place: u32) -> usize
    ensures { result ≡ spec.field_count (fields_of types.now place) }
{
    match types.fields(place) {
        Some(fields) => fields.len(),
        None => 0,
    }
}

/// The place in the table of the named type of which a shape is, where it is one's.
pub fn named_place(shape: &Shape) -> Option<Named<'_>>
    ensures { option_map named_of result ≡ spec.named_place (out-Shape shape.now) }
{
    match shape {
        Shape::Named(place, arguments) => Some(Named {
            place: *place,
            arguments: arguments.as_slice(),
        }),
        _ => None,
    }
}
