//! Shapes that a later value could fill.
ghost use Rattle.std.specs.Prelude.{◌≡◌, map};
ghost use Rattle.shape_rules.specs.Findings.{first_failure};
ghost use Rattle.shape_rules.specs.Targets as spec;
ghost use Rattle.shape_forms.specs.Openness.{openness_in};

use sail_base::Place;
use sail_types::Shape;
use shape_rules::{First, ShapeError};

/// Whether a value of this shape is never there: what never ends, or a tuple with such a part.
#[cycle(is_never)]
fn is_never(shape: &Shape) -> bool
    ensures { result ≡ (openness_in shape.now).never }
{
    match shape {
        Shape::Never => true,
        Shape::Tuple(parts) => any_never(parts.as_slice()),
        _ => false,
    }
}

#[cycle(is_never)]
fn any_never(shapes: &[Shape]) -> bool
    ensures { result ≡ spec.any_never (map openness_in shapes.now) }
{
    for shape in shapes {
        if is_never(shape) {
            return true;
        }
    }
    false
}

/// Whether a shape leaves something open: a hole, or what never ends as an item or an argument.
#[cycle(leaves_open)]
fn leaves_open(shape: &Shape) -> bool
    ensures { result ≡ spec.leaves_open shape.now }
{
    match shape {
        Shape::Hole => true,
        Shape::List(item) => is_never(item.get()) || leaves_open(item.get()),
        Shape::Vector(item) => is_never(item.get()) || leaves_open(item.get()),
        Shape::Tuple(parts) => any_open(parts.as_slice()),
        Shape::Named(_, arguments) => {
            any_never(arguments.as_slice()) || any_open(arguments.as_slice())
        }
        _ => false,
    }
}

#[cycle(leaves_open)]
fn any_open(shapes: &[Shape]) -> bool
    ensures { result ≡ spec.any_open (map openness_in shapes.now) }
{
    for shape in shapes {
        if leaves_open(shape) {
            return true;
        }
    }
    false
}

/// Notes a shape that leaves something open.
pub(crate) fn note_open(place: Place, shape: &Shape, first: &mut First)
    ensures { first.new.error ≡ first_failure first.old.error (spec.open_faults place shape.now) }
{
    if leaves_open(shape) {
        let mismatch = None;
        first.note(ShapeError::IllShaped { place, mismatch });
    }
}
