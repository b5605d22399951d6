//! Patterns of the core, and names that are bound.
ghost use Rattle.std.specs.Prelude.{◌≡◌, ◌∷◌, [], IfOk};
ghost use Rattle.sail_core.specs.declared.patterns.Form.TheVariants as F;
ghost use Rattle.sail_core.specs.declared.patterns.Head.TheVariants as H;
ghost use Rattle.shape_rules.specs.Patterns.{pattern};
ghost use Rattle.shape_rules.specs.Scopes.{constant};

use sail_base::{Items, Place};
use sail_core::{Form, Head, Literal, Pattern};
use sail_syntax::Name;
use sail_types::{Shape, copy_shape};
use shape_rules::Local;
use std::alloc::{AllocError, Global};

/// A pattern without parts. It takes no memory.
pub(crate) fn leaf(alloc: Global, place: Place, form: Form) -> Pattern
    ensures { result ≡ pattern place form [] }
{
    let parts = Items::new(alloc);
    Pattern { place, form, parts }
}

/// This value alone. It takes no memory.
pub(crate) fn is_value(alloc: Global, place: Place, literal: Literal) -> Pattern
    ensures { result ≡ pattern place (F.Opens (H.Is literal)) [] }
{
    leaf(alloc, place, Form::Opens(Head::Is(literal)))
}

/// A value that is opened into parts.
pub(crate) fn opens(place: Place, head: Head, parts: Items<Pattern>) -> Pattern
    ensures { result ≡ pattern place (F.Opens head) parts }
{
    Pattern {
        place,
        form: Form::Opens(head),
        parts,
    }
}

/// A pattern of one part. It fails where memory is wanting.
pub(crate) fn over_one(
    alloc: Global,
    place: Place,
    form: Form,
    part: Pattern,
) -> Result<Pattern, AllocError>
    ensures { IfOk result (λ made. made ≡ pattern place form (part ∷ [])) }
{
    let mut parts = Items::new(alloc);
    parts.push(part)?;
    Ok(Pattern { place, form, parts })
}

/// A list of a first item and the others. It fails where memory is wanting.
pub(crate) fn cons(
    alloc: Global,
    place: Place,
    head: Pattern,
    tail: Pattern,
) -> Result<Pattern, AllocError>
    ensures { IfOk result (λ made. made ≡ pattern place (F.Opens H.Cons) (head ∷ tail ∷ [])) }
{
    let mut parts = Items::new(alloc);
    parts.push(head)?;
    parts.push(tail)?;
    Ok(opens(place, Head::Cons, parts))
}

/// A name that is bound for good to values of a shape. It fails where memory is wanting.
pub(crate) fn constant_of(alloc: Global, name: &Name, shape: &Shape) -> Result<Local, AllocError>
    ensures { IfOk result (λ made. made ≡ constant name.now.text shape.now) }
{
    let shape = copy_shape(alloc, shape)?;
    Ok(Local {
        name: name.text.clone()?,
        shape,
        is_variable: false,
    })
}
