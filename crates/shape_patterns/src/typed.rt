//! Types that are written at patterns.
ghost use Rattle.std.specs.Prelude.{◌≡◌, IfOk};
ghost use Rattle.std.specs.Option.{option_copied};
ghost use Rattle.shape_rules.specs.Around.{setting_of};
ghost use Rattle.shape_rules.specs.Patterns.{piece, has_typ as has_typ_of, wanted_by as wanted_of, written_shape as written_shape_of};

use sail_syntax::{Pat, TyExp};
use sail_types::Shape;
use shape_rules::Around;
use shape_widths::shape_in;
use std::alloc::{AllocError, Global};

/// The type that is written at a pattern, through `as`.
#[cycle(written_typ)]
pub fn written_typ(pattern: &Pat) -> Option<&TyExp>
    ensures { option_copied result ≡ (piece pattern.now).typ }
{
    match pattern {
        Pat::Typed(_, _, typ) => Some(typ),
        Pat::As(_, part, _) => written_typ(part.get()),
        _ => None,
    }
}

/// Whether a type is written at a pattern.
pub fn has_typ(pattern: &Pat) -> bool
    ensures { result ≡ has_typ_of pattern.now }
{
    written_typ(pattern).is_some()
}

/// The shape of a type that is written; `Never`, where none is. It fails where memory is wanting.
pub fn written_shape(
    alloc: Global,
    typ: Option<&TyExp>,
    around: &Around<'_>,
) -> Result<Shape, AllocError>
    ensures { IfOk result (λ shape. shape ≡ written_shape_of (setting_of around.now) (option_copied typ.entry)) }
{
    match typ {
        Some(typ) => shape_in(alloc, typ, &around.scope),
        None => Ok(Shape::Never),
    }
}

/// The shape that the type at a pattern gives to what it is matched with; `Never`, where none is written. It fails where memory is
/// wanting.
pub fn wanted_by(alloc: Global, pattern: &Pat, around: &Around<'_>) -> Result<Shape, AllocError>
    ensures { IfOk result (λ shape. shape ≡ wanted_of (setting_of around.now) pattern.now) }
{
    written_shape(alloc, written_typ(pattern), around)
}
