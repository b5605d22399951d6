ghost use Rattle.std.specs.Prelude.{◌≡◌, IfOk};
ghost use Rattle.sail_kinds.specs.Scopes.{within};
ghost use Rattle.shape_rules.specs.Written.{typ_in, number_in, constraint_in, shape_in};

use sail_base::Kind;
use sail_kinds::{First, Scope, read_as};
use sail_syntax::TyExp;
use sail_types::{Con, Num, Shape, Typ, shape_of};
use std::alloc::{AllocError, Global};

/// The type that a text stands for; none where it stands for none, which the tables refuse. The one error is want of memory.
pub fn typ_in(alloc: Global, text: &TyExp, scope: &Scope<'_>) -> Result<Option<Typ>, AllocError>
    ensures { IfOk result (λ typ. typ ≡ typ_in (within scope.now) text.now) }
{
    let mut refused = First::none();
    match read_as(alloc, text, Kind::Type, scope, &mut refused)? {
        Some(normal) => Ok(normal.into_typ()),
        None => Ok(None),
    }
}

/// The number that a text stands for; none where it stands for none, which the tables refuse. The one error is want of memory.
pub fn number_in(alloc: Global, text: &TyExp, scope: &Scope<'_>) -> Result<Option<Num>, AllocError>
    ensures { IfOk result (λ number. number ≡ number_in (within scope.now) text.now) }
{
    let mut refused = First::none();
    match read_as(alloc, text, Kind::Int, scope, &mut refused)? {
        Some(normal) => Ok(normal.into_number()),
        None => Ok(None),
    }
}

/// The constraint that a text stands for; none where it stands for none, which the tables refuse. The one error is want of memory.
pub fn constraint_in(
    alloc: Global,
    text: &TyExp,
    scope: &Scope<'_>,
) -> Result<Option<Con>, AllocError>
    ensures { IfOk result (λ constraint. constraint ≡ constraint_in (within scope.now) text.now) }
{
    let mut refused = First::none();
    match read_as(alloc, text, Kind::Bool, scope, &mut refused)? {
        Some(normal) => Ok(normal.into_constraint()),
        None => Ok(None),
    }
}

/// The shape of the type that a text stands for; `Never` where it stands for none. The one error is want of memory.
pub fn shape_in(alloc: Global, text: &TyExp, scope: &Scope<'_>) -> Result<Shape, AllocError>
    ensures { IfOk result (λ made. made ≡ shape_in (within scope.now) text.now) }
{
    match typ_in(alloc, text, scope)? {
        Some(typ) => shape_of(alloc, &typ),
        None => Ok(Shape::Never),
    }
}
