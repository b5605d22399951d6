ghost use Rattle.std.specs.Prelude.{◌≡◌, IfOk, IfErr};
ghost use Rattle.sail_kinds.specs.Scopes.{within};
ghost use Rattle.sail_kinds.specs.Normal.{reading, stands_for};
ghost use Rattle.normal_forms.specs.Refusals.{AreKnown, IsRefusal};

use sail_kinds::laws::first_failures_are_least;
use sail_kinds::{First, Scope, TableError, read};
use sail_syntax::TyExp;
use std::alloc::Global;
use type_arguments::Normal;

/// What a type's text stands for, or the first failure of that text, where no name is that of a type whose
/// definition has failed. Want of memory is `OutOfMemory`.
pub fn normal(alloc: Global, typ: &TyExp, scope: &Scope<'_>) -> Result<Normal, TableError>
    requires { AreKnown (within scope.now).types }
    ensures normal { IfOk result (λ normal. reading typ.now (within scope.now) ≡ stands_for normal) }
    ensures failure { IfErr result (IsRefusal (reading typ.now (within scope.now)).failures) }
{
    first_failures_are_least();
    let mut first = First::none();
    let normal = read(alloc, typ, scope, &mut first)?;
    match first.error.take() {
        Some(error) => Err(error),
        None => Ok(normal.unwrap()),
    }
}
