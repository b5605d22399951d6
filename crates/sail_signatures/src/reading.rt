ghost use Rattle.std.specs.Prelude.{◌≡◌, IfOk, OnOk, option_map};
ghost use Rattle.sail_base.specs.declared.kind.Kind.TheVariants as kind;
ghost use Rattle.sail_kinds.specs.Failures.{first_failure};
ghost use Rattle.sail_kinds.specs.Normal.{reading_as};
ghost use Rattle.sail_kinds.specs.Scopes.{within, type_named, own_of};
ghost use Rattle.sail_signatures.specs.Signatures.{typ_read, constraint_read, constraint_failures, signature_if};
ghost use Rattle.sail_signatures.specs.Signatures.{binding, part_failures, val_failures, val_signature};

use crate::signature::Signature;
use sail_base::{Items, Kind};
use sail_kinds::{Binders, First, Scope, TypeNames, Variable, read_as};
use sail_syntax::{Quantifier, TyExp};
use sail_types::{Con, Typ};
use std::alloc::{AllocError, Global};
use type_definitions::{note_parameters, variables_of};

/// The type that a text stands for, and notes its failures. The one error is want of memory.
pub fn read_typ(
    alloc: Global,
    typ: &TyExp,
    scope: &Scope<'_>,
    first: &mut First,
) -> Result<Option<Typ>, AllocError>
    ensures failures { OnOk result (first.new.error ≡ first_failure first.old.error (reading_as kind.Type typ.now (within scope.now)).failures) }
    ensures typ { IfOk result (λ read. read ≡ typ_read (within scope.now) typ.now) }
{
    match read_as(alloc, typ, Kind::Type, scope, first)? {
        Some(normal) => Ok(normal.into_typ()),
        None => Ok(None),
    }
}

/// The constraint of a `forall`, which holds where there is none, and notes its failures.
fn read_constraint(
    alloc: Global,
    constraint: &Option<TyExp>,
    scope: &Scope<'_>,
    first: &mut First,
) -> Result<Option<Con>, AllocError>
    ensures failures { OnOk result (first.new.error ≡ first_failure first.old.error (constraint_failures (within scope.now) constraint.now)) }
    ensures constraint { IfOk result (λ read. read ≡ constraint_read (within scope.now) constraint.now) }
{
    match constraint {
        None => Ok(Some(Con::Truth(true))),
        Some(constraint) => match read_as(alloc, constraint, Kind::Bool, scope, first)? {
            Some(normal) => Ok(normal.into_constraint()),
            None => Ok(None),
        },
    }
}

/// A signature where all its parts stand for something.
pub(crate) fn signature_of(
    variables: Items<Variable>,
    constraint: Option<Con>,
    from: Option<Typ>,
    to: Option<Typ>,
) -> Option<Signature>
    ensures { result ≡ signature_if variables constraint from to }
{
    match (constraint, from, to) {
        (Some(constraint), Some(from), Some(to)) => Some(Signature {
            variables,
            constraint,
            from,
            to,
        }),
        _ => None,
    }
}

/// The constraint of a `val` and its types, each where it stands for something, and notes their failures.
#[tactic(auto, using(sail_kinds::proofs::Firsts::first_failure_append))]
fn read_parts(
    alloc: Global,
    quantifier: &Quantifier,
    from: &TyExp,
    to: &TyExp,
    scope: &Scope<'_>,
    first: &mut First,
) -> Result<(Option<Con>, Option<Typ>, Option<Typ>), AllocError>
    ensures failures { OnOk result (first.new.error ≡ first_failure first.old.error (part_failures (within scope.now) quantifier.now from.now to.now)) }
    ensures constraint { IfOk result (λ read. read.0 ≡ constraint_read (within scope.now) quantifier.now.constraint) }
    ensures from { IfOk result (λ read. read.1 ≡ typ_read (within scope.now) from.now) }
    ensures to { IfOk result (λ read. read.2 ≡ typ_read (within scope.now) to.now) }
{
    let constraint = read_constraint(alloc, &quantifier.constraint, scope, first)?;
    let from = read_typ(alloc, from, scope, first)?;
    let to = read_typ(alloc, to, scope, first)?;
    Ok((constraint, from, to))
}

/// Likewise under these type variables.
fn read_under(
    alloc: Global,
    names: &TypeNames<'_>,
    variables: &[Variable],
    val: (&Quantifier, &TyExp, &TyExp),
    first: &mut First,
) -> Result<(Option<Con>, Option<Typ>, Option<Typ>), AllocError>
    requires { own_of names.now ≡ None }
    ensures failures { OnOk result (first.new.error
        ≡ first_failure first.old.error (part_failures (binding (type_named names.now) variables.now) val.entry.0.now val.entry.1.now val.entry.2.now)) }
    ensures constraint { IfOk result (λ read. read.0 ≡ constraint_read (binding (type_named names.now) variables.now) val.entry.0.now.constraint) }
    ensures from { IfOk result (λ read. read.1 ≡ typ_read (binding (type_named names.now) variables.now) val.entry.1.now) }
    ensures to { IfOk result (λ read. read.2 ≡ typ_read (binding (type_named names.now) variables.now) val.entry.2.now) }
{
    let binders = Binders::Parameters(variables);
    let scope = Scope::new(names, &binders);
    read_parts(alloc, val.0, val.1, val.2, &scope, first)
}

/// The signature of a `val` where these types can be named, and notes its failures: equal names of type variables, and those of
/// its constraint and its types. There is none where one of these stands for nothing. The one error is want of memory.
#[tactic(auto, using(sail_kinds::proofs::Firsts::first_failure_append))]
pub fn read_val(
    alloc: Global,
    names: &TypeNames<'_>,
    quantifier: &Quantifier,
    from: &TyExp,
    to: &TyExp,
    first: &mut First,
) -> Result<Option<Signature>, AllocError>
    requires { own_of names.now ≡ None }
    ensures failures { OnOk result (first.new.error ≡ first_failure first.old.error (val_failures (type_named names.now) quantifier.now from.now to.now)) }
    ensures signature { IfOk result (λ read. read ≡ val_signature (type_named names.now) quantifier.now from.now to.now) }
{
    note_parameters(alloc, quantifier.variables.as_slice(), first)?;
    let variables = variables_of(alloc, quantifier.variables.as_slice())?;
    let (constraint, from, to) = read_under(
        alloc,
        names,
        variables.as_slice(),
        (quantifier, from, to),
        first,
    )?;
    Ok(signature_of(variables, constraint, from, to))
}
