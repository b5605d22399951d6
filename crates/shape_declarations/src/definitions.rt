//! Types, signatures and sides of mappings, whose written types are looked at.
ghost use Rattle.std.specs.Prelude.{◌≡◌, None, OnOk};
ghost use Rattle.sail_kinds.specs.Scopes.{within, type_named, own_of};
ghost use Rattle.sail_signatures.specs.Signatures.{binding};
ghost use Rattle.shape_rules.specs.Findings.{first_failure};
ghost use Rattle.shape_rules.specs.Written.{written_faults};
ghost use Rattle.shape_models.specs.Models.{params_variables};
ghost use Rattle.shape_models.specs.Sources.{tabled_by, IsSound};
ghost use Rattle.shape_declarations.specs.Failures.{members_faults, sides_faults, typ_faults, types_faults};

use crate::vals::note_val;
use sail_kinds::{Binders, Scope, TypeNames, Variable};
use sail_syntax::{Def, Member, Param, Sides, TyExp};
use shape_models::Source;
use shape_rules::First;
use std::alloc::{AllocError, Global};
use type_definitions::variables_of;
use written_types::note_written;

/// Notes the failures in the types of fields or constructors.
#[tactic(auto, using(shape_rules::proofs::Firsts::first_failure_append))]
fn note_members(
    alloc: Global,
    members: &[Member],
    scope: &Scope<'_>,
    first: &mut First,
) -> Result<(), AllocError>
    ensures { OnOk result (first.new.error ≡ first_failure first.old.error (members_faults (within scope.now) members.now)) }
{
    for member in members {
        note_written(alloc, &member.typ, scope, first)?;
    }
    Ok(())
}

/// Likewise under these variables, where these types can be named.
fn note_members_under(
    alloc: Global,
    names: &TypeNames<'_>,
    variables: &[Variable],
    members: &[Member],
    first: &mut First,
) -> Result<(), AllocError>
    requires { own_of names.now ≡ None }
    ensures { OnOk result (first.new.error ≡ first_failure first.old.error
        (members_faults (binding (type_named names.now) variables.now) members.now)) }
{
    let binders = Binders::Parameters(variables);
    let scope = Scope::new(names, &binders);
    note_members(alloc, members, &scope, first)
}

/// Notes the failures of a struct or union with these parameters.
fn note_defined(
    alloc: Global,
    names: &TypeNames<'_>,
    parameters: &[Param],
    members: &[Member],
    first: &mut First,
) -> Result<(), AllocError>
    requires { own_of names.now ≡ None }
    ensures { OnOk result (first.new.error ≡ first_failure first.old.error
        (members_faults (binding (type_named names.now) (params_variables parameters.now)) members.now)) }
{
    let variables = variables_of(alloc, parameters)?;
    note_members_under(alloc, names, variables.as_slice(), members, first)
}

/// Notes the failures of a written type under these variables, where these types can be named.
fn note_written_under(
    alloc: Global,
    names: &TypeNames<'_>,
    variables: &[Variable],
    typ: &TyExp,
    first: &mut First,
) -> Result<(), AllocError>
    requires { own_of names.now ≡ None }
    ensures { OnOk result (first.new.error ≡ first_failure first.old.error
        (written_faults (binding (type_named names.now) variables.now) typ.now)) }
{
    let binders = Binders::Parameters(variables);
    let scope = Scope::new(names, &binders);
    note_written(alloc, typ, &scope, first)
}

/// Notes the failures in the right side of a `type` with these parameters.
fn note_alias(
    alloc: Global,
    names: &TypeNames<'_>,
    parameters: &[Param],
    typ: &TyExp,
    first: &mut First,
) -> Result<(), AllocError>
    requires { own_of names.now ≡ None }
    ensures { OnOk result (first.new.error ≡ first_failure first.old.error
        (written_faults (binding (type_named names.now) (params_variables parameters.now)) typ.now)) }
{
    let variables = variables_of(alloc, parameters)?;
    note_written_under(alloc, names, variables.as_slice(), typ, first)
}

/// Notes the failures in the types of a mapping's sides. The one error is want of memory.
#[tactic(auto, using(shape_rules::proofs::Firsts::first_failure_append))]
pub fn note_sides(
    alloc: Global,
    sides: &Option<Sides>,
    scope: &Scope<'_>,
    first: &mut First,
) -> Result<(), AllocError>
    ensures { OnOk result (first.new.error ≡ first_failure first.old.error (sides_faults (within scope.now) sides.now)) }
{
    match sides {
        None => Ok(()),
        Some(sides) => {
            note_written(alloc, &sides.left, scope, first)?;
            note_written(alloc, &sides.right, scope, first)
        }
    }
}

/// Notes the failures of a type or signature.
fn note_typ(
    alloc: Global,
    source: &Source<'_>,
    definition: &Def,
    first: &mut First,
) -> Result<(), AllocError>
    requires { IsSound source.now }
    ensures { OnOk result (first.new.error ≡ first_failure first.old.error (typ_faults (tabled_by source.now) definition.now)) }
{
    match definition {
        Def::Alias { variables, typ, .. } => {
            note_alias(alloc, source.names, variables.as_slice(), typ, first)
        }
        Def::Struct {
            variables,
            fields,
            ..
        } => note_defined(
            alloc,
            source.names,
            variables.as_slice(),
            fields.as_slice(),
            first,
        ),
        Def::Union {
            variables,
            constructors,
            ..
        } => note_defined(
            alloc,
            source.names,
            variables.as_slice(),
            constructors.as_slice(),
            first,
        ),
        Def::Val {
            quantifier,
            from,
            arrow,
            to,
            ..
        } => note_val(alloc, source.names, *arrow, quantifier, from, to, first),
        _ => Ok(()),
    }
}

/// Notes the failures of the types and signatures of a model. The one error is want of memory.
#[tactic(auto, using(shape_rules::proofs::Firsts::first_failure_append))]
pub fn note_types(alloc: Global, source: &Source<'_>, first: &mut First) -> Result<(), AllocError>
    requires { IsSound source.now }
    ensures { OnOk result (first.new.error
        ≡ first_failure first.old.error (types_faults (tabled_by source.now) source.now.definitions.now)) }
{
    let definitions = source.definitions;
    for definition in definitions {
        note_typ(alloc, source, definition, first)?;
    }
    Ok(())
}
