ghost use Rattle.std.specs.Prelude.{◌≡◌, IfOk, None, slice_get};
ghost use Rattle.std.specs.Option.{option_copied};
ghost use Rattle.sail_types.specs.Sums.{and_then};
ghost use Rattle.sail_kinds.specs.Scopes.{type_named, own_of};
ghost use Rattle.sail_signatures.specs.Parts.{AreOf};
ghost use Rattle.sail_signatures.specs.Signatures.{signature_of, definition_signature, maybe_sides_signature, quantified as quantified_of, variables_in};
ghost use Rattle.type_definitions.specs.Defined.{variables_of as variables_of_all};

use crate::bodies::{read_body, read_sides};
use crate::parts::Callables;
use crate::reading::read_val;
use crate::signature::Signature;
use sail_base::Items;
use sail_kinds::{First, TypeNames, Variable};
use sail_syntax::{Def, Param, Sides};
use std::alloc::{AllocError, Global};
use type_definitions::variables_of;

fn read_maybe_sides(
    alloc: Global,
    names: &TypeNames<'_>,
    sides: &Option<Sides>,
) -> Result<Option<Signature>, AllocError>
    requires { own_of names.now ≡ None }
    ensures { IfOk result (λ read. read ≡ maybe_sides_signature (type_named names.now) sides.now) }
{
    match sides {
        None => Ok(None),
        Some(sides) => read_sides(alloc, names, sides),
    }
}

/// The types that a definition gives a function or mapping. What fails in them isn't noted here.
fn read_definition(
    alloc: Global,
    names: &TypeNames<'_>,
    definition: &Def,
) -> Result<Option<Signature>, AllocError>
    requires { own_of names.now ≡ None }
    ensures { IfOk result (λ read. read ≡ definition_signature (type_named names.now) definition.now) }
{
    let mut unused = First::none();
    match definition {
        Def::Val {
            quantifier,
            from,
            to,
            ..
        } => read_val(alloc, names, quantifier, from, to, &mut unused),
        Def::Function {
            extent,
            clauses,
            ..
        } => read_body(alloc, names, *extent, clauses.as_slice()),
        Def::Mapping { sides, .. } => read_maybe_sides(alloc, names, sides),
        _ => Ok(None),
    }
}

/// The definition at a position, where there is one.
fn definition_at(definitions: &[Def], at: Option<usize>) -> Option<&Def>
    ensures { option_copied result ≡ and_then at (slice_get definitions.now) }
{
    match at {
        None => None,
        Some(at) => definitions.get(at),
    }
}

/// The signature of a function or mapping of a text, whose callables these are: that of its `val`, where it has one, else
/// that of its body; none where it has no such part, or a type in it stands for nothing. The one error is want of memory.
pub fn read_signature(
    alloc: Global,
    names: &TypeNames<'_>,
    definitions: &[Def],
    callables: &Callables<'_>,
    name: &str,
) -> Result<Option<Signature>, AllocError>
    requires no_union { own_of names.now ≡ None }
    requires callables { AreOf definitions.now callables.now }
    ensures { IfOk result (λ read. read ≡ signature_of (type_named names.now) definitions.now name.now) }
{
    let parts = callables.parts(name);
    match definition_at(definitions, parts.val.or(parts.body)) {
        None => Ok(None),
        Some(definition) => read_definition(alloc, names, definition),
    }
}

/// The type variables that a definition binds which is a `val`.
fn quantified(definition: Option<&Def>) -> &[Param]
    ensures { result.now ≡ quantified_of (option_copied definition.entry) }
{
    match definition {
        Some(Def::Val { quantifier, .. }) => quantifier.variables.as_slice(),
        _ => &[],
    }
}

/// The type variables that the body of a name can name: its `val` binds them. The one error is want of memory.
pub fn find_variables(
    alloc: Global,
    definitions: &[Def],
    callables: &Callables<'_>,
    name: &str,
) -> Result<Items<Variable>, AllocError>
    requires { AreOf definitions.now callables.now }
    ensures { IfOk result (λ variables. variables ≡ variables_of_all (variables_in definitions.now name.now)) }
{
    let parts = callables.parts(name);
    let definition = definition_at(definitions, parts.val);
    variables_of(alloc, quantified(definition))
}
