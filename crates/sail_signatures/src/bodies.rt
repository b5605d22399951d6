ghost use Rattle.std.specs.Prelude.{◌≡◌, IfOk, OnOk, None, map};
ghost use Rattle.std.specs.Option.{option_copied};
ghost use Rattle.sail_kinds.specs.Scopes.{within, type_named, own_of};
ghost use Rattle.sail_types.specs.Readings.{together};
ghost use Rattle.sail_signatures.specs.Signatures.{annotation as annotation_of, taken_together as types_together, typ_annotated, typ_written};
ghost use Rattle.sail_signatures.specs.Signatures.{clause_signature, body_signature, sides_signature};

use crate::reading::{read_typ, signature_of};
use crate::signature::Signature;
use sail_base::Items;
use sail_kinds::{Binders, First, Scope, TypeNames};
use sail_syntax::{Extent, FunctionClause, Pat, Sides, TyExp};
use sail_types::{Con, Typ};
use std::alloc::{AllocError, Global};

/// The type that is written at a parameter.
fn annotation(pattern: &Pat) -> Option<&TyExp>
    ensures { option_copied result ≡ annotation_of pattern.now }
{
    match pattern {
        Pat::Typed(_, _, typ) => Some(typ),
        _ => None,
    }
}

/// What a function takes that has parameters of these types: unit for none, the type of one, a tuple of several.
fn taken_together(types: Items<Typ>) -> Typ
    ensures { result ≡ types_together types }
{
    let mut types = types.into_vec();
    if types.len() > 1 {
        return Typ::Tuple(Items::from_vec(types));
    }
    match types.pop() {
        None => Typ::Unit,
        Some(typ) => typ,
    }
}

/// The type that is written somewhere, where one is.
fn read_written(
    alloc: Global,
    typ: Option<&TyExp>,
    scope: &Scope<'_>,
) -> Result<Option<Typ>, AllocError>
    ensures { IfOk result (λ read. read ≡ typ_written (within scope.now) (option_copied typ.entry)) }
{
    let mut unused = First::none();
    match typ {
        None => Ok(None),
        Some(typ) => read_typ(alloc, typ, scope, &mut unused),
    }
}

/// The types of parameters that all have theirs.
fn read_parameters(
    alloc: Global,
    parameters: &[Pat],
    scope: &Scope<'_>,
) -> Result<Option<Items<Typ>>, AllocError>
    ensures { IfOk result (λ types. types ≡ together (map (typ_annotated (within scope.now)) parameters.now)) }
{
    let mut types = Items::new(alloc);
    for parameter in parameters {
        match read_written(alloc, annotation(parameter), scope)? {
            None => return Ok(None),
            Some(typ) => types.push(typ)?,
        }
    }
    Ok(Some(types))
}

/// The signature of a function's clause that has its types.
fn read_clause(
    alloc: Global,
    names: &TypeNames<'_>,
    clause: &FunctionClause,
) -> Result<Option<Signature>, AllocError>
    requires { own_of names.now ≡ None }
    ensures { IfOk result (λ read. read ≡ clause_signature (type_named names.now) clause.now) }
{
    let binders = Binders::Parameters(&[]);
    let scope = Scope::new(names, &binders);
    let from = read_parameters(alloc, clause.parameters.as_slice(), &scope)?.map(taken_together);
    let to = read_written(alloc, clause.result.as_ref(), &scope)?;
    Ok(signature_of(Items::new(alloc), Some(Con::Truth(true)), from, to))
}

/// The signature of a function by its body: that of its first clause, where it stands in one piece. What fails in it isn't noted
/// here. The one error is want of memory.
pub(crate) fn read_body(
    alloc: Global,
    names: &TypeNames<'_>,
    extent: Extent,
    clauses: &[FunctionClause],
) -> Result<Option<Signature>, AllocError>
    requires { own_of names.now ≡ None }
    ensures { IfOk result (λ read. read ≡ body_signature (type_named names.now) extent clauses.now) }
{
    match (extent, clauses.first()) {
        (Extent::Whole, Some(clause)) => read_clause(alloc, names, clause),
        _ => Ok(None),
    }
}

/// The signature of a mapping by the types of its sides. What fails in them isn't noted here. The one error is want of memory.
pub(crate) fn read_sides(
    alloc: Global,
    names: &TypeNames<'_>,
    sides: &Sides,
) -> Result<Option<Signature>, AllocError>
    requires { own_of names.now ≡ None }
    ensures { IfOk result (λ read. read ≡ sides_signature (type_named names.now) sides.now) }
{
    let binders = Binders::Parameters(&[]);
    let scope = Scope::new(names, &binders);
    let from = read_written(alloc, Some(&sides.left), &scope)?;
    let to = read_written(alloc, Some(&sides.right), &scope)?;
    Ok(signature_of(Items::new(alloc), Some(Con::Truth(true)), from, to))
}
