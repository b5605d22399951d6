ghost use Rattle.std.specs.Prelude.{◌≡◌, ℕ, List, bytes_eq, if◌then◌else◌, IfOk, OnOk};
ghost use Rattle.std.specs.Option.{option_copied};
ghost use Rattle.sail_kinds.specs.Scopes.{type_named};
ghost use Rattle.sail_signatures.specs.Parts.{AreOf};
ghost use Rattle.sail_signatures.specs.Signatures.{signature_of};
ghost use Rattle.type_definitions.specs.Defined.{IsBetween};
ghost use Rattle.sail_tables.specs.Tabled.{signature_at};

use sail_signatures::{Callables, Signature, callable_name, read_signature};
use sail_syntax::Def;
use std::alloc::{AllocError, Global};
use std::collections::HashMap;
use type_definitions::Defined;

/// Gives a name its signature.
fn put_signature<'a>(
    signatures: &mut HashMap<&'a str, Option<Signature>>,
    name: &'a str,
    signature: Option<Signature>,
) -> Result<(), AllocError>
    ensures { OnOk result ((other : List ℕ) → signature_at signatures.new other
        ≡ (if bytes_eq name.now other then signature else signature_at signatures.old other)) }
{
    signatures.insert(name, signature)?;
    Ok(())
}

/// The signature of each function and mapping. The one error is want of memory.
pub(crate) fn find_signatures<'a>(
    alloc: Global,
    definitions: &'a [Def],
    callables: &Callables<'_>,
    types: &Defined<'_>,
) -> Result<HashMap<&'a str, Option<Signature>>, AllocError>
    requires between { IsBetween types.now }
    requires callables { AreOf definitions.now callables.now }
    ensures { IfOk result (λ signatures. (name : List ℕ) → signature_at signatures name ≡ signature_of (type_named types.now.names) definitions.now name) }
{
    let mut signatures = HashMap::new(alloc);
    for definition in definitions {
        if let Some(name) = callable_name(definition) {
            let signature = read_signature(alloc, &types.names, definitions, callables, name)?;
            put_signature(&mut signatures, name, signature)?;
        }
    }
    Ok(signatures)
}

/// The signature that a map holds of a name.
pub(crate) fn held_signature<'s>(
    signatures: &'s HashMap<&str, Option<Signature>>,
    name: &str,
) -> Option<&'s Signature>
    ensures { option_copied result ≡ signature_at signatures.now name.now }
{
    match signatures.get(name) {
        Some(Some(signature)) => Some(signature),
        _ => None,
    }
}
