//! The identifiers for which the values of patterns are opened, and the types that are written at patterns.
ghost use Rattle.std.specs.Prelude.{◌≡◌, IfOk, map};
ghost use Rattle.std.specs.Option.{option_copied};
ghost use Rattle.value_indices.specs.declared.indices.Naming.{out-Naming};
ghost use Rattle.value_indices.specs.declared.indices.Naming.TheVariants as M;
ghost use Rattle.pattern_notes.specs.Patterns as patterns;

use sail_base::{Items, Text};
use sail_core::{Form, Head, Pattern, Written};
use std::alloc::{AllocError, Global};
use value_indices::Naming;

/// The identifiers for which a pattern's value is opened. It fails where memory is wanting.
#[cycle(naming)]
pub fn naming_of(alloc: Global, pattern: &Pattern) -> Result<Naming, AllocError>
    ensures { IfOk result (λ made. made ≡ patterns.Look.naming (patterns.look pattern.now)) }
{
    form_naming(alloc, &pattern.form, pattern.parts.as_slice())
}

/// Those of a form over these parts. It fails where memory is wanting.
#[cycle(naming)]
fn form_naming(alloc: Global, form: &Form, parts: &[Pattern]) -> Result<Naming, AllocError>
    ensures { IfOk result (λ made. made ≡ patterns.form_naming form.now (map patterns.look parts.now)) }
{
    match form {
        Form::Binds(name) => named(name),
        Form::As(name) => naming_as(alloc, name, parts),
        Form::Typed(_) => only_naming(alloc, parts),
        Form::Opens(head) => head_naming(alloc, head, parts),
        _ => Ok(Naming::Unnamed),
    }
}

/// One identifier. It fails where memory is wanting.
fn named(name: &Text) -> Result<Naming, AllocError>
    ensures { IfOk result (λ made. made ≡ M.Named name.now) }
{
    Ok(Naming::Named(name.clone()?))
}

/// Those of a pattern with a name. It fails where memory is wanting.
#[cycle(naming)]
fn naming_as(alloc: Global, name: &Text, parts: &[Pattern]) -> Result<Naming, AllocError>
    ensures { IfOk result (λ made. made ≡ patterns.as_naming name.now (map patterns.look parts.now)) }
{
    match parts {
        [part] => {
            let naming = naming_of(alloc, part)?;
            or_named(name, naming)
        }
        _ => Ok(Naming::Unnamed),
    }
}

/// Those of a pattern over one. It fails where memory is wanting.
#[cycle(naming)]
fn only_naming(alloc: Global, parts: &[Pattern]) -> Result<Naming, AllocError>
    ensures { IfOk result (λ made. made ≡ patterns.only_naming (map patterns.look parts.now)) }
{
    match parts {
        [part] => naming_of(alloc, part),
        _ => Ok(Naming::Unnamed),
    }
}

/// Those of a pattern that opens a value: of a tuple those of its parts. It fails where memory is wanting.
#[cycle(naming)]
fn head_naming(alloc: Global, head: &Head, parts: &[Pattern]) -> Result<Naming, AllocError>
    ensures { IfOk result (λ made. made ≡ patterns.head_naming head.now (map patterns.look parts.now)) }
{
    match head {
        Head::Tuple => Ok(Naming::Parts(part_namings(alloc, parts)?)),
        _ => Ok(Naming::Unnamed),
    }
}

/// Those of several patterns. It fails where memory is wanting.
#[cycle(naming)]
fn part_namings(alloc: Global, parts: &[Pattern]) -> Result<Items<Naming>, AllocError>
    ensures { IfOk result (λ made. made ≡ map (λ p. patterns.Look.naming p) (map patterns.look parts.now)) }
{
    let mut namings = Items::new(alloc);
    for part in parts {
        namings.push(naming_of(alloc, part)?)?;
    }
    Ok(namings)
}

/// A name for a value of which no other is known. It fails where memory is wanting.
fn or_named(name: &Text, naming: Naming) -> Result<Naming, AllocError>
    ensures { IfOk result (λ made. made ≡ patterns.or_named name.now naming (out-Naming naming)) }
{
    match &naming {
        Naming::Unnamed => named(name),
        _ => Ok(naming),
    }
}

/// The type that is written at a pattern; none where there is no such type.
#[cycle(written)]
pub fn written_of(pattern: &Pattern) -> Option<&Written>
    ensures { option_copied result ≡ patterns.Look.written (patterns.look pattern.now) }
{
    form_written(&pattern.form, pattern.parts.as_slice())
}

/// That of a form over these parts.
#[cycle(written)]
fn form_written<'a>(form: &'a Form, parts: &'a [Pattern]) -> Option<&'a Written>
    ensures { option_copied result ≡ patterns.form_written form.now (map patterns.look parts.now) }
{
    match form {
        Form::Typed(written) => Some(written),
        Form::As(_) => only_written(parts),
        _ => None,
    }
}

/// That of one pattern; none of several.
#[cycle(written)]
pub(crate) fn only_written(parts: &[Pattern]) -> Option<&Written>
    ensures { option_copied result ≡ patterns.only_written (map patterns.look parts.now) }
{
    match parts {
        [part] => written_of(part),
        _ => None,
    }
}
