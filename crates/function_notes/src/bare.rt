//! Clauses of a function that no `val` declares, without the types that are written at them.
ghost use Rattle.std.specs.Prelude.{◌≡◌, IfOk, map, true, unwrap_or};
ghost use Rattle.std.specs.Option.{option_copied};
ghost use Rattle.sail_core.specs.declared.patterns.Pattern.{out-Pattern};
ghost use Rattle.sail_core.specs.declared.tree.Core.{out-Core};
ghost use Rattle.function_notes.specs.Functions as spec;

use sail_base::Items;
use sail_core::{Arm, Core, Form, Head, Kind, Literal, Pattern, Written, WrittenNumber};
use sail_types::{Num, copy_num};
use std::alloc::{AllocError, Global};
use type_arguments::copy_typ;

/// The same numbers once more. It fails where memory is wanting.
fn copy_numbers(
    alloc: Global,
    numbers: &[WrittenNumber],
) -> Result<Items<WrittenNumber>, AllocError>
    ensures { IfOk result (λ copies. copies ≡ numbers.now) }
{
    let mut copies = Items::new(alloc);
    for number in numbers {
        let value = copy_num(alloc, &number.number)?;
        copies.push(WrittenNumber {
            place: number.place,
            number: value,
            role: number.role,
        })?;
    }
    Ok(copies)
}

/// The same written type once more. It fails where memory is wanting.
fn copy_written(alloc: Global, written: &Written) -> Result<Written, AllocError>
    ensures { IfOk result (λ copy. copy ≡ written.now) }
{
    let typ = copy_typ(alloc, &written.typ)?;
    let numbers = copy_numbers(alloc, written.numbers.as_slice())?;
    Ok(Written {
        place: written.place,
        typ,
        numbers,
    })
}

/// The same literal once more. It fails where memory is wanting.
fn copy_literal(literal: &Literal) -> Result<Literal, AllocError>
    ensures { IfOk result (λ copy. copy ≡ literal.now) }
{
    match literal {
        Literal::Unit => Ok(Literal::Unit),
        Literal::Integer(number) => Ok(Literal::Integer(*number)),
        Literal::Truth(truth) => Ok(Literal::Truth(*truth)),
        Literal::Bit(bit) => Ok(Literal::Bit(*bit)),
        Literal::Bits(word) => Ok(Literal::Bits(*word)),
        Literal::String(text) => Ok(Literal::String(text.clone()?)),
        Literal::Member(place, member) => Ok(Literal::Member(*place, *member)),
    }
}

/// A width that may be known, once more. It fails where memory is wanting.
fn copy_width(alloc: Global, width: &Option<Num>) -> Result<Option<Num>, AllocError>
    ensures { IfOk result (λ copy. copy ≡ width.now) }
{
    match width {
        None => Ok(None),
        Some(width) => Ok(Some(copy_num(alloc, width)?)),
    }
}

/// Widths, as far as they are known, once more. It fails where memory is wanting.
fn copy_widths(alloc: Global, widths: &[Option<Num>]) -> Result<Items<Option<Num>>, AllocError>
    ensures { IfOk result (λ copies. copies ≡ widths.now) }
{
    let mut copies = Items::new(alloc);
    for width in widths {
        copies.push(copy_width(alloc, width)?)?;
    }
    Ok(copies)
}

/// The same head once more. It fails where memory is wanting.
fn copy_head(alloc: Global, head: &Head) -> Result<Head, AllocError>
    ensures { IfOk result (λ copy. copy ≡ head.now) }
{
    match head {
        Head::Is(literal) => Ok(Head::Is(copy_literal(literal)?)),
        Head::Tuple => Ok(Head::Tuple),
        Head::Constructor(place, constructor) => Ok(Head::Constructor(*place, *constructor)),
        Head::Vector => Ok(Head::Vector),
        Head::List => Ok(Head::List),
        Head::Cons => Ok(Head::Cons),
        Head::Cut(widths) => Ok(Head::Cut(copy_widths(alloc, widths.as_slice())?)),
    }
}

/// The same form once more. It fails where memory is wanting.
fn copy_form(alloc: Global, form: &Form) -> Result<Form, AllocError>
    ensures { IfOk result (λ copy. copy ≡ form.now) }
{
    match form {
        Form::Any => Ok(Form::Any),
        Form::Binds(name) => Ok(Form::Binds(name.clone()?)),
        Form::As(name) => Ok(Form::As(name.clone()?)),
        Form::Typed(written) => Ok(Form::Typed(copy_written(alloc, written)?)),
        Form::Opens(head) => Ok(Form::Opens(copy_head(alloc, head)?)),
        Form::Maps(direction) => Ok(Form::Maps(*direction)),
        Form::Sees(direction) => Ok(Form::Sees(*direction)),
    }
}

/// Whether a form is a written type.
fn is_typed(form: &Form) -> bool
    ensures { result ≡ spec.is_typed form.now }
{
    match form {
        Form::Typed(_) => true,
        _ => false,
    }
}

/// The pattern at which a type is written; none where a pattern isn't of that form.
fn behind_annotation(pattern: &Pattern) -> Option<&Pattern>
    ensures { option_copied result ≡ spec.only (spec.is_typed (out-Pattern pattern.now).form) (out-Pattern pattern.now).parts }
{
    if !is_typed(&pattern.form) {
        return None;
    }
    match pattern.parts.as_slice() {
        [part] => Some(part),
        _ => None,
    }
}

/// A pattern without the types that are written in it. It fails where memory is wanting.
#[cycle(bare)]
#[tactic(auto, using(crate::proofs::Stripped::bare_part, crate::proofs::Stripped::bare_whole))]
fn bare_pattern(alloc: Global, pattern: &Pattern) -> Result<Pattern, AllocError>
    ensures { IfOk result (λ made. made ≡ spec.bare_pattern pattern.now) }
{
    match behind_annotation(pattern) {
        Some(part) => bare_pattern(alloc, part),
        None => {
            let parts = bare_patterns(alloc, pattern.parts.as_slice())?;
            let form = copy_form(alloc, &pattern.form)?;
            Ok(Pattern {
                place: pattern.place,
                form,
                parts,
            })
        }
    }
}

/// Patterns without the types that are written in them. It fails where memory is wanting.
#[cycle(bare)]
fn bare_patterns(alloc: Global, patterns: &[Pattern]) -> Result<Items<Pattern>, AllocError>
    ensures { IfOk result (λ made. made ≡ map spec.bare_pattern patterns.now) }
{
    let mut made = Items::new(alloc);
    for pattern in patterns {
        made.push(bare_pattern(alloc, pattern)?)?;
    }
    Ok(made)
}

/// An arm without the types that are written in its patterns; none where it is a flat one, which has none. It fails where memory is
/// wanting.
pub fn bare_arm(alloc: Global, arm: &Arm) -> Result<Option<Arm>, AllocError>
    ensures { IfOk result (λ made. unwrap_or made arm.now ≡ spec.bare_arm arm.now) }
{
    match arm {
        Arm::Nested(patterns) => Ok(Some(Arm::Nested(bare_patterns(alloc, patterns.as_slice())?))),
        Arm::Flat(_, _) => Ok(None),
    }
}

/// Whether a node comes to a type that is written.
fn comes_to_written(kind: &Kind) -> bool
    ensures { result ≡ spec.comes_to_written kind.now }
{
    match kind {
        Kind::Cast(Some(_)) => true,
        _ => false,
    }
}

/// Whether a node comes to a type that isn't written.
fn comes_to_result(kind: &Kind) -> bool
    ensures { result ≡ spec.comes_to_result kind.now }
{
    match kind {
        Kind::Cast(None) => true,
        _ => false,
    }
}

/// The one of several nodes; none where there is none or more.
fn only(parts: &[Core]) -> Option<&Core>
    ensures { option_copied result ≡ spec.only true parts.now }
{
    match parts {
        [part] => Some(part),
        _ => None,
    }
}

/// What stands behind a written type; none where a node isn't of that kind.
pub(crate) fn behind_type(core: &Core) -> Option<&Core>
    ensures { option_copied result ≡ spec.behind_type (out-Core core.now) }
{
    if comes_to_written(&core.kind) {
        only(core.parts.as_slice())
    } else {
        None
    }
}

/// What comes to the type of the result; none where a node isn't of that kind.
pub fn behind_result(core: &Core) -> Option<&Core>
    ensures { option_copied result ≡ spec.only (spec.comes_to_result (out-Core core.now).kind) (out-Core core.now).parts }
{
    if comes_to_result(&core.kind) {
        only(core.parts.as_slice())
    } else {
        None
    }
}

/// What stands behind the type that is written before a body; where none is, the body.
pub fn unwritten(core: &Core) -> &Core
    ensures { result.now ≡ spec.unwritten core.now }
{
    match behind_result(core) {
        None => core,
        Some(inside) => match behind_type(inside) {
            None => core,
            Some(part) => part,
        },
    }
}
