//! Whether structs can be taken apart, and built anew with other values in some fields.
ghost use Rattle.std.specs.Prelude.{◌≡◌, length, IfOk};
ghost use Rattle.lowered_pieces.specs.Forms.{set_fields};
ghost use Rattle.lowered_validity.specs.Typing as typing;
ghost use Rattle.lowered_typed.specs.Here as here;
ghost use Rattle.lowered_typed.specs.Judged as judged;

use crate::signs::Judge;
use crate::works::{both, joined, operands_from, works, works_on};
use jib::{Operation, Source};
use lowered_steps::{as_number, field_types, further, place_each};
use sail_base::Items;
use size_values::Sized;
use std::alloc::AllocError;

/// Whether these are the types of a struct's fields from one on. It fails where memory is wanting.
fn are_fields(
    judge: &Judge<'_>,
    whole: &Sized,
    field: u32,
    types: &[Sized],
) -> Result<bool, AllocError>
    ensures { IfOk result (λ answer. answer ≡ here.takes_fields judge.now whole.now field types.now) }
{
    match types {
        [] => Ok(true),
        [first, rest @ ..] => {
            let one = works_on(judge, Operation::Field(field), whole, first)?;
            let next = further(field, 1)?;
            let other = are_fields(judge, whole, next, rest)?;
            let all = both(one, other);
            Ok(all)
        }
    }
}

/// Operands in slots: of new values, which come to these fields, and of old ones behind them, in the rest. They fail where memory is wanting.
fn field_sources(
    judge: &Judge<'_>,
    fields: &[u32],
    new: &[Sized],
    old: &[Sized],
) -> Result<Items<Source>, AllocError>
    ensures { IfOk result (λ sources. sources ≡ set_fields fields.now (typing.operands 0 (here.numbers judge.now new.now))
        (typing.operands (length new.now) (here.numbers judge.now old.now))) }
{
    let values = operands_from(judge, 0, new)?;
    let count = new.len();
    let first = as_number(count)?;
    let mut sources = operands_from(judge, first, old)?;
    let listed = values.as_slice();
    place_each(fields, listed, &mut sources);
    Ok(sources)
}

/// Whether a struct is built of values of new types in these fields, and of old ones in the rest. It fails where memory is wanting.
fn is_built(
    judge: &Judge<'_>,
    fields: &[u32],
    new: &[Sized],
    old: &[Sized],
    gives: &Sized,
) -> Result<bool, AllocError>
    ensures { IfOk result (λ answer. answer ≡ judged.is_built judge.now fields.now new.now old.now gives.now) }
{
    let sources = field_sources(judge, fields, new, old)?;
    let types = joined(judge.alloc, new, old)?;
    works(
        judge,
        Operation::Build,
        sources.as_slice(),
        types.as_slice(),
        gives,
    )
}

/// Whether a struct can be taken apart, and built anew with other values in these fields. It fails where memory is wanting.
pub fn changes(
    judge: &Judge<'_>,
    fields: &[u32],
    types: &[Sized],
    gives: &Sized,
) -> Result<bool, AllocError>
    ensures { IfOk result (λ answer. answer ≡ here.is_with judge.now fields.now types.now gives.now) }
{
    match types {
        [] => Ok(true),
        [whole, new @ ..] => {
            let old = field_types(judge.alloc, judge.setting.types, whole)?;
            let listed = old.as_slice();
            let one = are_fields(judge, whole, 0, listed)?;
            let other = is_built(judge, fields, new, listed, gives)?;
            let all = both(one, other);
            Ok(all)
        }
    }
}
