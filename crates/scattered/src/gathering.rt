ghost use Rattle.std.specs.Prelude.{◌≡◌, IfErr, IfOk, OnOk, None};
ghost use Rattle.scattered.specs.Gathered.{gathered};
ghost use Rattle.scattered.specs.Refused.{refusal, IsRefusal};

use crate::checking::check;
use crate::error::ScatterError;
use crate::joining::join;
use crate::openings::find_openings;
use sail_syntax::Def;
use std::alloc::Global;

/// The gathered text: each scattered union, function and mapping stands whole at its opening, with its
/// clauses in text order, and clauses and `end`s are gone.
///
/// The error is that of the first definition, in text order, that fails: `NoOpening` of a clause or an `end`
/// before which no opening stands that it can belong to, `Unended` of an opening that no `end` ends.
/// `OutOfMemory` says nothing of the definitions.
pub fn gather(alloc: Global, definitions: Vec<Def>) -> Result<Vec<Def>, ScatterError>
    ensures accepted { OnOk result (refusal definitions.items ≡ None) }
    ensures gathered { IfOk result (λ whole. whole.items ≡ gathered definitions.items) }
    ensures refused { IfErr result (IsRefusal (refusal definitions.items)) }
{
    let openings = find_openings(alloc, definitions.as_slice())?;
    check(alloc, definitions.as_slice(), openings.as_slice())?;
    let whole = join(alloc, definitions, openings.as_slice())?;
    Ok(whole)
}
