//! What calls owe under the numbers of their arguments.
ghost use Rattle.std.specs.Prelude.{◌≡◌, IfOk};
ghost use Rattle.row_types.specs.Goals.{owed as owed_of};

use sail_base::Items;
use sail_types::{Con, Index, read_con};
use std::alloc::{AllocError, Global};

/// What a call owes, where the variables of its row stand for these: each of the row's conditions, read under
/// them; `false` where a number past the largest integer stands on the way. It fails where memory is wanting.
pub fn owed(alloc: Global, conditions: Items<Con>, indices: &[Index]) -> Result<Con, AllocError>
    ensures { IfOk result (λ goal. goal ≡ owed_of conditions indices.now) }
{
    let whole = Con::All(conditions);
    match read_con(alloc, &whole, indices)? {
        None => Ok(Con::Truth(false)),
        Some(goal) => Ok(goal),
    }
}
