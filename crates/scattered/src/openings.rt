ghost use Rattle.std.specs.Prelude.{◌≡◌, [], IfOk};
ghost use Rattle.scattered.specs.Openings.{openings_of};

use crate::standing::Standing;
use sail_syntax::Def;
use std::alloc::{AllocError, Global};

/// For each definition the number, in the gathered text, of the opening to which it belongs. The one error
/// is want of memory.
pub(crate) fn find_openings(
    alloc: Global,
    definitions: &[Def],
) -> Result<Vec<Option<usize>>, AllocError>
    ensures { IfOk result (λ openings. openings.items ≡ openings_of [] 0 definitions.now) }
{
    let mut standing = Standing::new(alloc);
    let mut openings = Vec::new(alloc);
    for definition in definitions {
        let opening = standing.read(definition)?;
        openings.push(opening)?;
    }
    Ok(openings)
}
