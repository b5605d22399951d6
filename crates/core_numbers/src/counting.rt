ghost use Rattle.std.specs.Prelude.{◌≡◌, suc, IfOk, OnOk};

use std::alloc::AllocError;

/// The number that comes next; the one behind it comes next then. There is none where numbers end, which is long after memory
/// does: each is a node's.
pub fn take_number(next: &mut u32) -> Result<u32, AllocError>
    ensures number { IfOk result (λ number. number ≡ next.old) }
    ensures next { OnOk result (next.new ≡ suc next.old) }
{
    let number = *next;
    if number == u32::MAX {
        return Err(AllocError);
    }
    *next = number + 1;
    Ok(number)
}
