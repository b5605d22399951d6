ghost use Rattle.std.specs.Prelude.{◌≡◌, ◌&&◌, IfOk, OnOk};
ghost use Rattle.sail_kinds.specs.Failures.{first_failure};
ghost use Rattle.sail_kinds.specs.Repeated.{clash_where, clashes, is_none_of};

use crate::error::TableError;
use crate::first::First;
use sail_syntax::Name;
use std::alloc::{AllocError, Global};
use std::collections::HashMap;

/// Whether both are true. Both are known where it is called, so that a caller has no branch.
pub(crate) fn both(a: bool, b: bool) -> bool
    ensures { result ≡ (a && b) }
{
    a && b
}

/// Notes a name that stood before. The one error is want of memory.
fn note_where(stood: bool, name: &Name, first: &mut First) -> Result<(), AllocError>
    ensures { OnOk result (first.new.error ≡ first_failure first.old.error (clash_where stood name.now)) }
{
    if stood {
        first.note(TableError::Clash {
            place: name.place,
            name: name.text.clone()?,
        });
    }
    Ok(())
}

/// Notes each name that stands in the list before it, and says whether there is none. The one error is want
/// of memory.
pub fn note_repeated(alloc: Global, names: &[Name], first: &mut First) -> Result<bool, AllocError>
    ensures failures { OnOk result (first.new.error ≡ first_failure first.old.error (clashes names.now)) }
    ensures none { IfOk result (λ none. none ≡ is_none_of (clashes names.now)) }
{
    let mut before: HashMap<&str, bool> = HashMap::new(alloc);
    let mut is_none = true;
    for name in names {
        let text = name.text.as_str();
        let stood = before.contains_key(text);
        note_where(stood, name, first)?;
        is_none = both(is_none, !stood);
        before.insert(text, true)?;
    }
    Ok(is_none)
}
