//! How a pattern is matched.
ghost use Rattle.std.specs.Prelude.{◌≡◌};
ghost use Rattle.pattern_notes.specs.Patterns as patterns;

/// How a pattern is matched.
#[derive(Clone, Copy)]
pub struct Matching {
    /// Whether it stands in a case, where an integer literal makes its number known.
    pub in_case: bool,
    /// Whether what its type owes is owed already.
    pub is_owed: bool,
}

/// How the patterns inside are matched.
pub(crate) fn inside(how: Matching) -> Matching
    ensures { result ≡ patterns.inside how }
{
    Matching {
        in_case: how.in_case,
        is_owed: false,
    }
}
