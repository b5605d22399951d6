ghost use Rattle.std.specs.Prelude.{◌≡◌, ◌<◌, ◌≤◌, length, IfSome, IfNone, nat_eq, codes, true, ◌==◌, ◌&&◌};
ghost use Rattle.std.specs.List.{starts_with};
ghost use Rattle.sail_lex.specs.Comment.{IsComment, NeverEnds};

/// How many bytes the comment that begins the text has, if it ends.
pub fn comment_length(text: &[u8]) -> Option<usize>
    requires { starts_with nat_eq text.now (codes "/*") ≡ true }
    ensures ends { IfSome result (λ n. IsComment text.now n) }
    ensures within { IfSome result (λ n. (0 < n) × (n ≤ length text.now)) }
    ensures never { IfNone result (NeverEnds text.now) }
{
    let mut at = 2;
    let mut depth: usize = 1;
    while depth > 0 {
        if text.len() - at < 2 {
            return None;
        }
        let first = text[at];
        let second = text[at + 1];
        if opens(first, second) {
            depth += 1;
            at += 2;
        } else if closes(first, second) {
            depth -= 1;
            at += 2;
        } else {
            at += 1;
        }
    }
    Some(at)
}

/// Whether two bytes open a comment.
fn opens(first: u8, second: u8) -> bool
    ensures { result ≡ (first == 47 && second == 42) }
{
    first == b'/' && second == b'*'
}

/// Whether two bytes close a comment.
fn closes(first: u8, second: u8) -> bool
    ensures { result ≡ (first == 42 && second == 47) }
{
    first == b'*' && second == b'/'
}
