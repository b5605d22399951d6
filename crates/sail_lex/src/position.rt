ghost use Rattle.std.specs.Prelude.{◌≡◌, ◌≤◌, ℕ, List, length};
ghost use Rattle.sail_lex.specs.Position.{place_at, line_at, column_at};

use sail_base::Place;

/// The place of the first byte of any source.
#[tactic(auto, unfolding(crate::specs::Position::line_at, crate::specs::Position::column_at))]
pub fn beginning_of(file: u32) -> Place
    ensures { (source : List ℕ) → result ≡ place_at file source 0 }
{
    Place {
        file,
        line: 1,
        column: 1,
    }
}

/// The place of the byte at `to`, from that of an earlier one at `from`.
#[tactic(auto, using(crate::proofs::Places::next_byte))]
pub fn advance(source: &[u8], place: Place, from: usize, to: usize) -> Place
    requires order { from ≤ to }
    requires within { to ≤ length source.now }
    requires short { length source.now ≤ 4194304 }
    requires place { place ≡ place_at place.file source.now from }
    ensures { result ≡ place_at place.file source.now to }
{
    let mut line = place.line;
    let mut column = place.column;
    for i in from..to {
        if source[i] == b'\n' {
            line += 1;
            column = 1;
        } else {
            column += 1;
        }
    }
    Place {
        file: place.file,
        line,
        column,
    }
}
