//! Where parts stand.
ghost use Rattle.std.specs.Prelude.{◌≡◌, map};
ghost use Rattle.shape_rules.specs.Expressions.{part};
ghost use Rattle.shape_rules.specs.Targets as target;
ghost use Rattle.shape_rules.specs.Values as spec;
ghost use Rattle.shape_walks.specs.Trees.{target_part, suffix_part};

use sail_base::Place;
use sail_syntax::{Exp, LExp, Suffix};

/// Where an expression stands.
#[tactic(auto, using(crate::proofs::PartPlaces::place_is))]
pub fn place_of(expression: &Exp) -> Place
    ensures { result ≡ (part expression.now).place }
{
    expression.place()
}

/// Where a target stands.
#[tactic(auto, using(crate::proofs::PartPlaces::target_place_is))]
pub fn target_place_of(target: &LExp) -> Place
    ensures { result ≡ (target_part target.now).place }
{
    target.place()
}

/// Where a suffix stands.
pub fn suffix_place(first: Place, suffix: &Suffix) -> Place
    ensures { result ≡ target.suffix_place first (suffix_part suffix.now) }
{
    match suffix {
        Suffix::Field(_) => first,
        Suffix::At(place, _) => *place,
    }
}

/// Where a base with suffixes stands: at the bracket of the last, or where that is a field at the first token.
#[tactic(auto, using(crate::proofs::LastPlaces::last_from_first))]
pub fn last_place(first: Place, suffixes: &[Suffix]) -> Place
    ensures { result ≡ spec.last_place first (map suffix_part suffixes.now) }
{
    let mut place = first;
    for suffix in suffixes {
        place = suffix_place(first, suffix);
    }
    place
}
