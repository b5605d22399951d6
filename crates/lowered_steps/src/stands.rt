//! Where a form stands: the names in scope, the first place in hand that is free, the labels for what is thrown and for No, and how deep.
ghost use Rattle.std.specs.Prelude.{◌≡◌, bytes_eq, length, map, IfOk};
ghost use Rattle.lowered_pieces.specs.Forms.{is_in, place_of};
ghost use Rattle.lowered_steps.specs.Stands as spec;

use crate::setting::{as_number, further};
use lowered_slots::Place;
use sail_base::Text;
use std::alloc::AllocError;

/// A name, and the place of its value.
#[derive(Clone, Copy, Drop)]
pub struct Named<'a> {
    /// The name.
    pub name: &'a Text,
    /// The place.
    pub place: Place,
}

/// The names in scope, the newest first.
#[derive(Clone, Copy)]
pub enum Scope<'a> {
    /// None.
    Empty,
    /// These, the newest first, and behind them others.
    Inside(&'a [Named<'a>], &'a Scope<'a>),
}

/// How deep code stands inside branches, loops and arms, with the variables whose numbers are noted there.
#[derive(Clone, Copy)]
pub enum Levels<'a> {
    /// Outside of all.
    Outside,
    /// Inside one where these are noted.
    Within(&'a [u32], &'a Levels<'a>),
}

/// Where a form stands.
#[derive(Clone, Copy)]
pub struct Stand<'a> {
    /// The names in scope.
    pub scope: &'a Scope<'a>,
    /// The first place in hand that is free.
    pub temp: u32,
    /// The label for what is thrown, which is then in slot 0.
    pub on_throw: u32,
    /// The label for No.
    pub on_no: u32,
    /// How deep it stands.
    pub levels: &'a Levels<'a>,
}

/// Whether a variable is one of these.
fn is_among(variable: u32, variables: &[u32]) -> bool
    ensures { result ≡ is_in variable variables.now }
{
    for other in variables {
        if variable == *other {
            return true;
        }
    }
    false
}

/// How deep code stands. It fails where numbers end, which is long after memory does.
pub fn depth_here(levels: &Levels<'_>) -> Result<u32, AllocError>
    ensures { IfOk result (λ depth. depth ≡ (spec.depths_of levels.now).here) }
{
    match levels {
        Levels::Outside => Ok(0),
        Levels::Within(_, outer) => further(depth_here(outer)?, 1),
    }
}

/// How deep the number of a variable stands. It fails where numbers end, which is long after memory does.
pub fn depth_of(variable: u32, levels: &Levels<'_>) -> Result<u32, AllocError>
    ensures { IfOk result (λ depth. depth ≡ (spec.depths_of levels.now).of variable) }
{
    match levels {
        Levels::Outside => Ok(0),
        Levels::Within(noted, outer) => {
            if is_among(variable, noted) {
                further(depth_here(outer)?, 1)
            } else {
                depth_of(variable, outer)
            }
        }
    }
}

/// Whether two names are the same.
fn same_name(name: &Text, other: &Text) -> bool
    ensures { result ≡ bytes_eq name.now other.now }
{
    *name == *other
}

/// The place of the newest of these names that is this one, where there is one.
fn place_among(name: &Text, names: &[Named<'_>]) -> Option<Place>
    ensures { result ≡ spec.place_found (map spec.named_of names.now) name.now }
{
    for named in names {
        if same_name(named.name, name) {
            return Some(named.place);
        }
    }
    None
}

/// The place of the newest local of a name; where there is none, that of what is thrown.
pub fn place_in(name: &Text, scope: &Scope<'_>) -> Place
    ensures { result ≡ place_of (spec.scope_of scope.now) name.now }
{
    match scope {
        Scope::Empty => Place::Raised,
        Scope::Inside(names, outer) => match place_among(name, names) {
            Some(place) => place,
            None => place_in(name, outer),
        },
    }
}

/// How many names are in scope. It fails where numbers end, which is long after memory does.
pub fn count_names(scope: &Scope<'_>) -> Result<u32, AllocError>
    ensures { IfOk result (λ count. count ≡ length (spec.scope_of scope.now)) }
{
    match scope {
        Scope::Empty => Ok(0),
        Scope::Inside(names, outer) => further(count_names(outer)?, as_number(names.len())?),
    }
}
