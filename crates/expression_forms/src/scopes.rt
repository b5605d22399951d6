//! Names in scope.
ghost use Rattle.std.specs.Prelude.{◌≡◌, [], ◌++◌};
ghost use Rattle.std.specs.Option.{option_copied};
ghost use Rattle.pattern_leaves.specs.Settings as settings;
ghost use Rattle.expression_forms.specs.Scopes.{newest, scope_of};

use pattern_leaves::{Bound, Held, held_in};
use sail_base::Items;

/// The names in scope, the newest first.
#[derive(Clone, Copy)]
pub enum Scope<'a> {
    /// None.
    Empty,
    /// These, the newest first, and behind them others.
    Inside(&'a [Bound], &'a Scope<'a>),
    /// These groups, the newest group last and in each the newest first, and behind them others.
    Groups(&'a [Items<Bound>], &'a Scope<'a>),
}

impl<'a> Scope<'a> {
    /// No name.
    pub fn empty() -> Scope<'a>
        ensures { scope_of result ≡ [] }
    {
        Scope::Empty
    }

    /// With these names, the newest first, before those that are in scope.
    pub fn with(&'a self, found: &'a [Bound]) -> Scope<'a>
        ensures { scope_of result ≡ found.now ++ scope_of self.now }
    {
        Scope::Inside(found, self)
    }

    /// With these groups of names, the newest group last and in each the newest first, before those that are in scope.
    pub fn with_groups(&'a self, groups: &'a [Items<Bound>]) -> Scope<'a>
        ensures { scope_of result ≡ newest groups.now ++ scope_of self.now }
    {
        Scope::Groups(groups, self)
    }
}

/// What a name is in groups, of which the last is the newest; none where there is no such name.
fn held_among<'a>(name: &str, groups: &'a [Items<Bound>]) -> Option<&'a Held>
    ensures { option_copied result ≡ settings.held_in name.now (newest groups.now) }
{
    let mut left = groups.len();
    while left > 0 {
        left -= 1;
        match held_in(name, groups[left].as_slice()) {
            Some(found) => return Some(found),
            None => {}
        }
    }
    None
}

/// What a name is: the newest of this name; none where there is no such name.
#[tactic(auto, using(crate::proofs::Held::held_before, crate::proofs::Held::held_behind))]
pub fn look_up<'a>(name: &str, scope: &Scope<'a>) -> Option<&'a Held>
    ensures { option_copied result ≡ settings.held_in name.now (scope_of scope.now) }
{
    match scope {
        Scope::Empty => None,
        Scope::Inside(found, outer) => match held_in(name, found) {
            Some(found) => Some(found),
            None => look_up(name, outer),
        },
        Scope::Groups(groups, outer) => match held_among(name, groups) {
            Some(found) => Some(found),
            None => look_up(name, outer),
        },
    }
}
