ghost use Rattle.std.specs.Prelude.{◌≡◌, ◌∷◌, [], ◌≤◌, ◌-◌, length, drop, OnOk};
ghost use Rattle.std.specs.Option.{option_copied};
ghost use Rattle.shape_rules.specs.Scopes.{local_of};
ghost use Rattle.sail_types.specs.Sums.{and_then};
ghost use Rattle.shape_rules.specs.parts.Entries.{place_in, local_at};

use sail_base::Text;
use sail_types::Shape;
use std::alloc::{AllocError, Global};
use std::collections::HashMap;
use std::marker::Model;

/// A local name, with the shape of its values.
pub struct Local {
    /// The name.
    pub name: Text,
    /// The shape of its values.
    pub shape: Shape,
    /// Whether a `var` bound it.
    pub is_variable: bool,
}

impl Drop for Local {
    fn drop(self) {
        let Local {
            name: _,
            shape: _,
            is_variable: _,
        } = self;
    }
}

/// A local name in scope, and the place among the names in scope, the outermost first, of the one of the same name that it hides.
struct Entered {
    local: Local,
    hidden: Option<usize>,
}

impl Drop for Entered {
    fn drop(self) {
        let Entered {
            local: _,
            hidden: _,
        } = self;
    }
}

/// The local names in scope. Contracts see them as a list, the innermost first.
#[derive(Drop)]
pub struct Locals {
    alloc: Global,
    places: HashMap<String, Option<usize>>,
    entered: Vec<Entered>,
}

impl Model for Locals {
    ghost use Rattle.std.specs.Prelude.{List, reverse, map};
    ghost use Rattle.std.specs.Coded.{codes};
    ghost use Rattle.sail_types.specs.contracts.shapes.Shape as shape;
    ghost use Rattle.shape_rules.specs.declared.locals.Local.{Local};
    ghost use Rattle.shape_rules.specs.parts.Entries.{entered_local, AreKept};

    ghost Value = { List Local };

    ghost coded = { Prim.hlevel (codes, shape.the_row.coded) };

    ghost view = { λ locals. map entered_local (reverse locals.entered.items) };

    ghost invariant = { λ locals. AreKept locals.places (reverse locals.entered.items) };
}

impl Locals {
    /// No local name. It takes no memory until the first `enter`.
    pub fn new(alloc: Global) -> Locals
        ensures { result ≡ [] }
    {
        Locals {
            alloc,
            places: HashMap::new(alloc),
            entered: Vec::new(alloc),
        }
    }

    /// The count of the names.
    pub fn len(&self) -> usize
        ensures { result ≡ length self.now }
    {
        self.entered.len()
    }

    /// The innermost local of a name; none where there is no local of this name.
    pub fn find(&self, name: &str) -> Option<&Local>
        ensures { option_copied result ≡ local_of name.now self.now }
    {
        let place = place_in(&self.places, name);
        local_at(self.entered.as_slice(), place)
    }

    /// Puts a name in scope. The one error is want of memory.
    pub fn enter(&mut self, local: Local) -> Result<(), AllocError>
        ensures { OnOk result (self.new ≡ local ∷ self.old) }
    {
        let key = String::from_str(self.alloc, local.name.as_str())?;
        let hidden = place_in(&self.places, local.name.as_str());
        let place = self.entered.len();
        self.entered.push(Entered { local, hidden })?;
        match self.places.insert(key, Some(place)) {
            Ok(_) => Ok(()),
            Err(_) => {
                self.entered.pop();
                Err(AllocError)
            }
        }
    }

    /// Takes the innermost names out of scope, but for so many. The one error is want of memory.
    pub fn leave(&mut self, count: usize) -> Result<(), AllocError>
        requires { count ≤ length self.old }
        ensures { OnOk result (self.new ≡ drop (length self.old - count) self.old) }
    {
        while count < self.len() {
            self.leave_one()?;
        }
        Ok(())
    }

    fn leave_one(&mut self) -> Result<(), AllocError>
        ensures { OnOk result (self.new ≡ drop 1 self.old) }
    {
        let Some(last) = self.entered.last() else {
            return Ok(());
        };
        let key = String::from_str(self.alloc, last.local.name.as_str())?;
        let hidden = last.hidden;
        self.places.insert(key, hidden)?;
        self.entered.pop();
        Ok(())
    }
}

/// The place that a map has of a name.
fn place_in(places: &HashMap<String, Option<usize>>, name: &str) -> Option<usize>
    ensures { result ≡ place_in places.now name.now }
{
    places.get(name).copied().unwrap_or(None)
}

/// The local at a place; none where there is no place.
fn local_at(entered: &[Entered], place: Option<usize>) -> Option<&Local>
    ensures { option_copied result ≡ and_then place (local_at entered.now) }
{
    let Some(entered) = entered.get(place?) else {
        return None;
    };
    Some(&entered.local)
}
