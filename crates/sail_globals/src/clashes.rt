ghost use Rattle.std.specs.Prelude.{◌≡◌, ◌||◌, not, if◌then◌else◌, List, [], ◌∷◌, ◌++◌, bytes_eq, OnOk};
ghost use Rattle.std.specs.List.{list_any};
ghost use Rattle.sail_kinds.specs.declared.error.TableError.TheVariants as error;
ghost use Rattle.sail_kinds.specs.Failures.{first_failure};
ghost use Rattle.sail_globals.specs.declared.naming.Naming.{Naming as ANaming};
ghost use Rattle.sail_globals.specs.Clashes.{is_builtin as is_builtin_name, has, builtin_types, builtin_constructors, clash, clashes};
ghost use Rattle.sail_globals.specs.Held.{spaces_at, AreHeld};

use crate::held::Spaces;
use crate::naming::{Naming, Space};
use sail_kinds::{First, TableError};
use sail_types::row_named;
use std::alloc::{AllocError, Global};
use std::collections::HashMap;

/// The names of builtin types, and `option`.
const BUILTIN_TYPES: [&str; 12] = [
    "unit",
    "bool",
    "bit",
    "bits",
    "bitvector",
    "int",
    "nat",
    "range",
    "string",
    "list",
    "vector",
    "option",
];

/// Whether a name is taken before a text begins: by a builtin type, `option`, a builtin, `Some` or `None`.
pub fn is_builtin(space: Space, name: &str) -> bool
    ensures { result ≡ is_builtin_name space name.now }
{
    match space {
        Space::Types => is_among(&BUILTIN_TYPES, name),
        Space::Values => is_builtin_value(name),
        Space::Measures => false,
    }
}

fn is_builtin_value(name: &str) -> bool
    ensures { result ≡ is_builtin_name Space.Values name.now }
{
    let is_row = row_named(name).is_some();
    is_row || is_among(&["Some", "None"], name)
}

fn is_among(names: &[&str], name: &str) -> bool
    ensures { result ≡ list_any (λ one. bytes_eq one.now name.now) names.now }
{
    names.iter().any(|one| *one == name)
}

/// The names that are taken as a text is read, each with its roles.
#[derive(Drop)]
struct Taken<'a> {
    names: HashMap<&'a str, Spaces>,
}

impl<'a> Taken<'a> {
    fn new(alloc: Global) -> Taken<'a>
        ensures { AreHeld [] (spaces_at result.names) }
    {
        Taken {
            names: HashMap::new(alloc),
        }
    }

    fn of(&self, name: &str) -> Spaces
        ensures { result ≡ spaces_at self.now.names name.now }
    {
        self.names.get(name).copied().unwrap_or(Spaces::nothing())
    }

    /// Notes that a name is taken already, where it is, and takes it. The one error is want of memory.
    fn read(&mut self, naming: &'a Naming, first: &mut First) -> Result<(), AllocError>
        ensures failures { OnOk result ((earlier : List ANaming) → AreHeld earlier (spaces_at self.old.names)
            → first.new.error ≡ first_failure first.old.error (clash earlier naming.now)) }
        ensures held { OnOk result ((earlier : List ANaming) → AreHeld earlier (spaces_at self.old.names)
            → AreHeld (earlier ++ naming.now ∷ []) (spaces_at self.new.names)) }
    {
        let name = naming.name.as_str();
        let both = self.of(name);
        let admits = both.admits(naming.space, naming.role);
        note_taken(naming, admits, first)?;
        self.names
            .insert(name, both.with(naming.space, naming.role))?;
        Ok(())
    }
}

/// Notes that a name is taken already, where a builtin takes it or those before it don't admit it.
fn note_taken(naming: &Naming, admits: bool, first: &mut First) -> Result<(), AllocError>
    ensures { OnOk result (first.new.error ≡ first_failure first.old.error
        (if is_builtin_name naming.now.space naming.now.name || not admits then error.Clash naming.now.place naming.now.name ∷ [] else [])) }
{
    let is_builtin = is_builtin(naming.space, naming.name.as_str());
    if is_builtin || !admits {
        let name = naming.name.clone()?;
        first.note(TableError::Clash {
            place: naming.place,
            name,
        });
    }
    Ok(())
}

/// Notes the names that are taken already. The one error is want of memory.
pub fn note_clashes(alloc: Global, namings: &[Naming], first: &mut First) -> Result<(), AllocError>
    ensures { OnOk result (first.new.error ≡ first_failure first.old.error (clashes namings.now)) }
{
    let mut taken = Taken::new(alloc);
    for naming in namings {
        taken.read(naming, first)?;
    }
    Ok(())
}
