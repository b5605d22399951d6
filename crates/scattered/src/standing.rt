ghost use Rattle.std.specs.Prelude.{◌≡◌, ℕ, ◌+◌, List, [], ◌∷◌, ◌++◌, length, IfOk, OnOk, None};
ghost use Rattle.scattered.specs.Openings.{Opening, Role, Opens, Continues, Ends, Stands, role};
ghost use Rattle.scattered.specs.Openings.{opening_of, standing_behind, next_number};
ghost use Rattle.scattered.specs.Latest.{no_latest, latest_of, latest_with, latest_at, AreStanding};

use sail_syntax::Def;
use std::alloc::{AllocError, Global};
use std::collections::HashMap;

/// What can be written in parts.
#[derive(Clone, Copy)]
pub(crate) enum Scattered {
    Union,
    Function,
    Mapping,
}

/// The latest openings of one name that stand, each by the number of its definition in the gathered text:
/// of any kind, and of each.
#[derive(Clone, Copy)]
pub(crate) struct Latest {
    any: Option<usize>,
    union: Option<usize>,
    function: Option<usize>,
    mapping: Option<usize>,
}

impl Latest {
    fn none() -> Latest
        ensures { result ≡ no_latest }
    {
        Latest {
            any: None,
            union: None,
            function: None,
            mapping: None,
        }
    }

    fn of(self, scattered: Scattered) -> Option<usize>
        ensures { result ≡ latest_of self scattered }
    {
        match scattered {
            Scattered::Union => self.union,
            Scattered::Function => self.function,
            Scattered::Mapping => self.mapping,
        }
    }

    fn with(self, scattered: Scattered, number: usize) -> Latest
        ensures { result ≡ latest_with self scattered number }
    {
        let mut latest = self;
        latest.any = Some(number);
        match scattered {
            Scattered::Union => latest.union = Some(number),
            Scattered::Function => latest.function = Some(number),
            Scattered::Mapping => latest.mapping = Some(number),
        }
        latest
    }
}

/// The openings that stand as a text is read: the latest of each name, and for each definition that has a
/// place in the gathered text, by its number, the latest of its name before it, where it is an opening.
#[derive(Drop)]
pub(crate) struct Standing<'a> {
    names: HashMap<&'a str, Latest>,
    before: Vec<Latest>,
}

impl<'a> Standing<'a> {
    /// No opening, before the first definition of a text.
    pub(crate) fn new(alloc: Global) -> Standing<'a>
        ensures none { AreStanding (latest_at result.names) result.before.items [] }
        ensures first { result.before.items ≡ [] }
    {
        Standing {
            names: HashMap::new(alloc),
            before: Vec::new(alloc),
        }
    }

    /// The number of the opening to which the next definition of the text belongs, which then is read.
    /// The one error is want of memory.
    pub(crate) fn read(&mut self, definition: &'a Def) -> Result<Option<usize>, AllocError>
        ensures opening { IfOk result (λ opening. (standing : List Opening)
            → AreStanding (latest_at self.old.names) self.old.before.items standing
            → opening ≡ opening_of (role definition.now) standing) }
        ensures stand { OnOk result ((standing : List Opening)
            → AreStanding (latest_at self.old.names) self.old.before.items standing
            → AreStanding (latest_at self.new.names) self.new.before.items
            (standing_behind (role definition.now) (length self.old.before.items) standing)) }
        ensures number { OnOk result (length self.new.before.items ≡ next_number (role definition.now) (length self.old.before.items)) }
    {
        match definition {
            Def::ScatteredUnion(_, name, _) => self.open(Scattered::Union, name.text.as_str()),
            Def::ScatteredFunction(_, name) => self.open(Scattered::Function, name.text.as_str()),
            Def::ScatteredMapping(_, name) => self.open(Scattered::Mapping, name.text.as_str()),
            Def::UnionClause(_, name, _) => Ok(
                self.latest(name.text.as_str()).of(Scattered::Union),
            ),
            Def::FunctionClause(name, _) => Ok(
                self.latest(name.text.as_str()).of(Scattered::Function),
            ),
            Def::MappingClause(_, name, _) => Ok(
                self.latest(name.text.as_str()).of(Scattered::Mapping),
            ),
            Def::End(_, name) => self.end(name.text.as_str()),
            _ => self.pass(),
        }
    }

    fn latest(&self, name: &str) -> Latest
        ensures { result ≡ latest_at self.now.names name.now }
    {
        self.names.get(name).copied().unwrap_or(Latest::none())
    }

    fn open(&mut self, scattered: Scattered, name: &'a str) -> Result<Option<usize>, AllocError>
        ensures opening { IfOk result (λ opening. opening ≡ None) }
        ensures stand { OnOk result ((standing : List Opening)
            → AreStanding (latest_at self.old.names) self.old.before.items standing
            → AreStanding (latest_at self.new.names) self.new.before.items
            (standing_behind (Opens scattered name.now) (length self.old.before.items) standing)) }
        ensures number { OnOk result (length self.new.before.items ≡ length self.old.before.items + 1) }
    {
        let latest = self.latest(name);
        let number = self.before.len();
        self.before.push(latest)?;
        self.names.insert(name, latest.with(scattered, number))?;
        Ok(None)
    }

    fn end(&mut self, name: &'a str) -> Result<Option<usize>, AllocError>
        ensures opening { IfOk result (λ opening. (standing : List Opening)
            → AreStanding (latest_at self.old.names) self.old.before.items standing
            → opening ≡ opening_of (Ends name.now) standing) }
        ensures stand { OnOk result ((standing : List Opening)
            → AreStanding (latest_at self.old.names) self.old.before.items standing
            → AreStanding (latest_at self.new.names) self.new.before.items
            (standing_behind (Ends name.now) (length self.old.before.items) standing)) }
        ensures number { OnOk result (length self.new.before.items ≡ length self.old.before.items) }
    {
        match self.latest(name).any {
            None => Ok(None),
            Some(number) => {
                let before = self.before.get(number).copied().unwrap_or(Latest::none());
                self.names.insert(name, before)?;
                Ok(Some(number))
            }
        }
    }

    fn pass(&mut self) -> Result<Option<usize>, AllocError>
        ensures opening { IfOk result (λ opening. opening ≡ None) }
        ensures stand { OnOk result ((standing : List Opening)
            → AreStanding (latest_at self.old.names) self.old.before.items standing
            → AreStanding (latest_at self.new.names) self.new.before.items standing) }
        ensures number { OnOk result (length self.new.before.items ≡ length self.old.before.items + 1) }
    {
        self.before.push(Latest::none())?;
        Ok(None)
    }
}
