ghost use Rattle.std.specs.Prelude.{◌≡◌, List, [], ◌∷◌, ◌++◌, length, IfOk, OnOk};
ghost use Rattle.std.specs.Option.{option_copied};
ghost use Rattle.sail_syntax.specs.declared.definitions.Def.{Def as ADef};
ghost use Rattle.sail_signatures.specs.Parts.{AreOf, no_parts, parts_of, parts_with, parts_at, callable_name as name_of};

use sail_syntax::Def;
use std::alloc::{AllocError, Global};
use std::collections::HashMap;

/// The parts of a function or mapping, by their positions in the text; of several the first.
#[derive(Clone, Copy)]
pub struct Parts {
    /// Its `val`.
    pub val: Option<usize>,
    /// Its body.
    pub body: Option<usize>,
    /// Its measure.
    pub measure: Option<usize>,
}

impl Parts {
    fn none() -> Parts
        ensures { result ≡ no_parts }
    {
        Parts {
            val: None,
            body: None,
            measure: None,
        }
    }

    /// The parts once a definition of their name stands at this position.
    fn with(self, at: usize, definition: &Def) -> Parts
        ensures { result ≡ parts_with self at definition.now }
    {
        match definition {
            Def::Val { .. } => Parts {
                val: self.val.or(Some(at)),
                ..self
            },
            Def::Function { .. } | Def::Mapping { .. } => Parts {
                body: self.body.or(Some(at)),
                ..self
            },
            Def::Measure { .. } => Parts {
                measure: self.measure.or(Some(at)),
                ..self
            },
            _ => self,
        }
    }
}

/// The name of the function or mapping that a definition is a part of.
pub fn callable_name(definition: &Def) -> Option<&str>
    ensures { option_copied result ≡ name_of definition.now }
{
    match definition {
        Def::Val { name, .. } => Some(name.text.as_str()),
        Def::Function { name, .. } => Some(name.text.as_str()),
        Def::Mapping { name, .. } => Some(name.text.as_str()),
        Def::Measure { name, .. } => Some(name.text.as_str()),
        _ => None,
    }
}

/// The functions and mappings of a text, found by name.
#[derive(Drop)]
pub struct Callables<'a> {
    parts: HashMap<&'a str, Parts>,
}

impl<'a> Callables<'a> {
    fn new(alloc: Global) -> Callables<'a>
        ensures { AreOf [] result }
    {
        Callables {
            parts: HashMap::new(alloc),
        }
    }

    fn held(&self, name: &str) -> Parts
        ensures { result ≡ parts_at self.now.parts name.now }
    {
        self.parts.get(name).copied().unwrap_or(Parts::none())
    }

    /// The parts of a name; where no function or mapping has it, there are none.
    pub fn parts(&self, name: &str) -> Parts
        ensures { (text : List ADef) → AreOf text self.now → result ≡ parts_of text name.now }
    {
        self.held(name)
    }

    fn add(&mut self, at: usize, definition: &'a Def) -> Result<(), AllocError>
        ensures { OnOk result ((text : List ADef) → length text ≡ at → AreOf text self.old → AreOf (text ++ definition.now ∷ []) self.new) }
    {
        match callable_name(definition) {
            None => Ok(()),
            Some(name) => {
                let parts = self.held(name);
                self.parts.insert(name, parts.with(at, definition))?;
                Ok(())
            }
        }
    }
}

/// The functions and mappings of a text, found by name. The one error is want of memory.
pub fn find_callables<'a>(
    alloc: Global,
    definitions: &'a [Def],
) -> Result<Callables<'a>, AllocError>
    ensures { IfOk result (λ callables. AreOf definitions.now callables) }
{
    let mut callables = Callables::new(alloc);
    for (at, definition) in definitions.iter().enumerate() {
        callables.add(at, definition)?;
    }
    Ok(callables)
}
