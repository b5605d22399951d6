ghost use Rattle.std.specs.Prelude.{◌≡◌, ◌∷◌, [], ◌≤◌, ◌-◌, length, drop, OnOk};
ghost use Rattle.sail_names.specs.Locals.{binding_of, constant, variable};

use sail_syntax::Name;
use std::alloc::{AllocError, Global};
use std::collections::HashMap;
use std::marker::Model;

/// How a local name is bound.
#[derive(Clone, Copy, PartialEq, Eq, Debug)]
pub enum Binding {
    /// For good: by a pattern, a parameter or a `foreach`.
    Constant,
    /// By `var`: it can be assigned.
    Variable,
}

/// A local name, how it is bound, and how the name was bound before.
#[derive(Clone, Copy)]
struct Entered<'a> {
    name: &'a str,
    binding: Binding,
    hidden: Option<Binding>,
}

/// The local names in scope. Contracts see them as a list, the innermost first.
#[derive(Drop)]
pub struct Locals<'a> {
    bindings: HashMap<&'a str, Option<Binding>>,
    entered: Vec<Entered<'a>>,
}

impl<'a> Model for Locals<'a> {
    ghost use Rattle.std.specs.Prelude.{List, reverse, map};
    ghost use Rattle.sail_names.specs.Locals.{Local};
    ghost use Rattle.sail_names.specs.parts.Entries.{local_of, AreKept};

    ghost Value = { List Local };

    ghost view = { λ locals. map local_of (reverse locals.entered.items) };

    ghost invariant = { λ locals. AreKept locals.bindings (reverse locals.entered.items) };
}

impl<'a> Locals<'a> {
    /// No local name.
    pub fn new(alloc: Global) -> Locals<'a>
        ensures { result ≡ [] }
    {
        Locals {
            bindings: HashMap::new(alloc),
            entered: Vec::new(alloc),
        }
    }

    /// The count of the names.
    pub fn len(&self) -> usize
        ensures { result ≡ length self.now }
    {
        self.entered.len()
    }

    /// How the innermost local of a name is bound; none where there is no local of this name.
    pub fn binding_of(&self, name: &str) -> Option<Binding>
        ensures { result ≡ binding_of name.now self.now }
    {
        self.bindings.get(name).copied().unwrap_or(None)
    }

    /// Puts a name that is bound for good in scope. The one error is want of memory.
    pub fn bind(&mut self, name: &'a Name) -> Result<(), AllocError>
        ensures { OnOk result (self.new ≡ constant name.now ∷ self.old) }
    {
        self.enter(name.text.as_str(), Binding::Constant)
    }

    /// Puts a name that is bound by `var` in scope. The one error is want of memory.
    pub fn declare(&mut self, name: &'a Name) -> Result<(), AllocError>
        ensures { OnOk result (self.new ≡ variable name.now ∷ self.old) }
    {
        self.enter(name.text.as_str(), Binding::Variable)
    }

    fn enter(&mut self, name: &'a str, binding: Binding) -> Result<(), AllocError>
        ensures { OnOk result (self.new ≡ record { name = name.now; binding = binding } ∷ self.old) }
    {
        let hidden = self.binding_of(name);
        self.entered.push(Entered {
            name,
            binding,
            hidden,
        })?;
        match self.bindings.insert(name, Some(binding)) {
            Ok(_) => Ok(()),
            Err(_) => {
                self.entered.pop();
                Err(AllocError)
            }
        }
    }

    /// Takes the innermost names out of scope, but for so many. The one error is want of memory.
    pub fn leave(&mut self, count: usize) -> Result<(), AllocError>
        requires { count ≤ length self.old }
        ensures { OnOk result (self.new ≡ drop (length self.old - count) self.old) }
    {
        while count < self.len() {
            self.leave_one()?;
        }
        Ok(())
    }

    fn leave_one(&mut self) -> Result<(), AllocError>
        ensures { OnOk result (self.new ≡ drop 1 self.old) }
    {
        let Some(last) = self.entered.last().copied() else {
            return Ok(());
        };
        self.bindings.insert(last.name, last.hidden)?;
        self.entered.pop();
        Ok(())
    }
}
