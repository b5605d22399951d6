ghost use Rattle.std.specs.Prelude.{◌≡◌, ℕ, ◌+◌, List, [], None, Some, bytes_eq, if◌then◌else◌, OnOk, IfOk, option_map, false, not, ◌&&◌};
ghost use Rattle.std.specs.Option.{option_copied, option_map_or};
ghost use Rattle.sail_kinds.specs.Scopes.{type_named, own_of, variables_of, within, inside_list, inside_binder, variable_of, named};

use sail_base::{Items, Kind, Text};
use sail_syntax::Name;
use std::alloc::{AllocError, Global};
use std::collections::HashMap;
use type_arguments::Normal;

/// A type variable in scope.
pub struct Variable {
    /// Its name, with its `'`.
    pub name: Text,
    /// Its kind.
    pub kind: Kind,
}

/// A type that a model defines.
pub struct NamedType {
    /// The kinds of its parameters, in order.
    pub parameters: Items<Kind>,
    /// What it stands for.
    pub meaning: Meaning,
}

/// What a named type stands for.
pub enum Meaning {
    /// The right side of a `type`, read under its parameters.
    Alias(Normal),
    /// A struct, union or enum, by its place in the table of types.
    Defined(u32),
    /// Nothing that is known, as its definition has failed: what names it stands for nothing and doesn't fail.
    Unknown,
}

impl Drop for Variable {
    fn drop(self) {
        let Variable { name: _, kind: _ } = self;
    }
}

impl Drop for NamedType {
    fn drop(self) {
        let NamedType {
            parameters: _,
            meaning: _,
        } = self;
    }
}

impl Drop for Meaning {
    fn drop(self) {
        match self {
            Meaning::Alias(_) => {}
            Meaning::Defined(_) => {}
            Meaning::Unknown => {}
        }
    }
}

/// The types that can be named.
#[derive(Drop)]
pub struct TypeNames<'a> {
    types: HashMap<&'a str, NamedType>,
    own: Option<&'a str>,
}

impl<'a> TypeNames<'a> {
    /// No type can be named.
    pub fn new(alloc: Global) -> TypeNames<'a>
        ensures types { (name : List ℕ) → type_named result name ≡ None }
        ensures own { own_of result ≡ None }
    {
        TypeNames {
            types: HashMap::new(alloc),
            own: None,
        }
    }

    /// Gives a name to a type, in the place of what it named before. The one error is want of memory.
    pub fn define(&mut self, name: &'a str, typ: NamedType) -> Result<(), AllocError>
        ensures types { OnOk result ((other : List ℕ) → type_named self.new other
            ≡ (if bytes_eq name.now other then Some typ else type_named self.old other)) }
        ensures own { OnOk result (own_of self.new ≡ own_of self.old) }
    {
        self.types.insert(name, typ)?;
        Ok(())
    }

    /// Begins the definition of the union of this name, which until its end is named inside the argument of a
    /// `list` alone.
    pub fn begin_union(&mut self, name: &'a str)
        ensures types { (other : List ℕ) → type_named self.new other ≡ type_named self.old other }
        ensures own { own_of self.new ≡ Some name.now }
    {
        self.own = Some(name);
    }

    /// Ends that definition.
    pub fn end_union(&mut self)
        ensures types { (other : List ℕ) → type_named self.new other ≡ type_named self.old other }
        ensures own { own_of self.new ≡ None }
    {
        self.own = None;
    }

    /// The type of a name, wherever it is named.
    pub fn named(&self, name: &str) -> Option<&NamedType>
        ensures { option_copied result ≡ type_named self.now name.now }
    {
        self.types.get(name)
    }
}

/// What a type variable is.
#[derive(Clone, Copy, PartialEq, Eq, Debug)]
pub struct FoundVariable {
    /// Its kind.
    pub kind: Kind,
    /// Its number among the variables that are counted with it, from the innermost on.
    pub number: u32,
}

/// The type variables in scope.
#[derive(Clone, Copy)]
pub enum Binders<'s> {
    /// The parameters of a named type or of a `forall`, in order.
    Parameters(&'s [Variable]),
    /// The variables of an existential type, the last of which is the innermost, and those around it.
    Exists(&'s [Name], &'s Binders<'s>),
}

/// What can be named where a type is read.
#[derive(Clone, Copy)]
pub struct Scope<'s> {
    types: &'s TypeNames<'s>,
    variables: &'s Binders<'s>,
    is_in_list: bool,
}

impl<'s> Scope<'s> {
    /// Where these types and these type variables can be named, outside of a `list`.
    pub fn new(types: &'s TypeNames<'s>, variables: &'s Binders<'s>) -> Scope<'s>
        ensures { within result ≡ record {
          types = type_named types.now;
          own = own_of types.now;
          is_in_list = false;
          variables = variables_of variables.now;
        } }
    {
        Scope {
            types,
            variables,
            is_in_list: false,
        }
    }

    /// Inside the argument of a `list`.
    pub fn inside_list(self) -> Scope<'s>
        ensures { within result ≡ inside_list (within self.entry) }
    {
        Scope {
            types: self.types,
            variables: self.variables,
            is_in_list: true,
        }
    }

    /// The type variables around.
    pub fn variables(self) -> &'s Binders<'s>
        ensures { variables_of result.now ≡ (within self.entry).variables }
    {
        self.variables
    }

    /// The same with other type variables.
    pub fn with_variables(self, variables: &'s Binders<'s>) -> Scope<'s>
        ensures { within result ≡ record (within self.entry) { variables = variables_of variables.now } }
    {
        Scope {
            types: self.types,
            variables,
            is_in_list: self.is_in_list,
        }
    }

    /// The type of a name.
    pub fn named(self, name: &str) -> Option<&'s NamedType>
        ensures { option_copied result ≡ named name.now (within self.entry) }
    {
        if self.is_hidden(name) {
            None
        } else {
            self.types.named(name)
        }
    }

    fn is_hidden(self, name: &str) -> bool
        ensures { result ≡ (option_map_or (bytes_eq name.now) (own_of self.entry.types.now) false && not self.entry.is_in_list) }
    {
        match self.types.own {
            None => false,
            Some(own) => name == own && !self.is_in_list,
        }
    }
}
