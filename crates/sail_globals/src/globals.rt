ghost use Rattle.std.specs.Prelude.{◌≡◌, ℕ, List, [], ◌∷◌, ◌++◌, IfOk, OnOk};
ghost use Rattle.sail_globals.specs.declared.naming.Naming.{Naming as ANaming};
ghost use Rattle.sail_globals.specs.Globals.{is_val, is_body, roles_of, roles_with, roles_at, meaning, has_val, has_body, AreRoles, AreOf};

use crate::naming::{Alone, Called, Naming, Role, Space};
use std::alloc::{AllocError, Global};
use std::collections::HashMap;

/// In which roles a name of a value is taken.
#[derive(Clone, Copy)]
pub struct Roles {
    first: Option<Role>,
    function_val: bool,
    function_body: bool,
    mapping_val: bool,
    mapping_body: bool,
}

impl Role {
    fn is_val(self, called: Called) -> bool
        ensures { result ≡ is_val called self }
    {
        match self {
            Role::Declared(other) => called.is_same(other),
            _ => false,
        }
    }

    fn is_body(self, called: Called) -> bool
        ensures { result ≡ is_body called self }
    {
        match (called, self) {
            (Called::Mapping, Role::Whole(Alone::Mapping)) => true,
            (Called::Direction, Role::Whole(Alone::Direction)) => true,
            (_, Role::Defined(other)) => called.is_same(other),
            _ => false,
        }
    }
}

impl Roles {
    fn none() -> Roles
        ensures { result ≡ roles_of [] }
    {
        Roles {
            first: None,
            function_val: false,
            function_body: false,
            mapping_val: false,
            mapping_body: false,
        }
    }

    fn with(self, role: Role) -> Roles
        ensures { result ≡ roles_with self role }
    {
        let function_val = role.is_val(Called::Function);
        let function_body = role.is_body(Called::Function);
        let mapping_val = role.is_val(Called::Mapping);
        let mapping_body = role.is_body(Called::Mapping);
        Roles {
            first: self.first.or(Some(role)),
            function_val: self.function_val || function_val,
            function_body: self.function_body || function_body,
            mapping_val: self.mapping_val || mapping_val,
            mapping_body: self.mapping_body || mapping_body,
        }
    }
}

/// The names of values that definitions take, found by name.
#[derive(Drop)]
pub struct Globals<'a> {
    names: HashMap<&'a str, Roles>,
}

impl<'a> Globals<'a> {
    fn new(alloc: Global) -> Globals<'a>
        ensures { AreOf [] result }
    {
        Globals {
            names: HashMap::new(alloc),
        }
    }

    fn roles(&self, name: &str) -> Roles
        ensures { result ≡ roles_at self.now.names name.now }
    {
        self.names.get(name).copied().unwrap_or(Roles::none())
    }

    fn add(&mut self, naming: &'a Naming) -> Result<(), AllocError>
        ensures { OnOk result ((earlier : List ANaming) → AreOf earlier self.old → AreOf (earlier ++ naming.now ∷ []) self.new) }
    {
        match naming.space {
            Space::Types => Ok(()),
            Space::Measures => Ok(()),
            Space::Values => {
                let name = naming.name.as_str();
                let roles = self.roles(name);
                self.names.insert(name, roles.with(naming.role))?;
                Ok(())
            }
        }
    }

    /// What a name means: the role in which the first of the definitions that take it does; none where there
    /// is none.
    pub fn meaning(&self, name: &str) -> Option<Role>
        ensures { (namings : List ANaming) → AreOf namings self.now → result ≡ meaning namings name.now }
    {
        self.roles(name).first
    }

    /// Whether there is a `val` of a function of this name.
    pub fn has_function_val(&self, name: &str) -> bool
        ensures { (namings : List ANaming) → AreOf namings self.now → result ≡ has_val namings Called.Function name.now }
    {
        self.roles(name).function_val
    }

    /// Whether there is a body of a function of this name.
    pub fn has_function_body(&self, name: &str) -> bool
        ensures { (namings : List ANaming) → AreOf namings self.now → result ≡ has_body namings Called.Function name.now }
    {
        self.roles(name).function_body
    }

    /// Whether there is a `val` of a mapping of this name.
    pub fn has_mapping_val(&self, name: &str) -> bool
        ensures { (namings : List ANaming) → AreOf namings self.now → result ≡ has_val namings Called.Mapping name.now }
    {
        self.roles(name).mapping_val
    }

    /// Whether there is a body of a mapping of this name.
    pub fn has_mapping_body(&self, name: &str) -> bool
        ensures { (namings : List ANaming) → AreOf namings self.now → result ≡ has_body namings Called.Mapping name.now }
    {
        self.roles(name).mapping_body
    }
}

/// The names of values that definitions take, found by name. The one error is want of memory.
pub fn find_globals<'a>(alloc: Global, namings: &'a [Naming]) -> Result<Globals<'a>, AllocError>
    ensures { IfOk result (λ globals. AreOf namings.now globals) }
{
    let mut globals = Globals::new(alloc);
    for naming in namings {
        globals.add(naming)?;
    }
    Ok(globals)
}
