ghost use Rattle.std.specs.Prelude.{◌≡◌};
ghost use Rattle.sail_names.specs.Known.{setting_of, in_measure, is_any, is_let_seen, is_register_seen};
ghost use Rattle.sail_names.specs.Known.{is_global_value, is_global_callee, is_global_construction, is_register};
ghost use Rattle.sail_names.specs.Known.{is_value, is_callee, is_construction, is_assigned};
ghost use Rattle.std.specs.Option.{option_copied};

use crate::locals::{Binding, Locals};
use crate::names::{Global, Names};
use sail_kinds::Scope;

/// What an expression may name besides its local names.
#[derive(Clone, Copy, PartialEq, Eq, Debug)]
pub enum Allowed {
    /// All that is defined.
    Any,
    /// Of a top-level `let`, an initial value or a function's measure: earlier top-level lets, constructors, members and
    /// builtins without state.
    Plain,
    /// Of a loop's measure: the same, and registers.
    LoopMeasure,
}

/// Where an expression stands.
#[derive(Clone, Copy)]
pub struct Around<'a> {
    /// What the definitions of the model name.
    pub names: &'a Names,
    /// The types and type variables that can be named.
    pub scope: Scope<'a>,
    /// What may be named.
    pub allowed: Allowed,
    /// The number of the definition that the expression belongs to: top-level lets with a lower number are earlier.
    pub number: usize,
}

impl Around<'_> {
    /// Where the measure of a loop stands.
    pub fn measure(self) -> Self
        ensures { setting_of result ≡ in_measure (setting_of self.entry) }
    {
        Around {
            allowed: Allowed::LoopMeasure,
            ..self
        }
    }

    /// Whether a name can be a value by itself.
    pub fn is_value(&self, locals: &Locals, name: &str) -> bool
        ensures { result ≡ is_value (setting_of self.now) locals.now name.now }
    {
        locals.binding_of(name).is_some() || self.is_global_value(self.names.value(name))
    }

    fn is_global_value(&self, global: Option<&Global>) -> bool
        ensures { result ≡ is_global_value self.now.allowed self.now.number (option_copied global.entry) }
    {
        match global {
            Some(Global::Register) => self.allowed.names_registers(),
            Some(Global::Let(defined)) => self.allowed.sees_let(*defined, self.number),
            Some(Global::Member) => true,
            _ => false,
        }
    }

    /// Whether a name can be called.
    pub fn is_callee(&self, name: &str) -> bool
        ensures { result ≡ is_callee (setting_of self.now) name.now }
    {
        is_global_callee(self.allowed, self.names.value(name))
    }

    /// Whether a name can have parts as a pattern.
    pub(crate) fn is_construction(&self, name: &str) -> bool
        ensures { result ≡ is_construction (setting_of self.now) name.now }
    {
        is_global_construction(self.allowed, self.names.value(name))
    }

    /// Whether a name can be assigned.
    pub fn is_assigned(&self, locals: &Locals, name: &str) -> bool
        ensures { result ≡ is_assigned (setting_of self.now) locals.now name.now }
    {
        match locals.binding_of(name) {
            Some(Binding::Variable) => true,
            Some(Binding::Constant) => false,
            None => is_register(self.names.value(name)),
        }
    }
}

impl Allowed {
    fn names_registers(self) -> bool
        ensures { result ≡ is_register_seen self }
    {
        match self {
            Allowed::Plain => false,
            _ => true,
        }
    }

    fn sees_let(self, defined: usize, number: usize) -> bool
        ensures { result ≡ is_let_seen self defined number }
    {
        match self {
            Allowed::Any => true,
            _ => defined < number,
        }
    }

    fn is_any(self) -> bool
        ensures { result ≡ is_any self }
    {
        match self {
            Allowed::Any => true,
            _ => false,
        }
    }
}

fn is_global_callee(allowed: Allowed, global: Option<&Global>) -> bool
    ensures { result ≡ is_global_callee allowed (option_copied global.entry) }
{
    match global {
        Some(Global::Constructor) => true,
        Some(Global::Builtin) => true,
        Some(Global::StateBuiltin) => allowed.is_any(),
        Some(Global::Function(_)) => allowed.is_any(),
        Some(Global::Mapping(_)) => allowed.is_any(),
        Some(Global::Direction(_)) => allowed.is_any(),
        Some(Global::Overload(_)) => allowed.is_any(),
        _ => false,
    }
}

fn is_global_construction(allowed: Allowed, global: Option<&Global>) -> bool
    ensures { result ≡ is_global_construction allowed (option_copied global.entry) }
{
    match global {
        Some(Global::Constructor) => true,
        Some(Global::Mapping(_)) => allowed.is_any(),
        Some(Global::Direction(_)) => allowed.is_any(),
        _ => false,
    }
}

fn is_register(global: Option<&Global>) -> bool
    ensures { result ≡ is_register (option_copied global.entry) }
{
    match global {
        Some(Global::Register) => true,
        _ => false,
    }
}
