ghost use Rattle.std.specs.Prelude.{◌≡◌, IfOk};
ghost use Rattle.std.specs.Option.{option_copied};
ghost use Rattle.sail_types.specs.Sums.{and_then};
ghost use Rattle.sail_kinds.specs.Scopes.{within, variables_of};
ghost use Rattle.shape_rules.specs.Scopes.{defined_place as place_meant};
ghost use Rattle.shape_models.specs.Models.{place_in_table as place_of_name, place_of_type, within_variables};
ghost use Rattle.shape_models.specs.Models.{form_is_union, is_union as is_union_place, if_union, exception_in};
ghost use Rattle.shape_models.specs.Sources.{tabled_by, IsSound};

use sail_kinds::{Binders, Meaning, NamedType, Scope, TypeNames};
use sail_signatures::{Callables, Signature, read_signature};
use sail_syntax::Def;
use sail_types::{Form, Types};
use std::alloc::{AllocError, Global};

/// The text of a model, with what its tables hold of its types and callables.
#[derive(Clone, Copy)]
pub struct Source<'a> {
    /// The text.
    pub definitions: &'a [Def],
    /// The types that can be named.
    pub names: &'a TypeNames<'a>,
    /// The structs, unions and enums.
    pub types: &'a Types,
    /// The parts of functions and mappings.
    pub callables: &'a Callables<'a>,
}

fn defined_place(typ: &NamedType) -> Option<u32>
    ensures { result ≡ place_meant typ.now.meaning }
{
    match &typ.meaning {
        Meaning::Defined(place) => Some(*place),
        _ => None,
    }
}

fn place_found(typ: Option<&NamedType>) -> Option<u32>
    ensures { result ≡ place_of_type (option_copied typ.entry) }
{
    match typ {
        Some(typ) => defined_place(typ),
        None => None,
    }
}

fn is_union_form(form: &Form) -> bool
    ensures { result ≡ form_is_union form.now }
{
    match form {
        Form::Union(_) => true,
        _ => false,
    }
}

fn is_union(types: &Types, place: u32) -> bool
    ensures { result ≡ is_union_place types.now place }
{
    match types.definitions.get(place as usize) {
        Some(definition) => is_union_form(&definition.form),
        None => false,
    }
}

fn union_at(types: &Types, place: u32) -> Option<u32>
    ensures { result ≡ if_union types.now place }
{
    if is_union(types, place) {
        Some(place)
    } else {
        None
    }
}

fn union_found(types: &Types, place: Option<u32>) -> Option<u32>
    ensures { result ≡ and_then place (if_union types.now) }
{
    match place {
        Some(place) => union_at(types, place),
        None => None,
    }
}

impl Source<'_> {
    /// The signature of a function or mapping. The one error is want of memory.
    pub fn signature(&self, alloc: Global, name: &str) -> Result<Option<Signature>, AllocError>
        requires { IsSound self.now }
        ensures { IfOk result (λ found. found ≡ (tabled_by self.now).signature name.now) }
    {
        read_signature(alloc, self.names, self.definitions, self.callables, name)
    }

    /// The place in the table of what a name is defined as; none where it is no struct, union or enum.
    pub fn place_in_table(&self, name: &str) -> Option<u32>
        ensures { result ≡ place_of_name (tabled_by self.now) name.now }
    {
        place_found(self.names.named(name))
    }

    /// The place in the table of the union `exception`, whose values are thrown; none where no union has this name.
    pub fn find_exception(&self) -> Option<u32>
        ensures { result ≡ exception_in (tabled_by self.now) }
    {
        union_found(self.types, self.place_in_table("exception"))
    }
}

/// Where these type variables can be named.
pub fn scope_under<'s>(source: &Source<'s>, variables: &'s Binders<'s>) -> Scope<'s>
    requires { IsSound source.now }
    ensures { within result ≡ within_variables (tabled_by source.now) (variables_of variables.now) }
{
    Scope::new(source.names, variables)
}
