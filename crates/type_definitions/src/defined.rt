ghost use Rattle.std.specs.Prelude.{◌≡◌, ◌++◌, if◌then◌else◌, [], ◌∷◌, IfOk, OnOk, map, length, is_none, codes, Some};
ghost use Rattle.sail_kinds.specs.Failures.{first_failure};
ghost use Rattle.sail_kinds.specs.Scopes.{within, own_of};
ghost use Rattle.type_definitions.specs.Defined.{held, IsBetween, builtin_types, with_name, with_form, next_type};
ghost use Rattle.type_definitions.specs.Defined.{types_with, type_failures, types_behind, type_failures_behind};
ghost use Rattle.type_definitions.specs.Defined.{types_of, all_type_failures, option_definition as option_row, option_type as option_named};
ghost use Rattle.type_definitions.specs.Defined.{right_side, alias_of as meaning_of, alias_failures, alias_type, named_with, struct_failures, struct_form};
ghost use Rattle.type_definitions.specs.Defined.{union_failures, union_form, under_union, enum_form, members_failures, fields_of, around, table_row};

use crate::members::{note_members, read_members};
use crate::parameters::{kinds_of, note_parameters, table_parameters, variables_of};
use sail_base::{Items, Kind, Text};
use sail_kinds::{Binders, First, Meaning, NamedType, Scope, TypeNames, read, read_as};
use sail_syntax::{Def, Member, Name, Param, TyExp};
use sail_types::{Definition, Field, Form, Parameter, Typ};
use std::alloc::{AllocError, Global};
use type_arguments::Normal;

/// The types that are defined so far.
#[derive(Drop)]
pub struct Defined<'a> {
    /// What each name stands for.
    pub names: TypeNames<'a>,
    /// The structs, unions and enums, `option` first.
    pub table: Items<Definition>,
}

/// The types that the definitions of a text define, read in text order, and notes their failures: equal names
/// in a list of parameters or of fields, and those of the types in them. The one error is want of memory.
pub fn define_all<'a>(
    alloc: Global,
    definitions: &'a [Def],
    first: &mut First,
) -> Result<Defined<'a>, AllocError>
    ensures failures { OnOk result (first.new.error ≡ first_failure first.old.error (all_type_failures definitions.now)) }
    ensures types { IfOk result (λ defined. held defined ≡ types_of definitions.now) }
    ensures between { IfOk result (λ defined. IsBetween defined) }
{
    let mut defined = Defined::builtin(alloc)?;
    for definition in definitions {
        defined.define(alloc, definition, first)?;
    }
    Ok(defined)
}

/// `option`, as the table has it.
fn option_definition(alloc: Global) -> Result<Definition, AllocError>
    ensures { IfOk result (λ made. made ≡ option_row) }
{
    let mut parameters = Items::new(alloc);
    parameters.push(Parameter {
        name: Text::new(alloc, "'a")?,
        kind: Kind::Type,
    })?;
    let mut constructors = Items::new(alloc);
    constructors.push(Field {
        name: Text::new(alloc, "Some")?,
        typ: Typ::Variable(0),
    })?;
    constructors.push(Field {
        name: Text::new(alloc, "None")?,
        typ: Typ::Unit,
    })?;
    Ok(Definition {
        name: Text::new(alloc, "option")?,
        parameters,
        form: Form::Union(constructors),
    })
}

/// `option`, as it is named.
fn option_type(alloc: Global) -> Result<NamedType, AllocError>
    ensures { IfOk result (λ typ. typ ≡ option_named) }
{
    let mut parameters = Items::new(alloc);
    parameters.push(Kind::Type)?;
    Ok(NamedType {
        parameters,
        meaning: Meaning::Defined(0),
    })
}

/// The table before the first definition.
fn builtin_table(alloc: Global) -> Result<Items<Definition>, AllocError>
    ensures { IfOk result (λ table. table ≡ option_row ∷ []) }
{
    let mut table = Items::new(alloc);
    table.push(option_definition(alloc)?)?;
    Ok(table)
}

/// The right side of a `type`, of the kind that is written.
fn read_right_side(
    alloc: Global,
    kind: Option<Kind>,
    typ: &TyExp,
    scope: &Scope<'_>,
    first: &mut First,
) -> Result<Option<Normal>, AllocError>
    ensures failures { OnOk result (first.new.error ≡ first_failure first.old.error (right_side kind typ.now (within scope.now)).failures) }
    ensures normal { IfOk result (λ normal. normal ≡ (right_side kind typ.now (within scope.now)).normal) }
{
    match kind {
        None => read(alloc, typ, scope, first),
        Some(kind) => read_as(alloc, typ, kind, scope, first),
    }
}

/// What a `type` stands for with this right side.
fn alias_of(normal: Option<Normal>) -> Meaning
    ensures { result ≡ meaning_of normal }
{
    match normal {
        None => Meaning::Unknown,
        Some(normal) => Meaning::Alias(normal),
    }
}

/// A place in a table of at most 2^32 definitions; a longer one is more than memory is taken to hold.
fn small_place(place: usize) -> Result<u32, AllocError>
    ensures { IfOk result (λ small. small ≡ place) }
{
    match u32::try_from(place) {
        Ok(small) => Ok(small),
        Err(_) => Err(AllocError),
    }
}

impl<'a> Defined<'a> {
    /// What is there before the first definition: `option`.
    fn builtin(alloc: Global) -> Result<Defined<'a>, AllocError>
        ensures types { IfOk result (λ defined. held defined ≡ builtin_types) }
        ensures between { IfOk result (λ defined. IsBetween defined) }
    {
        let typ = option_type(alloc)?;
        let table = builtin_table(alloc)?;
        let mut names = TypeNames::new(alloc);
        names.define("option", typ)?;
        Ok(Defined { names, table })
    }

    /// Reads one more definition.
    fn define(
        &mut self,
        alloc: Global,
        definition: &'a Def,
        first: &mut First,
    ) -> Result<(), AllocError>
        requires { IsBetween self.old }
        ensures failures { OnOk result (first.new.error ≡ first_failure first.old.error (type_failures (held self.old) definition.now)) }
        ensures types { OnOk result (held self.new ≡ types_with (held self.old) definition.now) }
        ensures between { OnOk result (IsBetween self.new) }
    {
        match definition {
            Def::Alias {
                name,
                variables,
                kind,
                typ,
                ..
            } => self.define_alias(alloc, name, variables.as_slice(), *kind, typ, first),
            Def::Enum(_, name, members) => self.define_enum(alloc, name, members.as_slice()),
            Def::Struct {
                name,
                variables,
                fields,
                ..
            } => self.define_struct(alloc, name, variables.as_slice(), fields.as_slice(), first),
            Def::Union {
                name,
                variables,
                constructors,
                ..
            } => self.define_union(
                alloc,
                name,
                variables.as_slice(),
                constructors.as_slice(),
                first,
            ),
            _ => Ok(()),
        }
    }

    fn define_alias(
        &mut self,
        alloc: Global,
        name: &'a Name,
        parameters: &[Param],
        kind: Option<Kind>,
        typ: &TyExp,
        first: &mut First,
    ) -> Result<(), AllocError>
        requires { IsBetween self.old }
        ensures failures { OnOk result (first.new.error
            ≡ first_failure first.old.error (alias_failures (held self.old) parameters.now kind typ.now)) }
        ensures types { OnOk result (held self.new
            ≡ named_with (held self.old) name.now.text (alias_type (held self.old) parameters.now kind typ.now)) }
        ensures between { OnOk result (IsBetween self.new) }
    {
        note_parameters(alloc, parameters, first)?;
        let normal = self.read_alias(alloc, parameters, kind, typ, first)?;
        let kinds = kinds_of(alloc, parameters)?;
        self.name_type(
            name,
            NamedType {
                parameters: kinds,
                meaning: alias_of(normal),
            },
        )?;
        Ok(())
    }

    /// The right side of a `type`, under its parameters.
    fn read_alias(
        &self,
        alloc: Global,
        parameters: &[Param],
        kind: Option<Kind>,
        typ: &TyExp,
        first: &mut First,
    ) -> Result<Option<Normal>, AllocError>
        ensures failures { OnOk result (first.new.error
            ≡ first_failure first.old.error (right_side kind typ.now (around self.now parameters.now)).failures) }
        ensures normal { IfOk result (λ normal. normal ≡ (right_side kind typ.now (around self.now parameters.now)).normal) }
    {
        let variables = variables_of(alloc, parameters)?;
        let binders = Binders::Parameters(variables.as_slice());
        let scope = Scope::new(&self.names, &binders);
        read_right_side(alloc, kind, typ, &scope, first)
    }

    fn define_enum(
        &mut self,
        alloc: Global,
        name: &'a Name,
        members: &[Name],
    ) -> Result<(), AllocError>
        requires { IsBetween self.old }
        ensures types { OnOk result (held self.new ≡ with_form name.now.text [] (enum_form members.now) (held self.old)) }
        ensures between { OnOk result (IsBetween self.new) }
    {
        let mut texts = Items::new(alloc);
        for member in members {
            texts.push(member.text.clone()?)?;
        }
        self.add_form(alloc, name, &[], Form::Enum(texts))
    }

    fn define_struct(
        &mut self,
        alloc: Global,
        name: &'a Name,
        parameters: &[Param],
        members: &[Member],
        first: &mut First,
    ) -> Result<(), AllocError>
        requires { IsBetween self.old }
        ensures failures { OnOk result (first.new.error ≡ first_failure first.old.error (struct_failures (held self.old) parameters.now members.now)) }
        ensures types { OnOk result (held self.new
            ≡ with_form name.now.text parameters.now (struct_form (held self.old) parameters.now members.now) (held self.old)) }
        ensures between { OnOk result (IsBetween self.new) }
    {
        note_parameters(alloc, parameters, first)?;
        note_members(alloc, members, first)?;
        let fields = self.read_fields(alloc, parameters, members, first)?;
        self.add_form(alloc, name, parameters, Form::Struct(fields))
    }

    fn define_union(
        &mut self,
        alloc: Global,
        name: &'a Name,
        parameters: &[Param],
        members: &[Member],
        first: &mut First,
    ) -> Result<(), AllocError>
        requires { IsBetween self.old }
        ensures failures { OnOk result (first.new.error
            ≡ first_failure first.old.error (union_failures (held self.old) name.now.text parameters.now members.now)) }
        ensures types { OnOk result (held self.new
            ≡ with_form name.now.text parameters.now (union_form (held self.old) name.now.text parameters.now members.now) (held self.old)) }
        ensures between { OnOk result (IsBetween self.new) }
    {
        note_parameters(alloc, parameters, first)?;
        let next = self.next_type(alloc, parameters)?;
        let is_free = self.name_type(name, next)?;
        let constructors = self.read_constructors(alloc, name, parameters, members, first)?;
        self.add_where(alloc, is_free, name, parameters, Form::Union(constructors))
    }

    /// The constructors of a union, which is named inside a `list` alone where they are read.
    fn read_constructors(
        &mut self,
        alloc: Global,
        name: &'a Name,
        parameters: &[Param],
        members: &[Member],
        first: &mut First,
    ) -> Result<Items<Field>, AllocError>
        ensures failures { OnOk result (first.new.error
            ≡ first_failure first.old.error (members_failures (under_union (held self.old).named name.now.text parameters.now) members.now)) }
        ensures fields { IfOk result (λ fields. fields
            ≡ fields_of (under_union (held self.old).named name.now.text parameters.now) members.now) }
        ensures types { OnOk result (held self.new ≡ held self.old) }
        ensures between { OnOk result (IsBetween self.new) }
    {
        self.names.begin_union(name.text.as_str());
        let fields = self.read_fields(alloc, parameters, members, first)?;
        self.names.end_union();
        Ok(fields)
    }

    /// The fields or constructors of a definition, with their types under its parameters.
    fn read_fields(
        &self,
        alloc: Global,
        parameters: &[Param],
        members: &[Member],
        first: &mut First,
    ) -> Result<Items<Field>, AllocError>
        ensures failures { OnOk result (first.new.error ≡ first_failure first.old.error (members_failures (around self.now parameters.now) members.now)) }
        ensures fields { IfOk result (λ fields. fields ≡ fields_of (around self.now parameters.now) members.now) }
    {
        let variables = variables_of(alloc, parameters)?;
        let binders = Binders::Parameters(variables.as_slice());
        let scope = Scope::new(&self.names, &binders);
        read_members(alloc, members, &scope, first)
    }

    /// Gives a name to a type, unless the name is taken, and says whether it was free.
    fn name_type(&mut self, name: &'a Name, typ: NamedType) -> Result<bool, AllocError>
        ensures free { IfOk result (λ free. free ≡ is_none ((held self.old).named name.now.text)) }
        ensures types { OnOk result (held self.new ≡ named_with (held self.old) name.now.text typ) }
        ensures own { OnOk result (own_of self.new.names ≡ own_of self.old.names) }
    {
        let is_free = self.names.named(name.text.as_str()).is_none();
        if is_free {
            self.names.define(name.text.as_str(), typ)?;
        }
        Ok(is_free)
    }

    /// The struct, union or enum that stands next in the table.
    fn next_type(&self, alloc: Global, parameters: &[Param]) -> Result<NamedType, AllocError>
        ensures { IfOk result (λ next. next ≡ next_type parameters.now (held self.now)) }
    {
        let place = small_place(self.table.len())?;
        let kinds = kinds_of(alloc, parameters)?;
        Ok(NamedType {
            parameters: kinds,
            meaning: Meaning::Defined(place),
        })
    }

    /// Adds a struct, union or enum, unless its name is taken.
    fn add_form(
        &mut self,
        alloc: Global,
        name: &'a Name,
        parameters: &[Param],
        form: Form,
    ) -> Result<(), AllocError>
        ensures types { OnOk result (held self.new ≡ with_form name.now.text parameters.now form (held self.old)) }
        ensures own { OnOk result (own_of self.new.names ≡ own_of self.old.names) }
    {
        let next = self.next_type(alloc, parameters)?;
        let is_free = self.name_type(name, next)?;
        self.add_where(alloc, is_free, name, parameters, form)
    }

    /// Puts a definition at the end of the table, where its name was free.
    fn add_where(
        &mut self,
        alloc: Global,
        is_free: bool,
        name: &Name,
        parameters: &[Param],
        form: Form,
    ) -> Result<(), AllocError>
        ensures names { OnOk result (self.new.names ≡ self.old.names) }
        ensures table { OnOk result (self.new.table
            ≡ self.old.table ++ (if is_free then table_row name.now.text parameters.now form ∷ [] else [])) }
    {
        if is_free {
            let name = name.text.clone()?;
            let parameters = table_parameters(alloc, parameters)?;
            self.table.push(Definition {
                name,
                parameters,
                form,
            })?;
        }
        Ok(())
    }
}
