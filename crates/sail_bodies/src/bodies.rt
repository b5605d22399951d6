ghost use Rattle.std.specs.Prelude.{◌≡◌, OnOk, IfOk, ◌++◌, List};
ghost use Rattle.sail_syntax.specs.declared.definitions.Param.{Param};
ghost use Rattle.sail_kinds.specs.Scopes.{variables_of as variables_of_binders};
ghost use Rattle.sail_kinds.specs.Failures.{first_failure};
ghost use Rattle.sail_names.specs.Known.{known_of, setting_of};
ghost use Rattle.sail_bodies.specs.Bodies.{setting, allowed_in as allowed_of, variables_at, own_failures, body_failures, all_body_failures};
ghost use Rattle.sail_bodies.specs.Voids.{register_void};
ghost use Rattle.sail_base.specs.declared.kind.Kind.TheVariants as kind;
ghost use Rattle.sail_kinds.specs.Normal.{reading_as};
ghost use Rattle.sail_signatures.specs.Parts.{AreOf};
ghost use Rattle.sail_signatures.specs.Signatures.{typ_read};
ghost use Rattle.type_definitions.specs.Defined.{held, IsBetween, variables_of as variables_of_all};

use crate::clauses::{
    note_clauses, note_initial, note_let, note_mapping_clauses, note_measure, note_sides,
};
use crate::voids::has_void;
use sail_base::Items;
use sail_kinds::{Binders, First, Scope, TableError, Variable};
use sail_names::{Allowed, Around, Names};
use sail_signatures::{Callables, find_variables, read_typ, read_val};
use sail_syntax::{Def, TyExp};
use std::alloc::{AllocError, Global};
use type_definitions::Defined;

/// By what the names and types in the bodies of a text are read.
#[derive(Clone, Copy)]
pub struct Given<'a> {
    /// The definitions of the text.
    pub definitions: &'a [Def],
    /// Its functions and mappings, found by name.
    pub callables: &'a Callables<'a>,
    /// What its definitions name.
    pub names: &'a Names,
    /// The types that they define.
    pub types: &'a Defined<'a>,
}

/// Notes the failures of a register's type: those of its text, and a range in a struct's field that is empty.
#[tactic(auto, using(sail_kinds::proofs::Firsts::first_failure_append))]
fn note_register_type(
    alloc: Global,
    types: &Defined<'_>,
    typ: &TyExp,
    around: Around,
    first: &mut First,
) -> Result<(), AllocError>
    ensures { OnOk result (first.new.error ≡ first_failure first.old.error
        ((reading_as kind.Type typ.now (setting_of around.entry).types).failures
        ++ register_void (held types.now).table typ.now (typ_read (setting_of around.entry).types typ.now))) }
{
    let read = read_typ(alloc, typ, &around.scope, first)?;
    if let Some(read) = read {
        if has_void(alloc, types.table.as_slice(), &read)? {
            first.note(TableError::IllKinded {
                place: typ.place(),
                mismatch: None,
            });
        }
    }
    Ok(())
}

/// What a body may name.
fn allowed_in(definition: &Def) -> Allowed
    ensures { result ≡ allowed_of definition.now }
{
    match definition {
        Def::Function { .. } | Def::Mapping { .. } => Allowed::Any,
        _ => Allowed::Plain,
    }
}

/// The type variables that a body can name.
fn find_variables_at(
    alloc: Global,
    given: Given,
    definition: &Def,
) -> Result<Items<Variable>, AllocError>
    requires { AreOf given.definitions.now given.callables.now }
    ensures { IfOk result (λ variables. variables ≡ variables_of_all (variables_at given.entry.definitions.now definition.now)) }
{
    match definition {
        Def::Function { name, .. } | Def::Measure { name, .. } | Def::Mapping { name, .. } => {
            find_variables(
                alloc,
                given.definitions,
                given.callables,
                name.text.as_str(),
            )
        }
        _ => Ok(Items::new(alloc)),
    }
}

/// Where a definition of this number stands, whose type variables these are.
fn placed<'a>(
    given: Given<'a>,
    binders: &'a Binders<'a>,
    allowed: Allowed,
    number: usize,
) -> Around<'a>
    requires { IsBetween given.types.now }
    ensures { (parameters : List Param) → variables_of_binders binders.now ≡ variables_of_all parameters
        → setting_of result ≡ setting (known_of given.entry.names.now) (held given.entry.types.now) allowed parameters number }
{
    Around {
        names: given.names,
        scope: Scope::new(&given.types.names, binders),
        allowed,
        number,
    }
}

/// Notes the failures of a definition that is no `val`, where it stands.
#[tactic(auto, using(sail_kinds::proofs::Firsts::first_failure_append))]
fn note_own(
    alloc: Global,
    types: &Defined<'_>,
    definition: &Def,
    around: Around,
    first: &mut First,
) -> Result<(), AllocError>
    ensures { OnOk result (first.new.error ≡ first_failure first.old.error (own_failures (setting_of around.entry) (held types.now) definition.now)) }
{
    match definition {
        Def::Function { clauses, .. } => note_clauses(alloc, clauses.as_slice(), around, first),
        Def::Measure {
            parameters,
            value,
            ..
        } => note_measure(alloc, parameters.as_slice(), value.get(), around, first),
        Def::Mapping { sides, clauses, .. } => {
            note_sides(alloc, sides, around, first)?;
            note_mapping_clauses(alloc, clauses.as_slice(), around, first)
        }
        Def::Let(_, pattern, value) => note_let(alloc, pattern, value.get(), around, first),
        Def::Register { typ, initial, .. } => {
            note_register_type(alloc, types, typ, around, first)?;
            note_initial(alloc, initial, around, first)
        }
        _ => Ok(()),
    }
}

/// Notes the failures of the definition of a position.
fn note_definition(
    alloc: Global,
    given: Given,
    number: usize,
    definition: &Def,
    first: &mut First,
) -> Result<(), AllocError>
    requires between { IsBetween given.types.now }
    requires callables { AreOf given.definitions.now given.callables.now }
    ensures { OnOk result (first.new.error ≡ first_failure first.old.error
        (body_failures given.entry.definitions.now (known_of given.entry.names.now) (held given.entry.types.now) number definition.now)) }
{
    if let Def::Val {
        quantifier,
        from,
        to,
        ..
    } = definition
    {
        read_val(alloc, &given.types.names, quantifier, from, to, first)?;
        return Ok(());
    }
    let variables = find_variables_at(alloc, given, definition)?;
    let binders = Binders::Parameters(variables.as_slice());
    let around = placed(given, &binders, allowed_in(definition), number);
    note_own(alloc, given.types, definition, around, first)
}

/// Notes the failures in the bodies, values and types of all definitions. The one error is want of memory.
pub fn note_bodies(alloc: Global, given: Given, first: &mut First) -> Result<(), AllocError>
    requires between { IsBetween given.types.now }
    requires callables { AreOf given.definitions.now given.callables.now }
    ensures { OnOk result (first.new.error ≡ first_failure first.old.error
        (all_body_failures given.entry.definitions.now (known_of given.entry.names.now) (held given.entry.types.now))) }
{
    for (number, definition) in given.definitions.iter().enumerate() {
        note_definition(alloc, given, number, definition, first)?;
    }
    Ok(())
}
