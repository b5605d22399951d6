//! The core of a model that has tables, or the first failure of its shapes.
ghost use Rattle.std.specs.Prelude.{◌≡◌, List, [], IfOk, OnOk, IfErr};
ghost use Rattle.std.specs.Option.{option_copied};
ghost use Rattle.sail_base.specs.declared.place.Place.{Place as APlace};
ghost use Rattle.sail_syntax.specs.declared.definitions.Def.{Def as ADef};
ghost use Rattle.sail_kinds.specs.Scopes.{variables_of};
ghost use Rattle.type_definitions.specs.Defined.{IsBetween};
ghost use Rattle.sail_signatures.specs.Parts.{AreOf};
ghost use Rattle.sail_tables.specs.Tabled.{AreTables};
ghost use Rattle.shape_rules.specs.Findings.{first_failure};
ghost use Rattle.shape_models.specs.Sources.{tabled_by};
ghost use Rattle.shape_clauses.specs.Functions.{cycle_in};
ghost use Rattle.shapes.specs.Failures.{all_faults};
ghost use Rattle.shapes.specs.Resolved.{function_names, function_place as function_place_in, resolved};
ghost use Rattle.shapes.specs.Tabled.{tabled_of, IsResolved, IsRefused};
ghost use Rattle.shapes.specs.Parts.{setting_in, functions_in, directions_in, all_others_faults, AreAllMeanings, IsTop, IsState, core_of, tabled_from};

use crate::lets::{Lets, read_lets};
use crate::openings::merge_openings;
use crate::state::{State, read_state};
use crate::top::{Top, around_top};
use core_numbers::take_number;
use model_state::Register;
use sail_base::{Items, Text};
use sail_core::{CoreModel, Direction, Function, Opening, RegisterText};
use sail_kinds::{Binders, First as FirstOfTables};
use sail_signatures::{Callables, find_callables};
use sail_syntax::Def;
use sail_tables::Tables;
use sail_types::Types;
use shape_clauses::read_mappings;
use shape_declarations::note_types;
use shape_functions::read_called;
use shape_models::{Source, find_meanings};
use shape_rules::{First, Meanings, ShapeError};
use std::alloc::{AllocError, Global};
use std::mem;
use type_definitions::{Defined, define_all};

/// What a core has beside its types.
#[derive(Drop)]
pub(crate) struct Read {
    pub(crate) exception: Option<u32>,
    pub(crate) registers: Items<Register>,
    pub(crate) register_texts: Items<RegisterText>,
    pub(crate) functions: Items<Function>,
    pub(crate) directions: Items<Direction>,
    pub(crate) openings: Items<Opening>,
    pub(crate) reset: u32,
    pub(crate) step: u32,
}

impl Read {
    /// The core of these types.
    fn into_core(self, types: Types) -> CoreModel
        ensures { result ≡ core_of types self }
    {
        let Read {
            exception,
            registers,
            register_texts,
            functions,
            directions,
            openings,
            reset,
            step,
        } = self;
        CoreModel {
            types,
            exception,
            registers,
            register_texts,
            functions,
            directions,
            openings,
            reset,
            step,
        }
    }
}

/// The name of a function.
fn function_name(definition: &Def) -> Option<&Text>
    ensures { option_copied result ≡ function_names definition.now }
{
    match definition {
        Def::Function { name, .. } => Some(&name.text),
        _ => None,
    }
}

/// The place of the function of a name among functions; past all of them where there is none.
fn function_place(definitions: &[Def], name: &str) -> Result<u32, AllocError>
    ensures { IfOk result (λ place. place ≡ function_place_in definitions.now name.now) }
{
    let mut place = 0;
    for definition in definitions {
        if let Some(own) = function_name(definition) {
            if own.as_str() == name {
                return Ok(place);
            }
            take_number(&mut place)?;
        }
    }
    Ok(place)
}

/// The functions, directions and registers of a model.
#[derive(Drop)]
struct Others {
    functions: Items<Function>,
    directions: Items<Direction>,
    state: State,
}

/// The functions, directions and registers of a model, under the names that all top-level lets bind, and notes the failures of all
/// definitions but overloads and top-level lets.
#[tactic(auto, using(shape_rules::proofs::Firsts::first_failure_append))]
fn read_others<'a>(
    alloc: Global,
    top: Top<'a>,
    tables: &Tables<'_>,
    meanings: &'a Meanings,
    first: &mut First,
) -> Result<Others, AllocError>
    requires top { IsTop top }
    requires meanings { AreAllMeanings (tabled_by top.source) top.source.definitions.now meanings.now }
    ensures functions { IfOk result (λ made. (text : List ADef) (end : APlace) → AreTables text end tables.now
        → made.functions ≡ functions_in (tabled_by top.entry.source) (cycle_in tables.now text) top.entry.source.definitions.now) }
    ensures directions { IfOk result (λ made. made.directions ≡ directions_in (tabled_by top.entry.source) top.entry.source.definitions.now) }
    ensures state { IfOk result (λ made. IsState (setting_in (tabled_by top.entry.source) top.entry.source.definitions.now [])
        top.entry.source.definitions.now made.state) }
    ensures failures { OnOk result (first.new.error ≡ first_failure first.old.error
        (all_others_faults (tabled_by top.entry.source) top.entry.source.definitions.now)) }
{
    let source = top.source;
    note_types(alloc, &source, first)?;
    let functions = read_called(alloc, &source, tables, meanings, first)?;
    let around = around_top(top, meanings);
    let directions = read_mappings(alloc, &source, &around, first)?;
    let state = read_state(alloc, source.definitions, &around, first)?;
    Ok(Others {
        functions,
        directions,
        state,
    })
}

/// What the core of a model has beside its types, and notes all failures of its shapes.
#[tactic(auto, using(shape_rules::proofs::Firsts::first_failure_append))]
fn read_model(
    alloc: Global,
    top: Top<'_>,
    tables: &Tables<'_>,
    first: &mut First,
) -> Result<Read, AllocError>
    requires { IsTop top }
    ensures core { IfOk result (λ made. (text : List ADef) (end : APlace) → AreTables text end tables.now
        → core_of top.entry.source.types.now made ≡ resolved (tabled_by top.entry.source) (cycle_in tables.now text) top.entry.source.definitions.now) }
    ensures failures { OnOk result (first.new.error ≡ first_failure first.old.error
        (all_faults (tabled_by top.entry.source) top.entry.source.definitions.now)) }
{
    let source = top.source;
    let meanings = find_meanings(alloc, &source, first)?;
    let lets = read_lets(alloc, top, meanings, first)?;
    let Lets { openings, meanings } = lets;
    let others = read_others(alloc, top, tables, &meanings, first)?;
    let Others {
        functions,
        directions,
        state,
    } = others;
    let State {
        registers,
        texts,
        initials,
    } = state;
    let openings = merge_openings(alloc, source.definitions, openings, initials)?;
    let reset = function_place(source.definitions, "reset")?;
    let step = function_place(source.definitions, "step")?;
    Ok(Read {
        exception: source.find_exception(),
        registers,
        register_texts: texts,
        functions,
        directions,
        openings,
        reset,
        step,
    })
}

/// What the core of a text of these types and callables has beside its types, and notes all failures of its shapes.
fn read_text<'a>(
    alloc: Global,
    definitions: &'a [Def],
    defined: &'a Defined<'a>,
    types: &'a Types,
    callables: &'a Callables<'a>,
    variables: &'a Binders<'a>,
    tables: &Tables<'_>,
    first: &mut First,
) -> Result<Read, AllocError>
    requires between { IsBetween defined.now }
    requires callables { AreOf definitions.now callables.now }
    requires variables { variables_of variables.now ≡ [] }
    ensures core { IfOk result (λ made. (text : List ADef) (end : APlace) → AreTables text end tables.now
        → core_of types.now made ≡ resolved (tabled_from defined.now types.now definitions.now) (cycle_in tables.now text) definitions.now) }
    ensures failures { OnOk result (first.new.error
        ≡ first_failure first.old.error (all_faults (tabled_from defined.now types.now definitions.now) definitions.now)) }
{
    let source = Source {
        definitions,
        names: &defined.names,
        types,
        callables,
    };
    let top = Top { source, variables };
    read_model(alloc, top, tables, first)
}

/// The core of a text of these types and callables, and notes all failures of its shapes.
fn read_defined<'a>(
    alloc: Global,
    definitions: &'a [Def],
    defined: Defined<'a>,
    types: Types,
    callables: Callables<'a>,
    tables: &Tables<'_>,
    first: &mut First,
) -> Result<CoreModel, AllocError>
    requires between { IsBetween defined }
    requires callables { AreOf definitions.now callables }
    ensures core { IfOk result (λ core. (text : List ADef) (end : APlace) → AreTables text end tables.now
        → core ≡ resolved (tabled_from defined.entry types definitions.now) (cycle_in tables.now text) definitions.now) }
    ensures failures { OnOk result (first.new.error
        ≡ first_failure first.old.error (all_faults (tabled_from defined.entry types definitions.now) definitions.now)) }
{
    let variables = Binders::Parameters(&[]);
    let read = read_text(
        alloc,
        definitions,
        &defined,
        &types,
        &callables,
        &variables,
        tables,
        first,
    )?;
    Ok(read.into_core(types))
}

/// The core of a model that has tables, and notes all failures of its shapes.
fn read_tabled<'a>(
    alloc: Global,
    tables: &Tables<'a>,
    first: &mut First,
) -> Result<CoreModel, AllocError>
    ensures core { IfOk result (λ core. (text : List ADef) (end : APlace) → AreTables text end tables.now
        → core ≡ resolved (tabled_of text) (cycle_in tables.now text) text) }
    ensures failures { OnOk result ((text : List ADef) (end : APlace) → AreTables text end tables.now
        → first.new.error ≡ first_failure first.old.error (all_faults (tabled_of text) text)) }
{
    let definitions = tables.definitions;
    let mut unused = FirstOfTables::none();
    let mut defined = define_all(alloc, definitions, &mut unused)?;
    let types = Types {
        definitions: mem::replace(&mut defined.table, Items::new(alloc)),
    };
    let callables = find_callables(alloc, definitions)?;
    let core = read_defined(alloc, definitions, defined, types, callables, tables, first)?;
    Ok(core)
}

/// The core of a model that has these tables, which must be those of a gathered text. The error is the first, by place and then by
/// number, of all failures of its shapes: members of an overload that clash, or a mapping whose sides may share values (M13); a wrong
/// shape (M14); a wrong count (M15); an overload of which no member fits (M16); a type variable that gets no number (M17); and a second
/// part of unknown width in a concatenation (M18). `OutOfMemory` says nothing of the model.
pub fn resolve(alloc: Global, tables: &Tables<'_>) -> Result<CoreModel, ShapeError>
    ensures resolved { (text : List ADef) (end : APlace) → AreTables text end tables.now → IfOk result (IsResolved tables.now text) }
    ensures refused { (text : List ADef) (end : APlace) → AreTables text end tables.now → IfErr result (IsRefused text) }
{
    let mut first = First::none();
    let core = read_tabled(alloc, tables, &mut first)?;
    match first.error.take() {
        Some(error) => Err(error),
        None => Ok(core),
    }
}
