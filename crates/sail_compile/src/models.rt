//! From the models' texts to an accepted model.
ghost use Rattle.std.specs.Prelude.{◌≡◌, ◌≤◌, IfErr, IfOk, IsTrue, List, Ok, is_some, length, true};
ghost use Rattle.std.specs.List.{All};
ghost use Rattle.model_tokens.specs.Files.{IsShort};
ghost use Rattle.sail_grammar.specs.Joined.{HaveTexts, end_from, joined};
ghost use Rattle.sail_grammar.specs.Leaves.{nowhere};
ghost use Rattle.sail_base.specs.declared.place.Place.{Place as APlace};
ghost use Rattle.sail_syntax.specs.declared.definitions.Def.{Def as ADef};
ghost use Rattle.sail_tables.specs.Tabled.{AreTables};
ghost use Rattle.sail_compile.specs.Checked.{checked};
ghost use Rattle.sail_compile.specs.Engines.{IsCompiled, IsTried};
ghost use Rattle.sail_compile.specs.Meanings.{jib};
ghost use Rattle.sail_compile.specs.parts.Runs.{meant};
ghost use Rattle.sail_compile.specs.parts.Told.{ClosedAs, GathersAs, IsCoreOf, IsRunCore, ParsesAs, ShapedAs, TabledAs, Tells};
ghost use Rattle.sail_compile.specs.parts.Told.{TellsOfClosed, TellsOfDefinitions, TellsOfShaped, TellsOfTabled, TellsOfTokens, TellsOfWhole};

use crate::checking::{check_core, check_refusal, size_refusal};
use crate::compiled::Compiled;
use crate::flat_code::run_of;
use crate::refusals::{gather_refusal, parse_refusal, table_refusal, token_refusal};
use crate::shape_refusals::shape_refusal;
use bidir_check::Certified;
use jib_machine::Machine;
use model_tokens::lex_files;
use monomorph::instances;
use sail_base::{Items, Place, Refusal};
use sail_core::CoreModel;
use sail_lex::Tokens;
use sail_parse_def::parse_model;
use sail_syntax::Def;
use sail_tables::{Tables, tables};
use scattered::gather;
use shapes::resolve;
use sized_nodes::Instance;
use std::alloc::{AllocError, Global};

/// What accepted texts are.
#[derive(Drop)]
pub struct Accepted {
    /// Their core with its obligations, and a certificate for each.
    pub certified: Certified,
    /// Their instances, in order of finding.
    pub instances: Items<Instance>,
}

/// Why texts aren't accepted.
#[derive(Debug, Drop)]
pub enum ModelError {
    /// The texts are refused.
    Refused(Refusal),
    /// Memory was wanting. This says nothing of the texts.
    OutOfMemory,
}

impl From<AllocError> for ModelError {
    ghost use Rattle.std.specs.Prelude.{◌≡◌};
    ghost use Rattle.sail_compile.specs.declared.models.ModelError.{ModelError};

    ghost from_gives = { λ e r. r ≡ ModelError.OutOfMemory };

    fn from(_: AllocError) -> ModelError {
        ModelError::OutOfMemory
    }
}

/// What texts are that are accepted, and where they are for a run, what takes the steps of their model. The first phase that refuses them decides: their
/// tokens, the grammar, the gathering of what is written in parts, the tables, the shapes, the obligations, and the sizes of instances. It fails so, and where
/// memory is wanting.
pub fn read_models(
    alloc: Global,
    texts: &[Items<u8>],
    for_run: bool,
) -> Result<Compiled<Machine>, ModelError>
    requires few { length texts.now ≤ 64 }
    requires short { All IsShort texts.now }
    ensures compiled { IfOk result (IsCompiled meant jib texts.now) }
    ensures tried { for_run ≡ true → IfOk result (λ made. IsTried made.run) }
    ensures refused { IfErr result (Tells texts.now) }
{
    match lex_files(alloc, texts) {
        Ok(files) => read_files(alloc, files.as_slice(), for_run),
        Err(error) => Err(ModelError::Refused(token_refusal(alloc, error)?)),
    }
}

/// What files are, by their tokens.
fn read_files(
    alloc: Global,
    files: &[Tokens<'_>],
    for_run: bool,
) -> Result<Compiled<Machine>, ModelError>
    requires { All HaveTexts files.now }
    ensures accepted { IfOk result (ParsesAs (joined files.now) (end_from nowhere files.now)) }
    ensures tried { for_run ≡ true → IfOk result (λ made. IsTried made.run) }
    ensures refused { IfErr result (TellsOfTokens (joined files.now) (end_from nowhere files.now)) }
{
    match parse_model(alloc, files) {
        Ok(definitions) => gather_definitions(alloc, definitions, last_end(files), for_run),
        Err(error) => Err(ModelError::Refused(parse_refusal(alloc, error)?)),
    }
}

/// The end of the last file.
fn last_end(files: &[Tokens<'_>]) -> Place
    ensures { result ≡ end_from nowhere files.now }
{
    let mut end = Place {
        file: 0,
        line: 0,
        column: 0,
    };
    for file in files {
        end = file.end;
    }
    end
}

/// What definitions are, once they are gathered. The last file ends here.
fn gather_definitions(
    alloc: Global,
    definitions: Vec<Def>,
    end: Place,
    for_run: bool,
) -> Result<Compiled<Machine>, ModelError>
    ensures accepted { IfOk result (GathersAs definitions.items end) }
    ensures tried { for_run ≡ true → IfOk result (λ made. IsTried made.run) }
    ensures refused { IfErr result (TellsOfDefinitions definitions.items end) }
{
    match gather(alloc, definitions) {
        Ok(whole) => table_definitions(alloc, whole.as_slice(), end, for_run),
        Err(error) => Err(ModelError::Refused(gather_refusal(error)?)),
    }
}

/// What gathered definitions are, once they have tables. The last file ends here.
fn table_definitions(
    alloc: Global,
    definitions: &[Def],
    end: Place,
    for_run: bool,
) -> Result<Compiled<Machine>, ModelError>
    ensures accepted { IfOk result (TabledAs definitions.now end) }
    ensures tried { for_run ≡ true → IfOk result (λ made. IsTried made.run) }
    ensures refused { IfErr result (TellsOfWhole definitions.now end) }
{
    match tables(alloc, definitions, end) {
        Ok(tables) => shape_definitions(alloc, tables, for_run),
        Err(error) => Err(ModelError::Refused(table_refusal(alloc, &error)?)),
    }
}

/// What definitions are which have these tables, once they have shapes.
fn shape_definitions(
    alloc: Global,
    tables: Tables<'_>,
    for_run: bool,
) -> Result<Compiled<Machine>, ModelError>
    ensures accepted { (text : List ADef) (end : APlace) → AreTables text end tables.entry → IfOk result (ShapedAs text) }
    ensures tried { for_run ≡ true → IfOk result (λ made. IsTried made.run) }
    ensures refused { (text : List ADef) (end : APlace) → AreTables text end tables.entry → IfErr result (TellsOfTabled text) }
{
    match resolve(alloc, &tables) {
        Ok(core) => {
            let again = run_core(alloc, &tables, for_run)?;
            check_definitions(alloc, tables.definitions, core, again)
        }
        Err(error) => Err(ModelError::Refused(shape_refusal(alloc, tables, error)?)),
    }
}

/// The core of definitions that are resolved, with numbers of their cycles of calls, where it is to be run. It fails where memory is wanting.
fn run_core(
    alloc: Global,
    tables: &Tables<'_>,
    for_run: bool,
) -> Result<Option<CoreModel>, ModelError>
    ensures core { (text : List ADef) (end : APlace) → AreTables text end tables.now → IfOk result (IsRunCore text) }
    ensures tried { for_run ≡ true → IfOk result (λ core. IsTrue (is_some core)) }
    ensures refused { (text : List ADef) → IfErr result (TellsOfTabled text) }
{
    if !for_run {
        return Ok(None);
    }
    match resolve(alloc, tables) {
        Ok(core) => Ok(Some(core)),
        Err(_) => Err(ModelError::OutOfMemory),
    }
}

/// What definitions are which have this core, once their obligations are closed.
fn check_definitions(
    alloc: Global,
    definitions: &[Def],
    core: CoreModel,
    again: Option<CoreModel>,
) -> Result<Compiled<Machine>, ModelError>
    ensures accepted { IsCoreOf definitions.now core → IsRunCore definitions.now again → IfOk result (ClosedAs definitions.now) }
    ensures tried { IsTrue (is_some again) → IfOk result (λ made. IsTried made.run) }
    ensures refused { IsCoreOf definitions.now core → IfErr result (TellsOfShaped definitions.now) }
{
    match check_core(alloc, core) {
        Ok(certified) => size_definitions(alloc, definitions, certified, again),
        Err(error) => Err(ModelError::Refused(check_refusal(alloc, &error)?)),
    }
}

/// What definitions are whose obligations are closed so, once no size is refused.
fn size_definitions(
    alloc: Global,
    definitions: &[Def],
    certified: Certified,
    again: Option<CoreModel>,
) -> Result<Compiled<Machine>, ModelError>
    ensures accepted { checked definitions.now ≡ Ok certified → IsRunCore definitions.now again → IfOk result (ClosedAs definitions.now) }
    ensures tried { IsTrue (is_some again) → IfOk result (λ made. IsTried made.run) }
    ensures refused { checked definitions.now ≡ Ok certified → IfErr result (TellsOfClosed definitions.now) }
{
    match instances(alloc, certified.core()) {
        Ok(instances) => {
            let run = run_of(alloc, again)?;
            let accepted = Accepted {
                certified,
                instances,
            };
            Ok(Compiled { accepted, run })
        }
        Err(error) => Err(ModelError::Refused(size_refusal(alloc, &error)?)),
    }
}
