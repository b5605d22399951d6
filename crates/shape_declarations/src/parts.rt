//! The `val` and the measure of a function, by its name.
ghost use Rattle.std.specs.Prelude.{◌≡◌, find, slice_get};
ghost use Rattle.std.specs.Option.{option_copied};
ghost use Rattle.sail_types.specs.Sums.{and_then};
ghost use Rattle.sail_signatures.specs.Signatures.{is_val_of};
ghost use Rattle.sail_signatures.specs.Parts.{is_measure_of};
ghost use Rattle.shape_models.specs.Sources.{IsSound};
ghost use Rattle.shape_declarations.specs.Signatures.{is_declared as is_declared_in};

use sail_syntax::Def;
use shape_models::Source;

/// The definition at a position, where there is one.
fn definition_at(definitions: &[Def], at: Option<usize>) -> Option<&Def>
    ensures { option_copied result ≡ and_then at (slice_get definitions.now) }
{
    match at {
        None => None,
        Some(at) => definitions.get(at),
    }
}

/// The first `val` of a name, where there is one.
pub(crate) fn find_val<'a>(source: &Source<'a>, name: &str) -> Option<&'a Def>
    requires { IsSound source.now }
    ensures { option_copied result ≡ find (is_val_of name.now) source.now.definitions.now }
{
    let parts = source.callables.parts(name);
    definition_at(source.definitions, parts.val)
}

/// The first measure of a name, where there is one.
pub fn find_measure<'a>(source: &Source<'a>, name: &str) -> Option<&'a Def>
    requires { IsSound source.now }
    ensures { option_copied result ≡ find (is_measure_of name.now) source.now.definitions.now }
{
    let parts = source.callables.parts(name);
    definition_at(source.definitions, parts.measure)
}

/// Whether a `val` gives the types of the function of a name; where none does, they are what its clauses are annotated with.
pub fn is_declared(source: &Source<'_>, name: &str) -> bool
    requires { IsSound source.now }
    ensures { result ≡ is_declared_in source.now.definitions.now name.now }
{
    match find_val(source, name) {
        None => false,
        Some(_) => true,
    }
}
