ghost use Rattle.std.specs.Prelude.{◌≡◌, List, []};
ghost use Rattle.shape_rules.specs.declared.locals.Local.{Local as ALocal};
ghost use Rattle.shape_rules.specs.Around.{setting_of};
ghost use Rattle.shape_models.specs.Models.{Own, setting_of as setting_under};
ghost use Rattle.shape_models.specs.Sources.{tabled_by, AreMeanings};
ghost use Rattle.shapes.specs.Parts.{IsTop};

use sail_kinds::Binders;
use shape_functions::around;
use shape_models::Source;
use shape_rules::{Around, Meanings};

/// The top level of a model.
#[derive(Clone, Copy)]
pub(crate) struct Top<'a> {
    /// Its text, with what its tables hold of types and callables.
    pub(crate) source: Source<'a>,
    /// The type variables that can be named there: none.
    pub(crate) variables: &'a Binders<'a>,
}

/// Where expressions of the top level stand.
pub(crate) fn around_top<'a>(top: Top<'a>, meanings: &'a Meanings) -> Around<'a>
    requires { IsTop top }
    ensures { (own : Own) (lets : List ALocal)
        → AreMeanings (tabled_by top.entry.source) own top.entry.source.definitions.now lets meanings.now
        → setting_of result ≡ setting_under (tabled_by top.entry.source) own top.entry.source.definitions.now lets [] }
{
    let source = top.source;
    around(&source, meanings, top.variables)
}
