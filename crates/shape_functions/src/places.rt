//! Where expressions of a model stand.
ghost use Rattle.std.specs.Prelude.{◌≡◌, List, None};
ghost use Rattle.sail_kinds.specs.Scopes.{variables_of};
ghost use Rattle.shape_rules.specs.declared.locals.Local.{Local as ALocal};
ghost use Rattle.shape_rules.specs.Around.{setting_of};
ghost use Rattle.shape_models.specs.Models.{Own, setting_of as setting_under};
ghost use Rattle.shape_models.specs.Sources.{tabled_by, IsSound, AreMeanings};
ghost use Rattle.shape_functions.specs.Parts.{held_setting};

use sail_kinds::{Binders, Scope};
use shape_models::Source;
use shape_rules::{Around, Meanings};

/// Where expressions of a model stand, under these type variables, as the code holds it.
pub(crate) fn held_around<'a>(
    source: Source<'a>,
    meanings: &'a Meanings,
    variables: &'a Binders<'a>,
) -> Around<'a>
    requires { IsSound source }
    ensures { setting_of result ≡ held_setting source.entry meanings.now (variables_of variables.now) }
{
    Around {
        types: source.types,
        scope: Scope::new(source.names, variables),
        meanings,
        is_plain: false,
        answer: None,
    }
}

/// Where expressions of a model stand, under these type variables: no function is around, and overloads of operators add members.
pub fn around<'a>(
    source: &Source<'a>,
    meanings: &'a Meanings,
    variables: &'a Binders<'a>,
) -> Around<'a>
    requires { IsSound source.now }
    ensures { (own : Own) (lets : List ALocal) → AreMeanings (tabled_by source.now) own source.now.definitions.now lets meanings.now
        → setting_of result ≡ setting_under (tabled_by source.now) own source.now.definitions.now lets (variables_of variables.now) }
{
    held_around(*source, meanings, variables)
}
