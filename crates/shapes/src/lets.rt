//! Top-level lets.
ghost use Rattle.std.specs.Prelude.{◌≡◌, List, ◌++◌, [], IfOk, OnOk};
ghost use Rattle.shape_rules.specs.declared.locals.Local.{Local as ALocal};
ghost use Rattle.shape_rules.specs.Around.{setting_of};
ghost use Rattle.shape_rules.specs.Findings.{first_failure};
ghost use Rattle.shape_models.specs.Models.{Own};
ghost use Rattle.shape_models.specs.Sources.{tabled_by, AreMeanings};
ghost use Rattle.shapes.specs.Failures.{let_bound, own_in, let_binds, let_faults, lets_faults};
ghost use Rattle.shapes.specs.Resolved.{binding_opening, let_openings, lets_openings};
ghost use Rattle.shapes.specs.Parts.{AreAllMeanings, IsTop};

use crate::openings::opening;
use crate::top::{Top, around_top};
use sail_base::{Items, Place};
use sail_core::{Opening, OpeningKind};
use sail_syntax::{Def, Exp, Pat};
use shape_clauses::{cast_made, elaborate, nested, place_of};
use shape_forms::note_hole;
use shape_models::put_lets;
use shape_patterns::{has_typ, look, wanted_by};
use shape_rules::{Around, First, Local, Locals, Meanings};
use std::alloc::{AllocError, Global};

/// A top-level `let`, which is plain: the names that it binds go behind others, and its failures are noted.
#[tactic(auto, using(shape_rules::proofs::Firsts::first_failure_append))]
fn read_let(
    alloc: Global,
    around: &Around<'_>,
    place: Place,
    pattern: &Pat,
    value: &Exp,
    binds: &mut Items<Local>,
    first: &mut First,
) -> Result<Opening, AllocError>
    ensures opening { IfOk result (λ made. made ≡ binding_opening place (let_bound (setting_of around.now) place pattern.now value.now)) }
    ensures binds { OnOk result (binds.new ≡ binds.old ++ (let_bound (setting_of around.now) place pattern.now value.now).binds) }
    ensures failures { OnOk result (first.new.error
        ≡ first_failure first.old.error (let_bound (setting_of around.now) place pattern.now value.now).faults) }
{
    let inside = around.plainly();
    let mut locals = Locals::new(alloc);
    let wanted = wanted_by(alloc, pattern, &inside)?;
    let made = elaborate(alloc, value, &inside, &mut locals, &wanted, first)?;
    note_hole(place, has_typ(pattern), &made.shape, first);
    let looked = look(alloc, pattern, &inside, &[], &made.shape, binds, first)?;
    let arm = nested(alloc, looked)?;
    let core = cast_made(alloc, made, place_of(value))?;
    opening(alloc, place, OpeningKind::Let(arm), core)
}

/// A definition: where it is a top-level `let`, its opening and the names that it binds go behind others, and its failures are noted.
fn read_definition<'a>(
    alloc: Global,
    top: Top<'a>,
    meanings: &'a Meanings,
    definition: &Def,
    openings: &mut Items<Opening>,
    binds: &mut Items<Local>,
    first: &mut First,
) -> Result<(), AllocError>
    requires { IsTop top }
    ensures openings { OnOk result ((own : Own) (lets : List ALocal)
        → AreMeanings (tabled_by top.entry.source) own top.entry.source.definitions.now lets meanings.now
        → openings.new ≡ openings.old ++ let_openings (tabled_by top.entry.source) own top.entry.source.definitions.now lets definition.now) }
    ensures binds { OnOk result ((own : Own) (lets : List ALocal)
        → AreMeanings (tabled_by top.entry.source) own top.entry.source.definitions.now lets meanings.now
        → binds.new ≡ binds.old ++ let_binds (tabled_by top.entry.source) own top.entry.source.definitions.now lets definition.now) }
    ensures failures { OnOk result ((own : Own) (lets : List ALocal)
        → AreMeanings (tabled_by top.entry.source) own top.entry.source.definitions.now lets meanings.now
        → first.new.error ≡ first_failure first.old.error
        (let_faults (tabled_by top.entry.source) own top.entry.source.definitions.now lets definition.now)) }
{
    match definition {
        Def::Let(place, pattern, value) => {
            let around = around_top(top, meanings);
            let opening = read_let(alloc, &around, *place, pattern, value.get(), binds, first)?;
            openings.push(opening)
        }
        _ => Ok(()),
    }
}

/// What is found of top-level lets.
#[derive(Drop)]
pub(crate) struct Lets {
    /// Their openings.
    pub(crate) openings: Items<Opening>,
    /// What names mean, those that they bind among them.
    pub(crate) meanings: Meanings,
}

/// The openings of a model's top-level lets, each under those before it, and notes their failures; the names that they bind come among
/// what names mean. The one error is want of memory.
pub(crate) fn read_lets(
    alloc: Global,
    top: Top<'_>,
    meanings: Meanings,
    first: &mut First,
) -> Result<Lets, AllocError>
    requires top { IsTop top }
    requires meanings { AreMeanings (tabled_by top.source) (own_in (tabled_by top.source) top.source.definitions.now)
        top.source.definitions.now [] meanings }
    ensures openings { IfOk result (λ made. made.openings ≡ lets_openings (tabled_by top.entry.source)
        (own_in (tabled_by top.entry.source) top.entry.source.definitions.now) top.entry.source.definitions.now [] top.entry.source.definitions.now) }
    ensures meanings { IfOk result (λ made. AreAllMeanings (tabled_by top.entry.source) top.entry.source.definitions.now made.meanings) }
    ensures failures { OnOk result (first.new.error ≡ first_failure first.old.error (lets_faults (tabled_by top.entry.source)
        (own_in (tabled_by top.entry.source) top.entry.source.definitions.now) top.entry.source.definitions.now [] top.entry.source.definitions.now)) }
{
    let mut meanings = meanings;
    let mut openings = Items::new(alloc);
    let mut count = 0;
    let definitions = top.source.definitions;
    for definition in definitions {
        let mut binds = Items::new(alloc);
        read_definition(
            alloc,
            top,
            &meanings,
            definition,
            &mut openings,
            &mut binds,
            first,
        )?;
        count = put_lets(alloc, &mut meanings.values, count, binds.as_slice())?;
    }
    Ok(Lets { openings, meanings })
}
