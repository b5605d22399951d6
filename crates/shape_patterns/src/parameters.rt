//! Parameters of clauses.
ghost use Rattle.std.specs.Prelude.{◌≡◌, ◌++◌, IfOk, OnOk};
ghost use Rattle.shape_rules.specs.Around.{setting_of};
ghost use Rattle.shape_rules.specs.Findings.{first_failure};
ghost use Rattle.shape_rules.specs.Patterns.{each_looked, no_widths};
ghost use Rattle.shape_patterns.specs.Pieces.{pieces_of};

use crate::groups::look_pieces;
use sail_base::{Items, Place};
use sail_core::Pattern;
use sail_syntax::Pat;
use sail_types::Shape;
use shape_rules::{Around, First, Local};
use std::alloc::{AllocError, Global};

/// The parameters of a clause, which are `()` alone or these patterns, each matched with values of its shape. As `look` of each, in order,
/// where no width is known. The one error is want of memory.
pub fn look_parameters(
    alloc: Global,
    place: Place,
    is_unit: bool,
    parts: &[Pat],
    around: &Around<'_>,
    params: &[Shape],
    binds: &mut Items<Local>,
    first: &mut First,
) -> Result<Items<Pattern>, AllocError>
    ensures patterns { IfOk result (λ made. made ≡ (each_looked (pieces_of place is_unit parts.now) (setting_of around.now) no_widths params.now).patterns) }
    ensures binds { OnOk result (binds.new
        ≡ binds.old ++ (each_looked (pieces_of place is_unit parts.now) (setting_of around.now) no_widths params.now).binds) }
    ensures failures { OnOk result (first.new.error
        ≡ first_failure first.old.error (each_looked (pieces_of place is_unit parts.now) (setting_of around.now) no_widths params.now).faults) }
{
    look_pieces(
        alloc,
        place,
        is_unit,
        parts,
        around,
        &[],
        params,
        binds,
        first,
    )
}
