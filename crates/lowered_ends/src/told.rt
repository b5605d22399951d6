//! Whether variables of a name are read, and at which types.
ghost use Rattle.std.specs.Prelude.{◌≡◌};
ghost use Rattle.lowered_pieces.specs.Nodes.{is_empty};
ghost use Rattle.lowered_pieces.specs.Tables as tables;
ghost use Rattle.lowered_pieces.specs.Writes.{is_read};
ghost use Rattle.lowered_steps.specs.Setting.{reads_at};
ghost use Rattle.lowered_ends.specs.Able as spec;

use crate::able::both;
use lowered_steps::Setting;
use sail_base::Text;
use size_values::{Sized, same_sized};
use sized_nodes::Case;

/// Whether no variables of a name are read.
pub fn is_unread(setting: &Setting<'_>, name: &Text) -> bool
    ensures { result ≡ is_empty (reads_at setting.now.reads.now name.now) }
{
    match setting.reads_as(name) {
        [] => true,
        [_, ..] => false,
    }
}

/// Whether variables of a name are read.
pub fn is_told(setting: &Setting<'_>, name: &Text) -> bool
    ensures { result ≡ is_read (reads_at setting.now.reads.now name.now) }
{
    match setting.reads_as(name) {
        [] => false,
        [_, ..] => true,
    }
}

/// Whether a type is one of these.
fn is_among(typ: &Sized, types: &[Sized]) -> bool
    ensures { result ≡ tables.is_among typ.now types.now }
{
    match types {
        [] => false,
        [first, rest @ ..] => same_sized(typ, first) || is_among(typ, rest),
    }
}

/// Whether what all cases give is among these types.
pub fn are_among(types: &[Sized], cases: &[Case]) -> bool
    ensures { result ≡ tables.cases_among types.now cases.now }
{
    match cases {
        [] => true,
        [first, rest @ ..] => is_among(&first.gives, types) && are_among(types, rest),
    }
}

/// Whether a variable is lowered that a node reads: it is read at types that are known to be, and the node has no parts.
pub fn is_variable(setting: &Setting<'_>, name: &Text, node: u32, parts: usize) -> bool
    ensures { result ≡ spec.variable_ok setting.now name.now node parts }
{
    let told = is_told(setting, name);
    let types = setting.reads_as(name);
    let list = setting.cases(node, 0);
    let fit = are_among(types, list);
    let whole = both(parts == 0, fit);
    both(told, whole)
}
