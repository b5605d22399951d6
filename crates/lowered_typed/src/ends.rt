//! What is said of values by the numbers that are noted before them.
ghost use Rattle.std.specs.Prelude.{◌≡◌, ◌++◌, IfOk, OnOk};
ghost use Rattle.lowered_pieces.specs.Forms.{cases_ends};
ghost use Rattle.lowered_pieces.specs.Gathered.{only_end};
ghost use Rattle.lowered_steps.specs.Hands.{types_of};
ghost use Rattle.lowered_typed.specs.Here as here;
ghost use Rattle.lowered_typed.specs.Judged as judged;
ghost use Rattle.lowered_typed.specs.Judging.{typed};

use crate::signs::Judge;
use crate::works::{are_small, both};
use lowered_ends::node_ends;
use lowered_steps::Ends;
use sail_base::Items;
use sail_core::Core;
use size_values::{Sized, copy_sized};
use sized_nodes::Case;
use std::alloc::AllocError;

/// What is said of the value of a node. It fails where memory is wanting.
pub fn ends_of<'a>(judge: &Judge<'a>, node: &Core) -> Result<Ends<'a>, AllocError>
    ensures { IfOk result (λ ends. types_of ends ≡ (typed judge.now node.now).ends) }
{
    let ends = node_ends(judge.alloc, judge.setting, judge.around, node)?;
    Ok(ends)
}

/// What is said of the value of the first node; nothing where there is none. It fails where memory is wanting.
pub fn first_ends<'a>(judge: &Judge<'a>, parts: &[Core]) -> Result<Ends<'a>, AllocError>
    ensures { IfOk result (λ ends. types_of ends ≡ judged.first_ends (judged.all_here judge.now parts.now)) }
{
    match parts {
        [] => Ok(Ends::Unsaid),
        [first, ..] => ends_of(judge, first),
    }
}

/// The type that the only case gives; that of `()` where there is none, or more. It fails where memory is wanting.
#[tactic(auto, using(crate::proofs::Fixed::fixed))]
fn only_gives(judge: &Judge<'_>, cases: &[Case]) -> Result<Sized, AllocError>
    ensures { IfOk result (λ typ. typ ≡ here.operand_typ judge.now (only_end (cases_ends cases.now))) }
{
    match cases {
        [] => Ok(Sized::Unit),
        [only] => copy_sized(judge.alloc, &only.gives),
        [_, _, ..] => Ok(Sized::Unit),
    }
}

/// The only type that is said; that of `()` where there is none, or more. It fails where memory is wanting.
#[tactic(auto, using(crate::proofs::Fixed::fixed))]
fn only_type(judge: &Judge<'_>, ends: &Ends<'_>) -> Result<Sized, AllocError>
    ensures { IfOk result (λ typ. typ ≡ here.operand_typ judge.now (only_end (types_of ends.now))) }
{
    match ends {
        Ends::Unsaid => Ok(Sized::Unit),
        Ends::Cases(cases) => only_gives(judge, *cases),
        Ends::One(typ) => copy_sized(judge.alloc, typ),
    }
}

/// The types of operands come behind others, where one type is said of each. They fail where memory is wanting.
pub fn push_operand_types(
    judge: &Judge<'_>,
    parts: &[Core],
    types: &mut Items<Sized>,
) -> Result<(), AllocError>
    ensures { OnOk result (types.new ≡ types.old ++ here.operand_types judge.now (judged.all_here judge.now parts.now)) }
{
    match parts {
        [] => Ok(()),
        [first, rest @ ..] => {
            let ends = ends_of(judge, first)?;
            let typ = only_type(judge, &ends)?;
            types.push(typ)?;
            push_operand_types(judge, rest, types)
        }
    }
}

/// Whether what a case gives is of the type of exceptions. It fails where there are 2^32 types or more.
fn is_thrown(judge: &Judge<'_>, case: &Case) -> Result<bool, AllocError>
    ensures { IfOk result (λ answer. answer ≡ judged.thrown_right judge.now case.now) }
{
    let one = are_small(case.picked.as_slice());
    let number = judge.setting.number(&case.gives)?;
    let other = number == judge.signs.shell.exception;
    let all = both(one, other);
    Ok(all)
}

/// Whether what all cases give is. It fails where there are 2^32 types or more.
#[tactic(auto, using(crate::proofs::Bools::chains))]
fn are_cases_thrown(judge: &Judge<'_>, cases: &[Case]) -> Result<bool, AllocError>
    ensures { IfOk result (λ answer. answer ≡ here.all_thrown judge.now (cases_ends cases.now)) }
{
    match cases {
        [] => Ok(true),
        [first, rest @ ..] => {
            let one = is_thrown(judge, first)?;
            let other = are_cases_thrown(judge, rest)?;
            let all = both(one, other);
            Ok(all)
        }
    }
}

/// Whether what is thrown has the type of exceptions, whichever of these types a value has. It fails where there are 2^32 types or more.
pub fn are_thrown(judge: &Judge<'_>, ends: &Ends<'_>) -> Result<bool, AllocError>
    ensures { IfOk result (λ answer. answer ≡ here.all_thrown judge.now (types_of ends.now)) }
{
    match ends {
        Ends::Unsaid => Ok(true),
        Ends::Cases(cases) => are_cases_thrown(judge, *cases),
        Ends::One(typ) => {
            let number = judge.setting.number(typ)?;
            Ok(number == judge.signs.shell.exception)
        }
    }
}
