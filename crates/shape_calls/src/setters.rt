//! The callees of a target `f(a)`.
ghost use Rattle.std.specs.Prelude.{◌≡◌, ◌++◌, IfOk, OnOk, map};
ghost use Rattle.std.specs.Option.{option_copied};
ghost use Rattle.sail_types.specs.Rows.{row_members as row_members_of};
ghost use Rattle.shape_rules.specs.Calls.{member_candidate as member_called};
ghost use Rattle.shape_rules.specs.Targets as spec;
ghost use Rattle.shape_calls.specs.Picked.{held_by};

use crate::callees::member_candidate;
use sail_base::Items;
use sail_types::{Member, Row, Types, row_members};
use shape_rules::{Candidate, Meant};
use std::alloc::{AllocError, Global};

/// Callees that a name stands for.
#[derive(Drop)]
pub enum Callees<'m> {
    /// Those that the meanings of names hold.
    Held(&'m [Candidate]),
    /// The members of a builtin.
    Members(Items<Candidate>),
}

impl Callees<'_> {
    /// The callees, in order.
    pub fn as_slice(&self) -> &[Candidate]
        ensures { result.now ≡ held_by self.now }
    {
        match self {
            Callees::Held(callees) => callees,
            Callees::Members(callees) => callees.as_slice(),
        }
    }
}

/// Puts members of builtins behind others, as callees.
fn push_members(
    alloc: Global,
    members: &[Member],
    callees: &mut Items<Candidate>,
) -> Result<(), AllocError>
    ensures { OnOk result (callees.new ≡ callees.old ++ map member_called members.now) }
{
    for member in members {
        callees.push(member_candidate(alloc, member)?)?;
    }
    Ok(())
}

/// The members of a builtin, as callees.
fn members_of_row(alloc: Global, types: &Types, row: Row) -> Result<Items<Candidate>, AllocError>
    ensures { IfOk result (λ callees. callees ≡ map member_called (row_members_of types.now row)) }
{
    let members = row_members(alloc, types, row)?;
    let mut callees = Items::new(alloc);
    push_members(alloc, members.as_slice(), &mut callees)?;
    Ok(callees)
}

/// The callees that a name stands for. The one error is want of memory.
pub fn callees_of<'m>(
    alloc: Global,
    types: &Types,
    meant: Option<&'m Meant>,
) -> Result<Callees<'m>, AllocError>
    ensures { IfOk result (λ callees. held_by callees ≡ spec.callees_of types.now (option_copied meant.entry)) }
{
    match meant {
        Some(Meant::Callee(callee)) => Ok(Callees::Held(std::slice::from_ref(callee))),
        Some(Meant::Row(row)) => Ok(Callees::Members(members_of_row(alloc, types, *row)?)),
        Some(Meant::Overload(members)) => Ok(Callees::Held(members.as_slice())),
        _ => Ok(Callees::Held(&[])),
    }
}

/// The one callee that a name stands for; none where it is an overload, or another count of callees.
pub fn one_of<'c>(meant: Option<&Meant>, callees: &'c [Candidate]) -> Option<&'c Candidate>
    ensures { option_copied result ≡ spec.one_of (option_copied meant.entry) callees.now }
{
    match (meant, callees) {
        (Some(Meant::Overload(_)), _) => None,
        (_, [callee]) => Some(callee),
        _ => None,
    }
}
