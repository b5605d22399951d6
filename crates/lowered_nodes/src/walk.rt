//! The code of nodes: a walk over the tree, by the kind of a node. What comes behind a value is a leaf (`Tail`), so that each body is put once.
ghost use Rattle.std.specs.Prelude.{◌≡◌, true, OnOk};
ghost use Rattle.lowered_pieces.specs.Places.{Naming};
ghost use Rattle.lowered_ends.specs.Around.{piece_for};
ghost use Rattle.lowered_nodes.specs.Walk as spec;

use crate::arms::{put_caught, put_clauses, put_match};
use crate::bindings::{put_let_in, put_statements, put_var_in};
use crate::branches::{put_and, put_branches, put_or, put_when};
use crate::calls::put_callee;
use crate::leaves::{
    put_constant, put_local, put_opening, put_read, put_size, put_truth, put_variable,
};
use crate::loops::{put_counted, put_repeat, put_while};
use crate::operands::{put_made_of, put_own_cast, put_with, put_with_item, put_with_slice};
use crate::paths::put_part_of;
use crate::stops::{put_assert, put_exit, put_return, put_throw};
use crate::writes::put_assign;
use jib::Operation;
use lowered_ends::Around;
use lowered_pieces::Coding;
use lowered_steps::{Making, Order, Setting, Stand, Tail};
use sail_core::{Core, Kind};
use std::alloc::{AllocError, Global};

/// What the walk goes by: the memory, what the code is made by, and what is around the function.
#[derive(Clone, Copy)]
pub struct Walk<'a> {
    /// Where memory comes from.
    pub alloc: Global,
    /// What the code is made by.
    pub setting: &'a Setting<'a>,
    /// What is around the function.
    pub around: &'a Around<'a>,
}

/// The code of a node that is lowered here, and what comes behind its value. It fails where memory is wanting.
#[cycle(lowering)]
pub fn put_node<'x>(
    walk: &'x Walk<'x>,
    coding: &mut Coding,
    stand: &'x Stand<'x>,
    tail: &'x Tail<'x>,
    node: &'x Core,
) -> Result<(), AllocError>
    requires { (name : Naming) → spec.node_ok walk.now name node.now ≡ true }
    ensures { OnOk result (spec.Puts coding.old coding.new walk.now stand.now tail.now
        (λ name. piece_for walk.now.setting.now walk.now.around.now name node.now)) }
{
    match &node.kind {
        Kind::Constant(literal) => put_constant(&*walk, coding, &*stand, &*tail, literal, &*node),
        Kind::Local(name) => put_local(&*walk, coding, &*stand, &*tail, name, &*node),
        Kind::Variable(name) => { put_variable(&*walk, coding, &*stand, &*tail, name, &*node) }
        Kind::TopLevel(name) => put_opening(&*walk, coding, &*stand, &*tail, *name, &*node),
        Kind::Register(register) => put_read(&*walk, coding, &*stand, &*tail, *register, &*node),
        Kind::Call(callee) => put_callee(&*walk, coding, &*stand, &*tail, *callee, &*node),
        Kind::And => put_and(&*walk, coding, &*stand, &*tail, &*node),
        Kind::Or => put_or(&*walk, coding, &*stand, &*tail, &*node),
        Kind::Cast(_) => put_own_cast(&*walk, coding, &*stand, &*tail, &*node),
        Kind::Tuple => {
            let making = Making::Works(Operation::Build, Order::Forwards);
            put_made_of(&*walk, coding, &*stand, &*tail, &making, &*node)
        }
        Kind::Vector(_) => {
            let making = Making::Works(Operation::Build, Order::Backwards);
            put_made_of(&*walk, coding, &*stand, &*tail, &making, &*node)
        }
        Kind::List(_) => {
            let making = Making::Works(Operation::Build, Order::Forwards);
            put_made_of(&*walk, coding, &*stand, &*tail, &making, &*node)
        }
        Kind::Cons(_) => {
            let making = Making::Works(Operation::Cons, Order::Forwards);
            put_made_of(&*walk, coding, &*stand, &*tail, &making, &*node)
        }
        Kind::Struct(_, fields) => {
            let making = Making::Works(Operation::Build, Order::Fields(fields.as_slice()));
            put_made_of(&*walk, coding, &*stand, &*tail, &making, &*node)
        }
        Kind::With(_, fields) => put_with(&*walk, coding, &*stand, &*tail, fields, &*node),
        Kind::Part(suffixes) => put_part_of(&*walk, coding, &*stand, &*tail, suffixes, &*node),
        Kind::WithItem => put_with_item(&*walk, coding, &*stand, &*tail, &*node),
        Kind::WithSlice => put_with_slice(&*walk, coding, &*stand, &*tail, &*node),
        Kind::SizeOf(size, _) => put_size(&*walk, coding, &*stand, &*tail, size, &*node),
        Kind::Constraint(condition, _) => {
            put_truth(&*walk, coding, &*stand, &*tail, condition, &*node)
        }
        Kind::Assign(targets) => put_assign(&*walk, coding, &*stand, &*tail, targets, &*node),
        Kind::Block(statements) => {
            put_statements(&*walk, coding, &*stand, &*tail, statements, &*node)
        }
        Kind::Let(arm) => put_let_in(&*walk, coding, &*stand, &*tail, arm, &*node),
        Kind::Var(name, _) => put_var_in(&*walk, coding, &*stand, &*tail, name, &*node),
        Kind::If(_) => put_branches(&*walk, coding, &*stand, &*tail, &*node),
        Kind::Match(arms, _) => put_match(&*walk, coding, &*stand, &*tail, arms, &*node),
        Kind::Try(arms, _) => put_caught(&*walk, coding, &*stand, &*tail, arms, &*node),
        Kind::Clauses(arms) => put_clauses(&*walk, coding, &*stand, &*tail, arms, &*node),
        Kind::When => put_when(&*walk, coding, &*stand, &*tail, &*node),
        Kind::Foreach(name, counting) => {
            put_counted(&*walk, coding, &*stand, &*tail, name, *counting, &*node)
        }
        Kind::While => put_while(&*walk, coding, &*stand, &*tail, &*node),
        Kind::Repeat => put_repeat(&*walk, coding, &*stand, &*tail, &*node),
        Kind::Return => put_return(&*walk, coding, &*stand, &*tail, &*node),
        Kind::Throw => put_throw(&*walk, coding, &*stand, &*tail, &*node),
        Kind::Exit => put_exit(&*walk, coding, &*stand, &*tail, &*node),
        Kind::Assert(text) => put_assert(&*walk, coding, &*stand, &*tail, text, &*node),
        Kind::Optional(_) => Ok(()),
    }
}
