//! What a model's text means, as it is written: each form of an expression, patterns and mappings, calls, and a run's start and events.
//!
//! `specs/Expressions` has one case for each form, `specs/Patterns` one for each pattern, `specs/Calls` what a call does, and
//! `specs/Start` what a run begins with and what an event comes to.
//!
//! Where each rule of the language stands (`F.name` is `name` in `specs/F.antt`):
//! - operands, arguments, parts, fields from left to right: `Expressions.expression_form`; `&` and `|`: `Expressions.infix_of`
//! - names in scope: `Targets.name_read`; what `let`, `var` and cases bind: `Expressions.let_in`, `var_in`, `case_taken`
//! - assignments: `Targets.assigned`, `name_write`, `part_spot`, `call_spot`; `v[..]`, `s.f`, `[v with ..]`: `Expressions.index_of`
//! - overloads: `Choice.choice`, `accepts`; members of operators: `Choice.operator_members`; `f()`: `Choice.arguments`
//! - patterns: `Patterns.pattern_form`, `identifier_matches`; widths in `p @ q`: `Patterns.cut_by`, `width_on_side`, `Widths.width_on`
//! - `match`, guards, `try`: `Expressions.chosen`, `first_case`, `guarded`; clauses of a function: `Calls.first_clause`
//! - mappings: `Calls.first_crossing`, `side_form`; `m(x)`: `Calls.applied`; `m(p)`: `Calls.converting`
//! - calls, ticks, measures: `Calls.entered`, `active_in`, `below`; numbers of type variables: `Calls.numbered`
//! - loops: `Loops.count_turns`, `while_turns`, `repeat_turns`; `return`, `throw`, `exit`: `Expressions.leave`
//! - `sizeof`, `constraint`: `Expressions.asked`; plain expressions (measures, top-level lets, initial values): `World.plain`
//! - top-level lets and initial values: `Start.openings_of`; `reset` and `step`: `Start.event_run`
#![tactic(auto)]

mod laws;

pub use laws::{
    blocks_are_nests, clauses_in_order, conversions_are_no_ticks, foreach_counts_down,
    mappings_that_fit_nothing, measures_fall, members_in_order, numbers_come_from_arguments,
    orders_of_evaluation, starts_in_order, throws_take_nothing_back, vars_are_read_anew,
    words_are_cut,
};
