//! Laws of the goals of a model: each function's contract is one, and it does nothing.
//!
//! When a goal is true where it stands is said in `specs/Goals`, which variables conditions name in `specs/Named`.
#![tactic(auto)]

ghost use Rattle.goal_laws.specs.Goals.{GoalsHold};

/// Where every obligation of a model holds, each goal of the walks over its definitions is true, whatever integers their variables stand
/// for with which all is true that is in force there.
pub fn goals_hold()
    ensures { GoalsHold }
{}
