//! Laws of progress: each function's contract is one, and it does nothing.
ghost use Rattle.shape_progress.specs.PatternRules.{PatternsGoOn, ArmsGoOn};
ghost use Rattle.shape_progress.specs.Rules.{CoresGoOn};
ghost use Rattle.shape_progress.specs.Meant.{CheckedIsMeant, StuckAtConditions};

/// A pattern on values of its shape is never stuck, but where a condition on sizes fails: it binds names of their shapes, or it doesn't
/// match.
pub fn patterns_go_on()
    ensures patterns { PatternsGoOn }
    ensures arms { ArmsGoOn }
{}

/// A core that has a shape by the rules of its forms is never stuck, but where a condition on sizes fails: names in it have values,
/// and each value that it gives, throws or returns has its shape.
pub fn cores_go_on()
    ensures { CoresGoOn }
{}

/// A run in which each condition is looked at is the core's, or it stops at one that fails. So a core that has a shape is stuck only
/// there.
pub fn stuck_at_conditions()
    ensures meant { CheckedIsMeant }
    ensures stuck { StuckAtConditions }
{}
