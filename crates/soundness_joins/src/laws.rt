//! Laws of operators on truths, of loops and of ways that meet: each function's contract is one, and it does nothing.
ghost use Rattle.soundness_joins.specs.Laws.{CountingIsFine, JoinsAreFine, LoopsAreFine, TruthsAreFine};

/// `&` and `|` end well beside their walks, where their operands do.
pub fn truths_are_fine()
    ensures { TruthsAreFine }
{}

/// So does `foreach`.
pub fn counting_is_fine()
    ensures { CountingIsFine }
{}

/// So do `while` and `repeat`.
pub fn loops_are_fine()
    ensures { LoopsAreFine }
{}

/// So do `if`, `match` and `try`, where the patterns of arms match.
pub fn joins_are_fine()
    ensures { JoinsAreFine }
{}
