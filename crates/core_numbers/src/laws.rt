//! A law of the numbers: the function's contract is it, and it does nothing.
ghost use Rattle.core_numbers.specs.Laws.{NumbersDiffer};

/// In a definition that is numbered no number stands twice: neither among its nodes, nor among the suffixes, targets and calls of
/// targets in it.
pub fn numbers_differ()
    ensures { NumbersDiffer }
{}
