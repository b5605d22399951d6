//! Laws of pieces of lowered code: each function's contract is one, and it does nothing.
ghost use Rattle.lowered_laws.specs.CodeLaws.{CasesRun, LeadsRun, LabelsOfCasesAreOwn, LabelsOfLeadsAreOwn};

/// Code by cases runs that of the case whose numbers are those that are noted, and goes on behind all of them: of the cases of a node, and
/// of the instances that a call leads to.
pub fn cases_run()
    ensures cases { CasesRun }
    ensures leads { LeadsRun }
{}

/// Code by cases sets labels of its own alone, each at most once, where the code of each case does.
pub fn labels_are_own()
    ensures cases { LabelsOfCasesAreOwn }
    ensures leads { LabelsOfLeadsAreOwn }
{}
