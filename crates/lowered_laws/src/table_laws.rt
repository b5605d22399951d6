//! The tables of bodies with constant sizes, by which code is made: the meaning under these sizes goes by them.
ghost use Rattle.lowered_laws.specs.TableLaws.{CasesTell, NotedCasesTell};

/// The meaning of a body under constant sizes goes by its tables. It does nothing.
pub fn cases_tell()
    ensures tell { CasesTell }
{}

/// So does the meaning in which each case goes by the numbers that are noted before its value is there. It does nothing.
pub fn noted_cases_tell()
    ensures tell { NotedCasesTell }
{}
