//! Laws of the definitions: each function's contract is one, and it does nothing.
ghost use Rattle.jib.specs.laws.Ends.{EachRunEnds, InOneWay, OpeningsEnd, ConstantsBelong};
ghost use Rattle.jib.specs.laws.Measures.{ComparesNearest};
ghost use Rattle.jib.specs.laws.Ways.{DeclaredBeforeUse};

/// Each run of a valid module ends, in one way; its openings can be worked out; and a measure is compared with that of the
/// nearest active call of its cycle.
pub fn one_run()
    ensures ends { EachRunEnds }
    ensures once { InOneWay }
    ensures openings { OpeningsEnd }
    ensures nearest { ComparesNearest }
{}

/// In a function of a valid module, on each way through its code, each slot is declared before it is used, at its one type.
pub fn declared_before_use()
    ensures { DeclaredBeforeUse }
{}

/// A constant that the rules find to belong to a type is a value that belongs to it, and the other way round.
pub fn constants_belong()
    ensures { ConstantsBelong }
{}
