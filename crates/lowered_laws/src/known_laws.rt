//! Laws of what a module that is made of a core knows: the numbers of an instance, how it is read, and the types at which arguments come in.
//!
//! `specs/KnownLaws` has the laws.
ghost use Rattle.lowered_laws.specs.KnownLaws.{ArgumentsTold, InstancesRead, SizesKnown, TruthsKnown};

/// Integers that are known under the numbers of an instance are known under those of a call of it. It does nothing.
pub fn sizes_known()
    ensures { SizesKnown }
{}

/// So are truths of conditions. It does nothing.
pub fn truths_known()
    ensures { TruthsKnown }
{}

/// An instance is read at its place. It does nothing.
pub fn instances_read()
    ensures { InstancesRead }
{}

/// Arguments come in at types that pick no numbers, and have their sizes. It does nothing.
pub fn arguments_told()
    ensures { ArgumentsTold }
{}
