//! A law of types with a zero: its contract is one, and it does nothing.
ghost use Rattle.shape_declarations.specs.Laws.{ZerosAreTold};

/// Each type that has a value at which a register starts has a zero by `has_zero` too, which asks for no width and no length.
pub fn zeros_are_told()
    ensures { ZerosAreTold }
{}
