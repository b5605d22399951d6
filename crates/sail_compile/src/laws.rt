ghost use Rattle.sail_compile.specs.laws.Holding.{AcceptedHold};

/// A law: where texts are accepted, each assignment that makes the facts of one of their obligations true makes its goal true.
pub fn obligations_of_accepted_texts_hold()
    ensures { AcceptedHold }
{}
