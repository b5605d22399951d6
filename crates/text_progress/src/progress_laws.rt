//! Laws of progress of texts: each function's contract is one, and it does nothing.
ghost use Rattle.text_progress.specs.Laws.{AcceptedTextsGoOn, AcceptedTextsStand, NumbersShapeNothing};

/// A core with the numbers of its nodes has the shape that it has without.
pub fn numbers_shape_nothing()
    ensures { NumbersShapeNothing }
{}

/// The core of a text that the tables accept, and that isn't refused for its shapes, stands by the rules of shapes.
pub fn accepted_texts_stand()
    ensures { AcceptedTextsStand }
{}

/// Nothing of the core of a text that the tables accept, and that isn't refused for its shapes, is stuck but where a condition on sizes or numbers fails.
pub fn accepted_texts_go_on()
    ensures { AcceptedTextsGoOn }
{}
