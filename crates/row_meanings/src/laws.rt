//! Laws of builtins: each function's contract is one, and it does nothing.
ghost use Rattle.row_meanings.specs.Rows.{RowsKeepShapes, RowsGoOn};
ghost use Rattle.row_meanings.specs.Rows.{TextsApplyBuiltins, RowsStand, PrefixesStand, OperatorsStand, OperatorsAreDistinct};

/// On values of the shapes of a member's parameters a builtin gives a value of the shape of its result, where it gives one, and
/// registers keep their shapes.
pub fn rows_keep_shapes()
    ensures { RowsKeepShapes }
{}

/// No builtin is stuck by a wrong shape: on such values it goes on, where what the call owes is true of their numbers and all is
/// within the limits.
pub fn rows_go_on()
    ensures { RowsGoOn }
{}

/// What a builtin's name or an operator means for shapes stands for what it means in the text: on values of its parameters' shapes
/// each member does the same in the core, and members share no values.
pub fn rows_stand()
    ensures applied { TextsApplyBuiltins }
    ensures names { RowsStand }
    ensures prefixes { PrefixesStand }
    ensures operators { OperatorsStand }
    ensures distinct { OperatorsAreDistinct }
{}
