//! Laws of the meaning: each function's contract is one, and it does nothing.
ghost use Rattle.sail_meaning.specs.Sentences.{FirstMemberIsTaken, OthersArePassedOver, AssignmentsRead, GuardsComeLater, LeftDecides};
ghost use Rattle.sail_meaning.specs.Sentences.{NoTurnNoTick, TicksFirst, MeasuresFall, LastIsNearest, CountsDown, BlocksAreNests, ThrowsTakeNothingBack};
ghost use Rattle.sail_meaning.specs.Sentences.{NoClauseInAPattern, NoClauseInACall, ConversionsAreNoTicks, VarsAreReadAnew};
ghost use Rattle.sail_meaning.specs.Sentences.{FirstClauseIsTaken, OtherClausesArePassedOver, NoClauseStops, FirstCrossingIsTaken};
ghost use Rattle.sail_meaning.specs.Sentences.{NumbersComeFromWidths, HighBitsFirst, RestIsTaken};
ghost use Rattle.sail_meaning.specs.Sentences.{OpeningsInOrder, InitialValuesAreAllHarts, LetsStop};

/// An overload means the first of its members that the values of the arguments fit.
pub fn members_in_order()
    ensures first { FirstMemberIsTaken }
    ensures others { OthersArePassedOver }
{}

/// In `a[i] = e` the index comes first, then the new value, and then a is read and written. Where a pattern doesn't match, its
/// guard and body aren't looked at. Where the left side of `&` is false, the right side isn't looked at. A `while` whose condition
/// is false takes no tick. A call without a tick left stops the run before its measure is looked at.
pub fn orders_of_evaluation()
    ensures assignments { AssignmentsRead }
    ensures guards { GuardsComeLater }
    ensures operands { LeftDecides }
    ensures turns { NoTurnNoTick }
    ensures ticks { TicksFirst }
{}

/// A call whose measure isn't below that of the nearest active call of its cycle stops the run at the call, and the nearest is the
/// one that began last.
pub fn measures_fall()
    ensures fall { MeasuresFall }
    ensures nearest { LastIsNearest }
{}

/// With `dec` a `foreach` counts down.
pub fn foreach_counts_down()
    ensures { CountsDown }
{}

/// A `let` of a block means what a `let .. in` over the rest of the block means.
pub fn blocks_are_nests()
    ensures { BlocksAreNests }
{}

/// A throw takes nothing back: the cases of a `try` go on from where it was thrown.
pub fn throws_take_nothing_back()
    ensures { ThrowsTakeNothingBack }
{}

/// Where no clause of a mapping fits, a pattern that calls it doesn't match, and a call of it stops the run at the call.
pub fn mappings_that_fit_nothing()
    ensures patterns { NoClauseInAPattern }
    ensures calls { NoClauseInACall }
{}

/// A mapping in a pattern is no tick.
pub fn conversions_are_no_ticks()
    ensures { ConversionsAreNoTicks }
{}

/// An assigned `var` is read anew: a name reads what was last written to it.
pub fn vars_are_read_anew()
    ensures { VarsAreReadAnew }
{}

/// Of the clauses of a function, and of a mapping, the first that fits is taken; where none of a function's fits, the run stops at
/// the word that opens it.
pub fn clauses_in_order()
    ensures first { FirstClauseIsTaken }
    ensures others { OtherClausesArePassedOver }
    ensures none { NoClauseStops }
    ensures mappings { FirstCrossingIsTaken }
{}

/// A type variable stands for the width of the argument at its place.
pub fn numbers_come_from_arguments()
    ensures { NumbersComeFromWidths }
{}

/// A word that `p @ q` is matched against is cut into the widths of the parts, the highest bits to the left, and a part of unknown
/// width takes what the others leave.
pub fn words_are_cut()
    ensures known { HighBitsFirst }
    ensures rest { RestIsTaken }
{}

/// A run starts with the lets and initial values in the order of the text; an initial value is that of every hart, and a `let` whose
/// pattern doesn't match stops the start there.
pub fn starts_in_order()
    ensures order { OpeningsInOrder }
    ensures registers { InitialValuesAreAllHarts }
    ensures lets { LetsStop }
{}
