//! Laws of what the tables say of a text that they accept: each function's contract is one, and it does nothing.
ghost use Rattle.known_texts.specs.Accepted.{CallablesAreApart, EntryPointsAreNamed, EntryPointsAreTyped, NamesStandOnce};
ghost use Rattle.known_texts.specs.Accepted.{NothingOfItFails, RegistersAreTyped, TypesAreClosed, TypesAreKnown, ValsGiveSignatures};

/// A text that the tables accept has no failure of any kind, and its definitions of types all stand for something.
pub fn nothing_fails()
    ensures nothing { NothingOfItFails }
    ensures types { TypesAreKnown }
{}

/// The type of each register of a text that the tables accept stands for one.
pub fn registers_are_typed()
    ensures { RegistersAreTyped }
{}

/// `step` and `reset` of a text that the tables accept take what an event and the start give them.
pub fn entry_points_are_typed()
    ensures { EntryPointsAreTyped }
{}

/// The names `step` and `reset` of a text that the tables accept are for shapes those of its functions.
pub fn entry_points_are_named()
    ensures { EntryPointsAreNamed }
{}

/// Types of registers, of `exception` and of fields of a text that the tables accept leave nothing open, and a struct's name is that of no
/// other type.
pub fn types_are_closed()
    ensures { TypesAreClosed }
{}

/// A name of a text that the tables accept means a member of an enum where its table of types has one of that name, that one, and no
/// top-level let hides a register.
pub fn names_stand_once()
    ensures { NamesStandOnce }
{}

/// No function, no mapping and no direction of one of a text that the tables accept has the name of a constructor.
pub fn callables_are_apart()
    ensures { CallablesAreApart }
{}

/// Each `val` of a text that the tables accept gives a signature.
pub fn vals_give_signatures()
    ensures { ValsGiveSignatures }
{}
