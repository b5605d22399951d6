//! Laws of clauses, of functions and of mappings: each function's contract is one, and it does nothing.
ghost use Rattle.sail_calls.specs.Bodies.{ClausesFollow};
ghost use Rattle.sail_calls.specs.ArmLaws.{AllCount, ArmsAreSound};

/// An arm is sound where its patterns match beside their walk and its body is fine.
pub fn arms_are_sound()
    ensures { ArmsAreSound }
{}

/// Clauses count variables on where their bodies do.
pub fn clauses_count()
    ensures { AllCount }
{}

/// What calls take of a function's clauses holds where the nodes of its bodies are fine, bodies stand right and patterns match beside their walks.
pub fn clauses_follow()
    ensures { ClausesFollow }
{}
