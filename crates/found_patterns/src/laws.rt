//! What is found of patterns passes the test of patterns.
ghost use Rattle.found_patterns.specs.Laws.{FoundPatternsStand, NamesAreThere};

/// What is found of a pattern in whose names and shapes no failure is found stands by the test that its law asks of it, where members,
/// constructors and widths stand in what its names mean; and members and constructors that can be named in a world do.
pub fn found_patterns_stand()
    ensures patterns { FoundPatternsStand }
    ensures names { NamesAreThere }
{}
