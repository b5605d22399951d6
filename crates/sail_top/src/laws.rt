ghost use Rattle.sail_top.specs.laws.OneAnswer.{HaveAnswer, HaveNoOtherAnswer};

/// A law: words have no two answers over files that are told, and they have one where each list of tokens is a model or is refused. Of words that run a model
/// the first is said where the engine means one thing by each text or leaves it, the second where it means something by each accepted text or leaves it.
pub fn words_have_one_answer()
    ensures some { HaveAnswer }
    ensures no_other { HaveNoOtherAnswer }
{}
