ghost use Rattle.std.specs.Prelude.{◌≡◌, List, None, true};
ghost use Rattle.std.specs.List.{list_all};
ghost use Rattle.sail_syntax.specs.declared.definitions.Def.{Def as Definition};
ghost use Rattle.scattered.specs.Gathered.{gathered};
ghost use Rattle.scattered.specs.Refused.{refusal};
ghost use Rattle.scattered.specs.laws.Whole.{is_whole};

/// A law: in a gathered text nothing is written in parts, and a text in which nothing is written in parts is
/// gathered as it is. So gathering a text twice gives what gathering it once does.
pub fn gathered_texts_are_whole()
    ensures whole { (text : List Definition) → list_all is_whole (gathered text) ≡ true }
    ensures same { (text : List Definition) → list_all is_whole text ≡ true → gathered text ≡ text }
    ensures accepted { (text : List Definition) → list_all is_whole text ≡ true → refusal text ≡ None }
{}
