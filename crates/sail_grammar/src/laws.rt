ghost use Rattle.std.specs.Prelude.{◌≡◌, ℕ, List};
ghost use Rattle.sail_base.specs.declared.place.Place.{Place};
ghost use Rattle.sail_syntax.specs.declared.definitions.Def.{Def};
ghost use Rattle.sail_grammar.specs.declared.error.ParseError.{ParseError};
ghost use Rattle.sail_grammar.specs.Symbol.{Sign};
ghost use Rattle.sail_grammar.specs.RowName.{Definitions};
ghost use Rattle.sail_grammar.specs.Test.{IsClear};
ghost use Rattle.sail_grammar.specs.Table.{rule};
ghost use Rattle.sail_grammar.specs.Sets.{grammar};
ghost use Rattle.sail_grammar.specs.Unfit.{IsFirstUnfit};
ghost use Rattle.sail_grammar.specs.Model.{IsModel, IsRefused};

/// A law: with one token in hand every choice of the grammar is clear. So tokens are at most one
/// model, and have at most one first unfit token; a model isn't refused.
pub fn one_answer()
    ensures clear { IsClear grammar }
    ensures model { (ss : List Sign) (a b : List Def) → IsModel ss a → IsModel ss b → a ≡ b }
    ensures unfit { (ss : List Sign) (k n : ℕ) → IsFirstUnfit rule Definitions ss k → IsFirstUnfit rule Definitions ss n → k ≡ n }
    ensures apart { (ss : List Sign) (a : List Def) (end : Place) (e : ParseError) → IsModel ss a → IsRefused ss end e → ⊥ }
{}
