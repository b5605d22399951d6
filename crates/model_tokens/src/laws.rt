ghost use Rattle.std.specs.Prelude.{◌≡◌, ℕ, List};
ghost use Rattle.sail_lex.specs.declared.token.LexError.{LexError};
ghost use Rattle.sail_lex.specs.declared.token.Token.{Token as TokenType};
ghost use Rattle.model_tokens.specs.Files.{AreLexed, AreRefused, AreAnswered};

/// A law: texts have exactly one list of tokens each, or exactly one refusal in all, and never both.
pub fn one_answer()
    ensures some { (texts : List (List ℕ)) → AreAnswered 1 0 texts }
    ensures tokens { (texts : List (List ℕ)) (all others : List (List TokenType)) →
        AreLexed 1 0 texts all → AreLexed 1 0 texts others → all ≡ others }
    ensures refusal { (texts : List (List ℕ)) (e f : LexError) →
        AreRefused 1 0 texts e → AreRefused 1 0 texts f → e ≡ f }
    ensures apart { (texts : List (List ℕ)) (all : List (List TokenType)) (e : LexError) →
        AreLexed 1 0 texts all → AreRefused 1 0 texts e → ⊥ }
{}
