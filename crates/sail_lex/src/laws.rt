ghost use Rattle.std.specs.Prelude.{◌≡◌, ◌<◌, ℕ, List, length};
ghost use Rattle.sail_lex.specs.declared.token.Token.{Token as TokenType};
ghost use Rattle.sail_lex.specs.declared.kind.TokenKind.{TokenKind};
ghost use Rattle.sail_lex.specs.declared.front.Fault.TheVariants.{BadByte};
ghost use Rattle.sail_lex.specs.declared.front.Front.TheVariants.{Token, Skip, Comment, Refused};
ghost use Rattle.sail_lex.specs.Front.{front};
ghost use Rattle.sail_lex.specs.Spellings.{IsLongest, IsLonger, BeginsNone};
ghost use Rattle.sail_lex.specs.declared.token.LexError.{LexError};
ghost use Rattle.sail_lex.specs.Tokens.{Lexes, Refuses, IsAnswered};

/// A law: a source has exactly one list of tokens, or exactly one refusal, and never both.
pub fn one_answer()
    ensures some { (file before : ℕ) (source : List ℕ) → IsAnswered file source 0 before }
    ensures tokens { (file before : ℕ) (source : List ℕ) (ts us : List TokenType) →
        Lexes file source 0 before ts → Lexes file source 0 before us → ts ≡ us }
    ensures refusal { (file before : ℕ) (source : List ℕ) (e f : LexError) →
        Refuses file source 0 before e → Refuses file source 0 before f → e ≡ f }
    ensures apart { (file before : ℕ) (source : List ℕ) (ts : List TokenType) (e : LexError) →
        Lexes file source 0 before ts → Refuses file source 0 before e → ⊥ }
{}

/// A law: the token that a text begins with is spelled by its first bytes, and no more of them are a
/// spelling of any kind.
pub fn longest_spelling()
    ensures { (text : List ℕ) (kind : TokenKind) (n : ℕ) →
        0 < length text → front text ≡ Token kind n → IsLongest text kind n }
{}

/// A law: what is passed over where a text begins is longer than any spelling there; where a comment
/// or a byte that begins no token stands there, no first bytes are a spelling.
pub fn no_spelling()
    ensures passed { (text : List ℕ) (n : ℕ) →
        0 < length text → front text ≡ Skip n → IsLonger text n }
    ensures comment { (text : List ℕ) → 0 < length text → front text ≡ Comment → BeginsNone text }
    ensures bad_byte { (text : List ℕ) (byte : ℕ) →
        0 < length text → front text ≡ Refused (BadByte byte) 0 → BeginsNone text }
{}
