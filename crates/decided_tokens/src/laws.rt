//! The law of what tokens are: the function's contract is it, and it does nothing.
ghost use Rattle.decided_tokens.specs.Laws.{TokensAreDecided};

/// Each list of tokens is a model or is refused, wherever it ends.
pub fn tokens_are_decided()
    ensures { TokensAreDecided }
{}
