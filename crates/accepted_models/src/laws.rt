//! Laws of texts that the program accepts, and of its answers: each function's contract is one, and it does nothing.
ghost use Rattle.accepted_models.specs.Parsed.{ParsedTextsGoOn, ParsedTextsHaveManners};
ghost use Rattle.accepted_models.specs.Models.{AcceptedModelsMeanText};
ghost use Rattle.accepted_models.specs.Runs.{AcceptedModelsGoOn, AcceptedModelsOpen};
ghost use Rattle.accepted_models.specs.Starts.{FreshStatesAreFit};
ghost use Rattle.accepted_models.specs.Words.{WordsHaveAnAnswer};

use decided_tokens::tokens_are_decided;
use sail_top::words_have_one_answer;
use text_progress::{accepted_texts_go_on, parsed_texts_are_written, parsed_texts_mean_text};

/// The expressions of what is gathered of the definitions that tokens are, are plain where the grammar has plain ones, and each `with` in
/// them has a field.
pub fn parsed_texts_have_manners()
    ensures { ParsedTextsHaveManners }
{}

/// Nothing of the core of a text that is parsed and gathered, that the tables accept, and that isn't refused for its shapes, is stuck but
/// where a condition on sizes or numbers fails.
pub fn parsed_texts_go_on()
    ensures { ParsedTextsGoOn }
{
    accepted_texts_go_on();
}

/// The core of texts that the program accepts does what they do, from the start through every event.
pub fn accepted_models_mean_text()
    ensures { AcceptedModelsMeanText }
{
    parsed_texts_mean_text();
}

/// Nothing of the core of texts that the program accepts is stuck, but where a condition on sizes or numbers fails.
pub fn accepted_models_go_on()
    ensures { AcceptedModelsGoOn }
{
    parsed_texts_are_written();
    parsed_texts_have_manners();
    accepted_texts_go_on();
}

/// The state in which a run of a model begins has each register of each hart at a value of its shape, where the type of each has a zero.
pub fn fresh_states_are_fit()
    ensures { FreshStatesAreFit }
{}

/// The openings of texts that the program accepts come from that state to values of their shapes, or stop.
pub fn accepted_models_open()
    ensures { AcceptedModelsOpen }
{
    accepted_models_go_on();
    fresh_states_are_fit();
}

/// Words have an answer over files that are told; those that run a model where the engine means something by each accepted text, or leaves it.
pub fn words_have_an_answer()
    ensures { WordsHaveAnAnswer }
{
    tokens_are_decided();
    words_have_one_answer();
}
