//! That the bytes of a whole run are those of the source meaning: laws alone.
#![tactic(auto)]

ghost use Rattle.answer_meanings.specs.Laws as spec;

use module_meanings::engines_mean_texts;
use safe_models::fresh_states_belong;

/// What the program answers is what is answered by its texts' own meaning, where the engine doesn't leave the text: the console's bytes and the report
/// of the whole run.
pub fn answers_mean_texts()
    ensures { spec.AnswersMeanTexts }
{
    engines_mean_texts();
    fresh_states_belong();
}

/// So the bytes that are written are those of the texts' own meaning.
pub fn bytes_mean_texts()
    ensures { spec.BytesMeanTexts }
{
    answers_mean_texts();
}
