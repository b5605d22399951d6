//! What is so of texts that the program accepts, with no premise on their trees, and that words have an answer.
#![tactic(auto)]

mod laws;

pub use laws::{
    accepted_models_go_on, accepted_models_mean_text, accepted_models_open, fresh_states_are_fit,
    parsed_texts_go_on, parsed_texts_have_manners, words_have_an_answer,
};
