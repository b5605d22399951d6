//! The tokens of a model's files, one file after another.
//!
//! Places count the files from 1, and all files together have at most 1,000,000 tokens. What the tokens of a
//! list of texts are, and when it is refused, stands in `specs/Files`.
#![tactic(auto)]

mod files;
mod laws;

pub use files::lex_files;
pub use laws::one_answer;
