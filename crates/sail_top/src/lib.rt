//! The top call of `sail-run`: what the program answers to its words, with its files on any shelf and
//! its output to any sink.
//!
//! [`run_words`] reads the words, reads the files or makes a model and a program of a seed, judges the models, and writes how many
//! functions, obligations and instances they have, or each obligation with its certificate, or judges the image, runs the model and
//! writes the report; or it writes the line of the refusal. Its contract speaks of the definitions in `specs/`: the files in the order of reading, the run and the answer, which
//! join the definitions of the crates below: the command line, the grammar of a model's text, its tables and shapes, its obligations
//! and their certificates, its instances, the image, the start and the events, and the report.
#![tactic(auto)]

mod accepted;
mod answer;
mod laws;
mod lines;
mod reading;
mod run;
mod seeded;
mod status;
mod top;
mod wanted;

pub use laws::words_have_one_answer;
pub use sail_base::{ElfRefusal, Refusal};
pub use sail_compile::Jib;
pub use status::Status;
pub use top::run_words;
