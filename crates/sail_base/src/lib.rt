//! What every other crate of `sail-run` stands on: places in a text, texts, lists and boxes, words
//! of bits, and small plain types.
#![tactic(auto)]

mod boxed;
mod elf_refusal;
mod items;
mod kind;
mod operators;
mod place;
mod print;
mod refusal;
mod sums;
mod text;
mod word;

pub use boxed::Boxed;
pub use elf_refusal::ElfRefusal;
pub use items::Items;
pub use kind::Kind;
pub use operators::{Operator, Prefix, operator_number};
pub use place::Place;
pub use print::{dec_text, hex_text};
pub use refusal::Refusal;
pub use sums::{gcd, sum};
pub use text::Text;
pub use word::Word;
