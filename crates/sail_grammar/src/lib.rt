//! The grammar of models.
#![tactic(auto)]

mod error;
mod joining;
mod laws;
mod lexeme;
mod literals;
mod mode;
mod value;
mod word;

pub use error::{ParseError, Read, ReadError};
pub use joining::join;
pub use laws::one_answer;
pub use lexeme::Lexeme;
pub use literals::literal;
pub use mode::Mode;
pub use value::{name, number, place};
pub use word::{
    accept, accept_any, accept_identifier, accept_kind_name, accept_number, accept_two, expect,
    expect_any, expect_identifier, expect_kind_name, expect_number, expect_two, sees, sees_any,
    sees_identifier, sees_number, sees_two,
};
