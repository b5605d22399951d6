//! A law of the sizes in payloads of unions: its function's contract is the law, and it does nothing.
#![tactic(auto)]

mod laws;

pub use laws::payloads_hang;
