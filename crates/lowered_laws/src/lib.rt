//! Laws of lowered code: pieces that numbers choose, the code of forms and of functions, the tables of bodies, and what a module that is made of a
//! core knows.
#![tactic(auto)]

mod code_laws;
mod form_laws;
mod known_laws;
mod table_laws;

pub use code_laws::{cases_run, labels_are_own};
pub use form_laws::{
    bodies_stay, calls_answer, crossings_known, events_answer, functions_own_labels,
    nodes_own_labels, nodes_simulate, openings_answer, openings_own_labels, worlds_stay,
};
pub use known_laws::{arguments_told, instances_read, sizes_known, truths_known};
pub use table_laws::{cases_tell, noted_cases_tell};
