//! Texts that the program accepts run safely: no part of a run is stuck where instances cover their cores; and their events come to the same by
//! lowered code.
#![tactic(auto)]

mod laws;

pub use laws::{
    accepted_cores_run_safely, accepted_models_run_safely, accepted_openings_fit,
    accepted_texts_fit, accepted_texts_run_safely, clauses_stand, constraints_are_own, events_come,
    events_enter, fitting_texts_stand, found_lists_cover, fresh_states_belong,
    listed_models_run_safely, lowered_events_mean, mappings_are_closed, models_of_texts_stand,
    patterns_of_texts_meant, patterns_of_texts_pass, registers_are_closed, tabled_cores_go,
    tabled_texts_go, tables_are_narrow, tested_lists_cover, tested_models_run_safely,
    tested_models_stand, tested_openings_stand, texts_run_safely, values_stand,
    variables_have_places, ways_of_texts_fall, ways_stand, whole_tables_cover,
};
