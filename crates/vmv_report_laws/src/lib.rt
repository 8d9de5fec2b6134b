//! Laws of reviews: what a base and a revision determine has one value, up to the report and its text.
#![tactic(auto)]

mod laws;

pub use laws::{
    a_probe_fails_in_one_way, a_row_has_one_class, baselines_are_unique,
    conditions_suffice_or_none_do, one_thing_is_necessary, one_thing_suffices,
    probes_find_one_list, report_texts_are_unique, reports_are_unique, rows_are_unique,
    sufficient_conditions_are_unique, witnesses_are_unique,
};
