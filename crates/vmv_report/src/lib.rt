//! Reviews: what is told of a revision by what is necessary for its base to be safe, as a report and as its text.
#![tactic(auto)]

mod ahead;
mod class;
mod conds;
mod entries;
mod finding;
mod judging;
mod kept;
mod laws;
mod proving;
mod report;
mod row;
mod row_texts;
mod rows;
mod texts;
mod told;

pub use class::Class;
pub use conds::{is_whole, is_zero_left_out, push_held};
pub use finding::baseline;
pub use judging::{judge, judge_by};
pub use kept::Baseline;
pub use laws::{
    correct_revisions_are_safe_within_the_necessary, correct_verdicts_hold,
    only_correct_reports_say_so, regressing_reports_show_it, vacuous_verdicts_hold,
};
pub use report::{Report, Witnesses};
pub use row::{ReportRow, ReportRows};
pub use row_texts::{class_count, class_word, counts_line, is_class, verdict_line};
pub use texts::{baseline_text, text_of};
pub use vmv_crew::{Open, Turnstile};
