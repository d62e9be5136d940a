//! What follows from the definitions, and no contract of another crate says: of the run of a program that meets the
//! series rule, of the rule itself, and of texts.
#![tactic(auto)]

mod laws;
mod texts;

pub use laws::{
    every_look_finds_its_name, outputs_are_written, plain_way_is_the_run, rule_is_free_of_order,
};
pub use texts::{
    a_text_is_what_its_quotes_hold, blanks_and_comments_are_skipped, texts_stay_distinct,
};
