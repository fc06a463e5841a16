//! What the tests of several crates share, and what needs no abort: texts on pages, a generator of
//! numbers, words of rows, and sums whose starts are counted.
//!
//! Crates of tests alone stand on it; no crate of the product does. What asserts is the module
//! `checks` of each such crate, since only code of tests may abort.
//!
//! Modules: `page` (texts piece by piece), `random`, `words` (what a word of a row names), `changes`
//! (lists of changes of texts), `counted` (a rule set that counts its starts), `sums` (keys and answers
//! of sums as text).
#![tactic(auto)]

mod changes;
mod counted;
mod page;
mod random;
mod sums;
mod words;

pub use changes::{changes_of, text_of_word};
pub use counted::Counted;
pub use page::{Page, page_of};
pub use random::Random;
pub use sums::{add_answer, add_key, add_sum, add_value, sums_key};
pub use words::{durability_of, is_sendable, is_set, joined, lexical_name};
