//! Rules of an incremental computation: what a query asks and ends in, the laws of a rule set, what
//! the answer of a key is, and the slow evaluator, which keeps nothing between calls.
//!
//! The definitions are in `specs/Turns` (rule sets), `specs/Relations` (chains and rings),
//! `specs/Value` (the answer of a key), `specs/Laws` and `specs/Embedding` (a query as one of a rule
//! set). Modules: `turn` (turns and answers), `query` (one query), `embed` (a query as one of a sum),
//! `rules` (a rule set and its laws), `shared` (values that copies share), `answers` (copies and
//! equality of answers), `scratch` (the evaluator) over `answer_table`, `lists` (a push that answers
//! `Memory`), `laws` (laws of answers), `sums` (the example: a sum of two queries).
#![tactic(auto)]

mod answer_table;
mod answers;
mod code;
mod embed;
mod laws;
mod lists;
mod query;
mod rules;
mod scratch;
mod shared;
mod sums;
mod turn;

pub use answers::{copy_answer, is_same_key, same_answer};
pub use code::{code_with, text_code};
pub use embed::{EmbeddedIn, Sum, advance_of, start_of};
pub use laws::{cycle_passes_on, cycle_waits_round, keys_that_wait_round, lists_of_std, one_value};
pub use lists::push;
pub use pq_names::Text;
pub use query::Query;
pub use rules::Rules;
pub use scratch::{from_scratch, input_answer};
pub use shared::Shared;
pub use sums::{Sums, SumsKey, SumsPart, SumsValue};
pub use turn::{Answer, Memory, Ring, Turn};
