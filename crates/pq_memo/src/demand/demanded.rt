//! What a demand answers.

use crate::table::look::Why;
use pq_inputs::Revision;
use pq_rules::{Answer, Shared};

/// A rule that was started: for `key`, at `revision`, because of `why`.
#[derive(Drop)]
pub struct Carried<K> {
    pub key: K,
    pub revision: Revision,
    pub why: Why<K>,
}

/// The answer of a demand, and the rules that were started for it, in order.
#[derive(Drop)]
pub struct Demanded<K, V> {
    pub answer: Shared<Answer<K, V>>,
    pub carried: Vec<Carried<K>>,
}
