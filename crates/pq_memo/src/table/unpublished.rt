//! What comes back from `publish` and `publish_ring` if an allocation fails.

use crate::table::member::Member;
use pq_rules::{Answer, Shared};

/// What was handed to `publish`, after an allocation failure.
#[derive(Drop)]
pub struct Unpublished<K, V> {
    pub key: K,
    pub answer: Shared<Answer<K, V>>,
    pub reads: Vec<K>,
}

/// What was handed to `publish_ring`, after an allocation failure.
#[derive(Drop)]
pub struct UnpublishedRing<K> {
    pub members: Vec<Member<K>>,
}
