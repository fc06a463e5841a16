//! What a claim comes to.
use crate::run_id::RunId;

/// What a claim comes to.
#[derive(Drop)]
pub enum Claim<K> {
    /// The run holds the key now.
    Got,
    /// Another run holds the key, and the claiming run waits for it.
    HeldBy(RunId),
    /// A wait for the key would close this ring. Nothing is claimed. Each key waits for the next,
    /// and the least comes first.
    Ring(Vec<K>),
}
