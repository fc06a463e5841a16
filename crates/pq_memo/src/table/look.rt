//! What `look` answers, and why a rule is started.

/// Why the rule of a key is started.
#[derive(Drop)]
pub enum Why<K> {
    /// The table has no memo of the key.
    Fresh,
    /// The first read of the memo that changed after the memo was verified.
    Changed(K),
    /// The memo's answer is a ring with the key on it, and something below it may have changed.
    Ring,
}

/// The state of a key (the Salsa book, "The red-green algorithm").
#[derive(Drop)]
pub enum Look<'a, K> {
    /// The key is an input, or its memo was verified now.
    Usable,
    /// The memo is right now and can be marked as verified.
    Green,
    /// The first read of the memo that is not up to date. Those before it did not change.
    Walk(&'a K),
    /// The rule has to be started.
    Run(Why<&'a K>),
}
