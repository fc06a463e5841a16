//! The state of a memo, by places in its reads.

/// What a pass over reads ends with: `All` if all are up to date and unchanged, or the place of the
/// first that is not up to date (`Stale`), or that changed (`Newer`).
#[derive(Clone, Copy)]
pub(crate) enum Passed {
    All,
    Stale(usize),
    Newer(usize),
}

/// The state of a memo. `Verified`: it was verified now. `Valid`: it is right now. `Behind`: the
/// place of the first read that is not up to date. `Outdated`: the place of the first read that
/// changed. `Cyclic`: its key is on the ring that is its answer, and durability does not confirm
/// it.
#[derive(Clone, Copy)]
pub(crate) enum State {
    Verified,
    Valid,
    Behind(usize),
    Outdated(usize),
    Cyclic,
}
