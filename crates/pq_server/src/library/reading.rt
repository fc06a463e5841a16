//! What a reader of folders does after a failure.
use crate::library::failure::{Failure, say};
use crate::library::fault::LibraryFault;
use std::alloc::AllocError;

/// How a reader of folders takes what it cannot read.
pub(crate) trait Reading {
    /// Why the reading ends.
    type Fault: From<AllocError> + Drop;

    /// Goes on after `failure`, or ends. An allocation failure ends it.
    fn after(&self, failure: Failure) -> Result<(), Self::Fault>;
}

/// The reading of a library: the first failure ends it.
#[derive(Clone, Copy, Debug)]
pub(crate) struct Strict;

impl Reading for Strict {
    type Fault = LibraryFault;

    fn after(&self, failure: Failure) -> Result<(), LibraryFault> {
        Err(failure.fault())
    }
}

/// Passes over what is at `path`, where `reading` goes on after `failure`. The failure leaves its
/// line.
pub(crate) fn pass_over<R: Eprint, T: Reading>(
    rt: &R,
    reading: &T,
    path: &str,
    failure: Failure,
) -> Result<(), T::Fault> {
    say(rt, path, &failure);
    reading.after(failure)
}
