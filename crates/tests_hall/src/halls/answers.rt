//! What a hall answers, as text.
use pq_core::{Outcome, Reply, Stamp};
use pq_hall::{HallFault, Moved};
use test_support::Page;

/// Writes what became of a post.
pub(crate) fn add_moved<K: Drop>(page: &mut Page, moved: Moved<K>) {
    match moved {
        Moved::Accepted(number) => {
            page.add("accepted ");
            page.wide(number.number());
        }
        Moved::Edited(revision) => {
            page.add("edited ");
            page.wide(revision.number());
        }
        Moved::Withdrawn(some) => page.add(if some { "withdrew" } else { "withdrew none" }),
        Moved::Ended => page.add("ended"),
        Moved::Later(_) => page.add("later"),
    }
}

/// Writes why a post was not carried.
pub(crate) fn add_fault(page: &mut Page, fault: HallFault) {
    match format!(in page.alloc; "{fault}") {
        Ok(text) => page.add(text.as_str()),
        Err(_) => page.cut(),
    }
}

/// Writes a reply as `NUMBER at REVISION OUTCOME`.
pub(crate) fn add_reply<K, V, M: Stamp>(page: &mut Page, reply: &Reply<K, V, M>) {
    page.wide(reply.number().number());
    page.add(" at ");
    page.wide(reply.revision().number());
    page.add(match reply.outcome() {
        Outcome::Answered(_, _) => " answered",
        Outcome::Plain => " plain",
        Outcome::Cancelled { .. } => " cancelled",
        Outcome::Starved => " starved",
        Outcome::Withdrawn => " withdrawn",
    });
}
