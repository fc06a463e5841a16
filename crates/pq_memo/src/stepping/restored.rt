//! Frames that come back.
ghost use Rattle.std.specs.Prelude.{◌≡◌, ◌<◌, ◌++◌, ◌∷◌, [], List, length};
ghost use Rattle.pq_memo.specs.aux.Frames.{WaitsAt};

use crate::stepping::frame::{Frame, Stage};
use crate::table::unpublished::Unpublished;

/// The frame of a key that could not be published: it waits, at `part`, for the last of the reads.
pub(crate) fn restored<K: Drop, P: Drop, V: Drop>(back: Unpublished<K, V>, part: P) -> Frame<K, P>
    requires read { 0 < length back.reads.items }
    ensures key { result.key ≡ back.key }
    ensures stage { (front : List K) (q : K) → back.reads.items ≡ front ++ q ∷ [] → WaitsAt result.stage part q front }
{
    let Unpublished { key, reads, .. } = back;
    let mut reads = reads;
    match reads.pop() {
        Some(asked) => {
            let stage = Stage::Waiting(part, asked, reads);
            Frame { key, stage }
        }
        None => unreachable!(),
    }
}
