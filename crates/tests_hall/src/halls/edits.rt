//! Edits that are refused, and edits by lists of changes.
use crate::halls::check_calls;
use std::process::Abort;
use std::sync::Wait;
use std::thread::Threads;
use std::time::Clock;

// The revision at the start has a mark, and the next one has one once an edit has made it. A refused
// edit makes none, and closes its client alone.
#[test]
fn marks_and_refused_edits(rt: HostRuntime) {
    check_calls(
        &rt,
        16,
        1,
        "\
        mark 0 => yes\n\
        mark 1 => none\n\
        edit 0 a.proto=x => 0\n\
        carry 0 - => edited 1\n\
        mark 1 => yes\n\
        mark 2 => none\n\
        edit 0 a.proto=1048577*x => 0\n\
        ask 0 a.proto => 0\n\
        carry 0 - => the edit was refused: the text is too long\n\
        mark 2 => none\n\
        take 0 - => ended\n\
        carry 0 - => the client was closed\n\
        ask 1 b.proto => 0\n\
        carry 1 - => accepted 0\n\
        take 1 - => 0 at 1 answered\n\
        mark 1 => yes",
    );
}

/// Edits by lists of changes, call by call. A list that is refused closes its client alone: the request
/// after it is not carried, and the replies to the other client stand.
const LISTS: &str = r#"edit 0 a.proto=syntax = "proto3"; message M { T x = 1; } => 0
edit 0 a.proto~LIST => 0
ask 0 a.proto => 0
ask 1 a.proto => 0
carry 0 - => edited 1
carry 0 - => edited 2
carry 0 - => accepted 0
carry 1 - => accepted 0
text 0 - => {"id":"a.proto","jsonrpc":"2.0","result":{"items":[{"code":"P150","message":"type \"BAAAAAAAAAAAAAAAAAAT\" is not found","range":{"end":{"character":20,"line":1},"start":{"character":0,"line":1}},"severity":1,"source":"proto"}],"kind":"full","resultId":"2"}}
edit 0 a.proto~LIST | 9:0-9:0 x => 1
ask 0 a.proto => 1
mark 2 => yes
carry 0 - => the range is bad
mark 3 => none
carry 0 - => the client was closed
take 0 - => ended
take 1 - => 0 at 2 answered
edit 1 a.proto~LIST => 1
ask 1 a.proto => 1
carry 1 - => edited 3
carry 1 - => accepted 1
take 1 - => 1 at 3 answered
edit 1 b.proto~LIST => 2
carry 1 - => the range is bad"#;

/// Makes the calls of `LISTS` with the list `list`.
fn check_list<R>(rt: &R, list: &str)
where
    R: Abort + AllocGlobal + Clock + Threads + Wait + Copy + Drop + Send + Sync + 'static,
{
    let rows = LISTS.replace(rt.alloc(), "LIST", list).expect(rt, "memory");
    check_calls(rt, 24, 1, rows.as_str());
}

// A list of 3 changes and one of 20 come to the same. The text of the longer one is made before the lock
// is taken.
#[test]
fn lists_of_changes(rt: HostRuntime) {
    check_list(&rt, "0:31-0:31 18*A | 0:31-0:31 \\n | 1:0-1:0 B");
    check_list(&rt, "18 of 0:31-0:31 A | 0:31-0:31 \\n | 1:0-1:0 B");
}
