//! Requests of one client, and edits before them.
use crate::halls::{check_both, check_calls};

// Receipts count the requests. After the close what was put can be taken, and then there is no more. A
// post without a porter comes back.
#[test]
fn three_requests(rt: HostRuntime) {
    check_calls(
        &rt,
        15,
        1,
        "\
        ask 0 a.proto => 0\n\
        ask 0 b.proto => 1\n\
        ask 0 a.proto => 2\n\
        carry 0 - => accepted 0\n\
        carry 0 - => accepted 1\n\
        carry 0 - => accepted 2\n\
        take 0 - => 0 at 0 answered\n\
        take 0 - => 1 at 0 answered\n\
        take 0 - => 2 at 0 answered\n\
        ask 0 a.proto => 3\n\
        close 0 - => closed\n\
        take 0 - => ended\n\
        carry 0 - => the client was closed\n\
        drop 0 - => dropped\n\
        ask 0 a.proto => nobody carries the posts",
    );
}

// A request that was posted after an edit is answered at the edit's revision or a later one.
#[test]
fn an_edit_before_a_request(rt: HostRuntime) {
    check_calls(
        &rt,
        15,
        1,
        "\
        edit 0 a.proto=x => 0\n\
        ask 0 a.proto => 0\n\
        carry 0 - => edited 1\n\
        carry 0 - => accepted 0\n\
        take 0 - => 0 at 1 answered\n\
        edit 1 b.proto=y => 0\n\
        edit 0 a.proto=z => 1\n\
        carry 1 - => edited 2\n\
        carry 0 - => edited 3\n\
        ask 0 a.proto => 1\n\
        end 0 - => 2\n\
        carry 0 - => accepted 1\n\
        carry 0 - => ended\n\
        take 0 - => 1 at 3 answered\n\
        mark 3 => yes",
    );
}

// A worker waits when each request is carried, so a porter takes the first steps of its run. The first
// run has work then, which a worker carries out; the second one is answered; the third one is answered
// by the work of another revision.
#[test]
fn first_steps(rt: HostRuntime) {
    check_both(
        &rt,
        13,
        "\
        rest 0 => rested\n\
        ask 0 b.proto => 0\n\
        carry 0 - => accepted 0\n\
        take 0 - => 0 at 0 answered\n\
        rest 0 => rested\n\
        ask 0 b.proto => 1\n\
        carry 0 - => accepted 1\n\
        take 0 - => 1 at 0 answered\n\
        edit 1 b.proto=y => 0\n\
        carry 1 - => edited 1\n\
        ask 0 b.proto => 2\n\
        carry 0 - => accepted 2\n\
        take 0 - => 2 at 1 answered",
    );
}
