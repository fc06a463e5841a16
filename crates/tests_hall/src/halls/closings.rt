//! Halls and clients that end, and runs that a turn ends: who gets a reply, and who goes on.
use crate::halls::{check_both, check_calls};

// A hall that is shut ends its workers. Requests are carried still, and what was put can be taken.
#[test]
fn shut_at_rest(rt: HostRuntime) {
    check_both(
        &rt,
        11,
        "\
        ask 0 a.proto => 0\n\
        carry 0 - => accepted 0\n\
        take 0 - => 0 at 0 answered\n\
        say 1 {\"id\":1,\"jsonrpc\":\"2.0\",\"method\":\"initialize\",\"params\":{}} => 0\n\
        carry 1 - => accepted 0\n\
        shut 0 => shut\n\
        left 0 => yes\n\
        take 1 - => 0 at 0 plain\n\
        ask 0 a.proto => 1\n\
        carry 0 - => accepted 1\n\
        shut 0 => shut",
    );
}

// A carry that waits for room ends where the hall is shut, and its client is closed. The worker
// that is held leaves once the gate opens.
#[test]
fn shut_with_a_full_window(rt: HostRuntime) {
    check_both(
        &rt,
        16,
        "\
        edit 0 held.proto=x => 0\n\
        carry 0 - => edited 1\n\
        ask 0 held.proto => 0\n\
        carry 0 - => accepted 0\n\
        held 0 => yes\n\
        asks 0 32 a.proto => 32\n\
        carries 0 31 => accepted 31\n\
        begin 0 - => begun\n\
        early 0 => not yet\n\
        shut 0 => shut\n\
        over 0 - => the client was closed\n\
        free 0 => in time\n\
        left 0 => yes\n\
        take 0 - => ended\n\
        ask 1 a.proto => 0\n\
        carry 1 - => accepted 0",
    );
}

// A client is closed while its work is held: nothing more is put for it, and the other client,
// which waits for the same key, goes on.
#[test]
fn closed_at_work(rt: HostRuntime) {
    check_both(
        &rt,
        21,
        "\
        edit 0 held.proto=x => 0\n\
        carry 0 - => edited 1\n\
        say 0 {\"id\":1,\"jsonrpc\":\"2.0\",\"method\":\"initialize\",\"params\":{}} => 0\n\
        carry 0 - => accepted 0\n\
        asks 0 2 held.proto => 2\n\
        carry 0 - => accepted 1\n\
        held 0 => yes\n\
        carry 0 - => accepted 2\n\
        ask 1 held.proto => 0\n\
        carry 1 - => accepted 0\n\
        close 0 - => closed\n\
        free 0 => in time\n\
        take 1 - => 0 at 1 answered\n\
        take 0 - => 0 at 1 plain\n\
        take 0 - => ended\n\
        take 0 - => ended\n\
        ask 0 a.proto => 3\n\
        carry 0 - => the client was closed\n\
        ask 1 a.proto => 1\n\
        carry 1 - => accepted 1\n\
        take 1 - => 1 at 1 answered",
    );
}

// A carry that waits for room ends where its client is closed.
#[test]
fn closed_with_a_full_window(rt: HostRuntime) {
    check_both(
        &rt,
        16,
        "\
        edit 0 held.proto=x => 0\n\
        carry 0 - => edited 1\n\
        ask 0 held.proto => 0\n\
        carry 0 - => accepted 0\n\
        held 0 => yes\n\
        asks 0 32 a.proto => 32\n\
        carries 0 31 => accepted 31\n\
        begin 0 - => begun\n\
        early 0 => not yet\n\
        close 0 - => closed\n\
        over 0 - => the client was closed\n\
        ask 1 held.proto => 0\n\
        carry 1 - => accepted 0\n\
        free 0 => in time\n\
        take 1 - => 0 at 1 answered\n\
        take 0 - => ended",
    );
}

// A client whose taking end is gone is closed when a reply to it is put, and it alone.
#[test]
fn nobody_takes(rt: HostRuntime) {
    check_both(
        &rt,
        8,
        "\
        deaf 0 - => dropped\n\
        say 0 {\"id\":1,\"jsonrpc\":\"2.0\",\"method\":\"initialize\",\"params\":{}} => 0\n\
        carry 0 - => accepted 0\n\
        ask 0 a.proto => 1\n\
        carry 0 - => the client was closed\n\
        ask 1 a.proto => 0\n\
        carry 1 - => accepted 0\n\
        take 1 - => 0 at 0 answered",
    );
}

// A client that joins after another one was closed takes its place. The reply to the other one,
// whose work is held, is not put for it, and closing the other one again changes nothing.
#[test]
fn a_place_taken_again(rt: HostRuntime) {
    check_both(
        &rt,
        22,
        "\
        edit 0 held.proto=x => 0\n\
        carry 0 - => edited 1\n\
        call 0 old held.proto => 0\n\
        carry 0 - => accepted 0\n\
        held 0 => yes\n\
        again 0 - => joined\n\
        call 0 new held.proto => 0\n\
        carry 0 - => accepted 0\n\
        free 0 => in time\n\
        take 0 - => 0 at 1 answered\n\
        asks 0 2 a.proto => 2\n\
        carries 0 2 => accepted 2\n\
        takes 0 2 => 1 at 1 answered to 2\n\
        crowd 70 => 61\n\
        crowd 70 => 61\n\
        asks 0 2 a.proto => 4\n\
        carries 0 2 => accepted 4\n\
        takes 0 2 => 3 at 1 answered to 4\n\
        close 0 - => closed\n\
        crowd 70 => 62\n\
        again 0 - => joined\n\
        crowd 70 => 61",
    );
}

// A turn ends the runs of two clients, one whose work is held and one that waits for its key, and
// the porter of a third one delivers both replies.
#[test]
fn runs_turned(rt: HostRuntime) {
    check_calls(
        &rt,
        18,
        2,
        "\
        edits 1 1022 => edited 1022\n\
        edit 1 held.proto=x => 0\n\
        carry 1 - => edited 1023\n\
        ask 0 held.proto => 0\n\
        carry 0 - => accepted 0\n\
        held 0 => yes\n\
        asks 2 2 held.proto => 1\n\
        carries 2 2 => accepted 1\n\
        ask 1 b.proto => 0\n\
        carry 1 - => accepted 0\n\
        take 1 - => 0 at 1023 answered\n\
        edits 1 1 => edited 1024\n\
        take 0 - => 0 at 1024 cancelled\n\
        takes 2 2 => 0 at 1024 cancelled to 1\n\
        free 0 => in time\n\
        ask 2 held.proto => 2\n\
        carry 2 - => accepted 2\n\
        take 2 - => 2 at 1024 answered",
    );
}

// A worker that is held while the hall is shut leaves with its work: no reply is put.
#[test]
fn shut_at_work(rt: HostRuntime) {
    check_both(
        &rt,
        10,
        "\
        edit 0 held.proto=x => 0\n\
        carry 0 - => edited 1\n\
        ask 0 held.proto => 0\n\
        carry 0 - => accepted 0\n\
        held 0 => yes\n\
        shut 0 => shut\n\
        free 0 => in time\n\
        left 0 => yes\n\
        close 0 - => closed\n\
        take 0 - => ended",
    );
}
