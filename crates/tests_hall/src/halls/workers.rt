//! What goes on while a worker is held at the gate with the work of a run.
use crate::halls::{check_both, check_calls};

// While a worker is held at the gate with the work of one client, the other client is answered.
#[test]
fn two_workers(rt: HostRuntime) {
    check_calls(
        &rt,
        11,
        2,
        "\
        edit 0 held.proto=x => 0\n\
        edit 1 b.proto=y => 0\n\
        carry 0 - => edited 1\n\
        carry 1 - => edited 2\n\
        ask 0 held.proto => 0\n\
        carry 0 - => accepted 0\n\
        ask 1 b.proto => 0\n\
        carry 1 - => accepted 0\n\
        take 1 - => 0 at 2 answered\n\
        free 0 => in time\n\
        take 0 - => 0 at 2 answered",
    );
}

// A withdrawal ends the run whose work a worker has out, and the reply comes at once. The run of another
// client, which waited for the key of that work, goes on while the worker is held. The result of the
// work comes too late.
#[test]
fn withdrawn_at_work(rt: HostRuntime) {
    check_calls(
        &rt,
        20,
        2,
        "\
        edit 0 held.proto=x => 0\n\
        carry 0 - => edited 1\n\
        ask 0 held.proto => 0\n\
        carry 0 - => accepted 0\n\
        held 0 => yes\n\
        ask 1 held.proto => 0\n\
        carry 1 - => accepted 0\n\
        withdraw 0 b.proto => 1\n\
        carry 0 - => withdrew none\n\
        withdraw 0 held.proto => 1\n\
        carry 0 - => withdrew\n\
        text 0 - => {\"error\":{\"code\":-32800,\"message\":\"request cancelled\"},\"id\":\"held.proto\",\"jsonrpc\":\"2.0\"}\n\
        take 1 - => 0 at 1 answered\n\
        free 0 => in time\n\
        ask 0 held.proto => 1\n\
        carry 0 - => accepted 1\n\
        take 0 - => 1 at 1 answered\n\
        close 0 - => closed\n\
        withdraw 0 held.proto => 2\n\
        carry 0 - => the client was closed",
    );
}

// A turn ends the run of another client while a worker is held with its work, and the porter of the
// edit delivers the reply. A request that waits is answered later.
#[test]
fn turned_at_work(rt: HostRuntime) {
    check_calls(
        &rt,
        17,
        1,
        "\
        edits 0 1022 => edited 1022\n\
        edit 1 held.proto=x => 0\n\
        carry 1 - => edited 1023\n\
        ask 1 held.proto => 0\n\
        carry 1 - => accepted 0\n\
        held 0 => yes\n\
        ask 1 b.proto => 1\n\
        carry 1 - => accepted 1\n\
        edits 0 1 => edited 1024\n\
        text 1 - => {\"error\":{\"code\":-32801,\"data\":{\"seen\":1024,\"started\":1023},\"message\":\"content modified\"},\"id\":\"held.proto\",\"jsonrpc\":\"2.0\"}\n\
        free 0 => in time\n\
        take 1 - => 1 at 1024 answered\n\
        ask 1 held.proto => 2\n\
        carry 1 - => accepted 2\n\
        take 1 - => 2 at 1024 answered\n\
        mark 1024 => yes\n\
        mark 1025 => none",
    );
}

// An edit overtakes the run of another client while its work is held. Its reply comes once the gate
// opens, and a run that needs the same key goes on.
#[test]
fn overtaken_at_work(rt: HostRuntime) {
    check_both(
        &rt,
        15,
        "\
        edit 0 held.proto=x => 0\n\
        carry 0 - => edited 1\n\
        ask 0 held.proto => 0\n\
        carry 0 - => accepted 0\n\
        held 0 => yes\n\
        edit 1 b.proto=y => 0\n\
        carry 1 - => edited 2\n\
        ask 1 held.proto => 0\n\
        carry 1 - => accepted 0\n\
        free 0 => in time\n\
        text 0 - => {\"error\":{\"code\":-32801,\"data\":{\"seen\":2,\"started\":1},\"message\":\"content modified\"},\"id\":\"held.proto\",\"jsonrpc\":\"2.0\"}\n\
        take 1 - => 0 at 2 answered\n\
        ask 0 held.proto => 1\n\
        carry 0 - => accepted 1\n\
        take 0 - => 1 at 2 answered",
    );
}

// A run that waits for a key of another run goes on once that is done, while the other one has work
// again, which is held. So a step of a run wakes a worker that waits.
#[test]
fn woken_by_a_step(rt: HostRuntime) {
    check_calls(
        &rt,
        18,
        2,
        "\
        edit 0 held.proto=syntax = \"proto3\"; => 0\n\
        edit 0 slow.proto=syntax = \"proto3\"; => 0\n\
        edit 0 a.proto=syntax = \"proto3\"; import \"held.proto\"; import \"slow.proto\"; => 0\n\
        carries 0 3 => edited 3\n\
        ask 0 a.proto => 0\n\
        carry 0 - => accepted 0\n\
        held 0 => yes\n\
        ask 1 held.proto => 0\n\
        carry 1 - => accepted 0\n\
        ask 2 b.proto => 0\n\
        carry 2 - => accepted 0\n\
        take 2 - => 0 at 3 answered\n\
        rest 0 => rested\n\
        free 0 => in time\n\
        held 1 => yes\n\
        take 1 - => 0 at 3 answered\n\
        free 1 => in time\n\
        take 0 - => 0 at 3 answered",
    );
}

// An edit overtakes a run that is parked, since another run has out the work that it needs. The run is
// over at once, while that work is held. So an edit wakes a worker that waits.
#[test]
fn woken_by_an_edit(rt: HostRuntime) {
    check_calls(
        &rt,
        16,
        2,
        "\
        edit 0 held.proto=x => 0\n\
        carry 0 - => edited 1\n\
        ask 0 held.proto => 0\n\
        carry 0 - => accepted 0\n\
        held 0 => yes\n\
        ask 1 held.proto => 0\n\
        carry 1 - => accepted 0\n\
        ask 2 b.proto => 0\n\
        carry 2 - => accepted 0\n\
        take 2 - => 0 at 1 answered\n\
        rest 0 => rested\n\
        edit 2 b.proto=y => 1\n\
        carry 2 - => edited 2\n\
        text 1 - => {\"error\":{\"code\":-32801,\"data\":{\"seen\":2,\"started\":1},\"message\":\"content modified\"},\"id\":\"held.proto\",\"jsonrpc\":\"2.0\"}\n\
        free 0 => in time\n\
        text 0 - => {\"error\":{\"code\":-32801,\"data\":{\"seen\":2,\"started\":1},\"message\":\"content modified\"},\"id\":\"held.proto\",\"jsonrpc\":\"2.0\"}",
    );
}
