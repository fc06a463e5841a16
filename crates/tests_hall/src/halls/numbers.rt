//! What each client is told: the numbers of its requests, revisions and their marks, and its own
//! replies.
use crate::halls::check_both;

// The numbers of requests are counted client by client, and a revision that an edit makes is that
// of later replies.
#[test]
fn numbers_and_revisions(rt: HostRuntime) {
    check_both(
        &rt,
        33,
        "\
        edit 0 a.proto=x => 0\n\
        ask 1 a.proto => 0\n\
        ask 0 a.proto => 0\n\
        edit 1 b.proto=y => 1\n\
        ask 0 b.proto => 1\n\
        ask 1 b.proto => 1\n\
        carry 0 - => edited 1\n\
        carry 1 - => accepted 0\n\
        take 1 - => 0 at 1 answered\n\
        carry 1 - => edited 2\n\
        carry 0 - => accepted 0\n\
        carry 1 - => accepted 1\n\
        carry 0 - => accepted 1\n\
        takes 0 2 => 0 at 2 answered to 1\n\
        take 1 - => 1 at 2 answered\n\
        withdraw 0 b.proto => 2\n\
        ask 0 b.proto => 2\n\
        carry 0 - => withdrew none\n\
        carry 0 - => accepted 2\n\
        take 0 - => 2 at 2 answered\n\
        edit 2 c.proto~9:0-9:0 x => 0\n\
        carry 2 - => the range is bad\n\
        edit 0 c.proto=z => 3\n\
        ask 0 c.proto => 3\n\
        ask 1 c.proto => 2\n\
        carry 0 - => edited 3\n\
        carry 1 - => accepted 2\n\
        carry 0 - => accepted 3\n\
        take 1 - => 2 at 3 answered\n\
        take 0 - => 3 at 3 answered\n\
        ask 1 c.proto => 3\n\
        carry 1 - => accepted 3\n\
        take 1 - => 3 at 3 answered",
    );
}

// Each client takes the replies to its own requests: two ask for the same files with labels of
// their own.
#[test]
fn labels_of_each_client(rt: HostRuntime) {
    check_both(
        &rt,
        16,
        "\
        edit 0 a.proto=syntax = \"proto3\"; message A { int32 x = 1; } => 0\n\
        edit 1 b.proto=syntax = \"proto3\"; message B { int32 x = 1; } => 0\n\
        carry 0 - => edited 1\n\
        carry 1 - => edited 2\n\
        call 0 left a.proto => 0\n\
        call 1 right a.proto => 0\n\
        call 1 down b.proto => 1\n\
        call 0 up b.proto => 1\n\
        carry 1 - => accepted 0\n\
        carry 0 - => accepted 0\n\
        carry 0 - => accepted 1\n\
        carry 1 - => accepted 1\n\
        text 0 - => {\"id\":\"left\",\"jsonrpc\":\"2.0\",\"result\":{\"items\":[],\"kind\":\"full\",\"resultId\":\"2\"}}\n\
        text 1 - => {\"id\":\"right\",\"jsonrpc\":\"2.0\",\"result\":{\"items\":[],\"kind\":\"full\",\"resultId\":\"2\"}}\n\
        text 1 - => {\"id\":\"down\",\"jsonrpc\":\"2.0\",\"result\":{\"items\":[],\"kind\":\"full\",\"resultId\":\"2\"}}\n\
        text 0 - => {\"id\":\"up\",\"jsonrpc\":\"2.0\",\"result\":{\"items\":[],\"kind\":\"full\",\"resultId\":\"2\"}}",
    );
}

// Each revision that was made keeps its mark after later edits, refused ones and a turn.
#[test]
fn marks_of_earlier_revisions(rt: HostRuntime) {
    check_both(
        &rt,
        27,
        "\
        mark 0 => yes\n\
        edit 0 a.proto=x => 0\n\
        edit 1 b.proto=y => 0\n\
        carry 0 - => edited 1\n\
        carry 1 - => edited 2\n\
        mark 0 => yes\n\
        mark 1 => yes\n\
        mark 2 => yes\n\
        mark 3 => none\n\
        edit 2 c.proto~9:0-9:0 x => 0\n\
        carry 2 - => the range is bad\n\
        mark 2 => yes\n\
        mark 3 => none\n\
        edit 0 a.proto=z => 0\n\
        carry 0 - => edited 3\n\
        mark 1 => yes\n\
        mark 3 => yes\n\
        mark 4 => none\n\
        edits 0 1020 => edited 1023\n\
        mark 1024 => none\n\
        edits 0 1 => edited 1024\n\
        mark 0 => yes\n\
        mark 1 => yes\n\
        mark 3 => yes\n\
        mark 1023 => yes\n\
        mark 1024 => yes\n\
        mark 1025 => none",
    );
}
