//! Clients that owe many replies, and runs that wait: nothing is lost, and no client is closed.
use crate::halls::{check_both, check_calls};

// A client that takes nothing has 64 requests carried: 32 replies are put, and 32 wait for room.
// The next one waits until a reply is taken, and one more waits again. The replies come in their
// order, and the client goes on.
#[test]
fn replies_taken_late(rt: HostRuntime) {
    check_both(
        &rt,
        28,
        "\
        asks 0 32 a.proto => 31\n\
        carries 0 32 => accepted 31\n\
        asks 0 32 b.proto => 63\n\
        carries 0 32 => accepted 63\n\
        ask 1 a.proto => 0\n\
        carry 1 - => accepted 0\n\
        take 1 - => 0 at 0 answered\n\
        ask 0 c.proto => 64\n\
        begin 0 - => begun\n\
        early 0 => not yet\n\
        take 0 - => 0 at 0 answered\n\
        over 0 - => accepted 64\n\
        ask 0 d.proto => 65\n\
        begin 0 - => begun\n\
        early 0 => not yet\n\
        take 0 - => 1 at 0 answered\n\
        over 0 - => accepted 65\n\
        takes 0 64 => 2 at 0 answered to 65\n\
        asks 0 32 a.proto => 97\n\
        carries 0 32 => accepted 97\n\
        asks 0 32 a.proto => 129\n\
        carries 0 32 => accepted 129\n\
        takes 0 64 => 66 at 0 answered to 129\n\
        edit 1 a.proto=x => 1\n\
        carry 1 - => edited 1\n\
        ask 0 a.proto => 130\n\
        carry 0 - => accepted 130\n\
        take 0 - => 130 at 1 answered",
    );
}

// While the first work of a client is held, 32 of its requests are carried, and the next one waits
// until the gate opens. Requests of other clients are carried.
#[test]
fn a_full_window(rt: HostRuntime) {
    check_both(
        &rt,
        20,
        "\
        edit 0 held.proto=x => 0\n\
        carry 0 - => edited 1\n\
        ask 0 held.proto => 0\n\
        carry 0 - => accepted 0\n\
        held 0 => yes\n\
        asks 0 31 a.proto => 31\n\
        carries 0 31 => accepted 31\n\
        ask 0 b.proto => 32\n\
        begin 0 - => begun\n\
        early 0 => not yet\n\
        ask 1 b.proto => 0\n\
        carry 1 - => accepted 0\n\
        early 0 => not yet\n\
        free 0 => in time\n\
        over 0 - => accepted 32\n\
        takes 0 33 => 0 at 1 answered to 32\n\
        take 1 - => 0 at 1 answered\n\
        asks 0 32 held.proto => 64\n\
        carries 0 32 => accepted 64\n\
        takes 0 32 => 33 at 1 answered to 64",
    );
}

// Runs that wait for one key, two of one client and one of another, are all answered once the gate
// opens.
#[test]
fn runs_that_wait(rt: HostRuntime) {
    check_both(
        &rt,
        12,
        "\
        edit 0 held.proto=x => 0\n\
        carry 0 - => edited 1\n\
        ask 0 held.proto => 0\n\
        ask 0 held.proto => 1\n\
        ask 1 held.proto => 0\n\
        carry 0 - => accepted 0\n\
        held 0 => yes\n\
        carry 0 - => accepted 1\n\
        carry 1 - => accepted 0\n\
        free 0 => in time\n\
        takes 0 2 => 0 at 1 answered to 1\n\
        take 1 - => 0 at 1 answered",
    );
}

// A worker has started the runs that wait, and has answered a request after them, when the gate
// opens.
#[test]
fn runs_that_were_blocked(rt: HostRuntime) {
    check_calls(
        &rt,
        14,
        2,
        "\
        edit 0 held.proto=x => 0\n\
        carry 0 - => edited 1\n\
        asks 0 3 held.proto => 2\n\
        asks 1 3 held.proto => 2\n\
        carry 0 - => accepted 0\n\
        held 0 => yes\n\
        carries 0 2 => accepted 2\n\
        carries 1 3 => accepted 2\n\
        ask 2 b.proto => 0\n\
        carry 2 - => accepted 0\n\
        take 2 - => 0 at 1 answered\n\
        free 0 => in time\n\
        takes 1 3 => 0 at 1 answered to 2\n\
        takes 0 3 => 0 at 1 answered to 2",
    );
}

// A withdrawal makes 32 replies at once, and its porter delivers them all: no worker has anything
// to do.
#[test]
fn replies_made_at_once(rt: HostRuntime) {
    check_both(
        &rt,
        15,
        "\
        edit 0 held.proto=x => 0\n\
        carry 0 - => edited 1\n\
        ask 0 held.proto => 0\n\
        carry 0 - => accepted 0\n\
        held 0 => yes\n\
        asks 1 32 held.proto => 31\n\
        carries 1 32 => accepted 31\n\
        withdraw 1 held.proto => 32\n\
        carry 1 - => withdrew\n\
        takes 1 32 => 0 at 1 withdrawn to 31\n\
        free 0 => in time\n\
        take 0 - => 0 at 1 answered\n\
        ask 1 held.proto => 32\n\
        carry 1 - => accepted 32\n\
        take 1 - => 32 at 1 answered",
    );
}

// A run goes on after the most steps that a worker takes in one hold of the lock, and after those that a
// porter takes while a worker waits: after an edit it goes down a chain of 24 files, each of which
// imports the next.
#[test]
fn runs_of_many_steps(rt: HostRuntime) {
    check_both(
        &rt,
        36,
        "\
        edit 0 a.proto=syntax = \"proto3\"; import \"b.proto\"; => 0\n\
        edit 0 b.proto=syntax = \"proto3\"; import \"c.proto\"; => 0\n\
        edit 0 c.proto=syntax = \"proto3\"; import \"d.proto\"; => 0\n\
        edit 0 d.proto=syntax = \"proto3\"; import \"e.proto\"; => 0\n\
        edit 0 e.proto=syntax = \"proto3\"; import \"f.proto\"; => 0\n\
        edit 0 f.proto=syntax = \"proto3\"; import \"g.proto\"; => 0\n\
        edit 0 g.proto=syntax = \"proto3\"; import \"h.proto\"; => 0\n\
        edit 0 h.proto=syntax = \"proto3\"; import \"i.proto\"; => 0\n\
        edit 0 i.proto=syntax = \"proto3\"; import \"j.proto\"; => 0\n\
        edit 0 j.proto=syntax = \"proto3\"; import \"k.proto\"; => 0\n\
        edit 0 k.proto=syntax = \"proto3\"; import \"l.proto\"; => 0\n\
        edit 0 l.proto=syntax = \"proto3\"; import \"m.proto\"; => 0\n\
        edit 0 m.proto=syntax = \"proto3\"; import \"n.proto\"; => 0\n\
        edit 0 n.proto=syntax = \"proto3\"; import \"o.proto\"; => 0\n\
        edit 0 o.proto=syntax = \"proto3\"; import \"p.proto\"; => 0\n\
        edit 0 p.proto=syntax = \"proto3\"; import \"q.proto\"; => 0\n\
        edit 0 q.proto=syntax = \"proto3\"; import \"r.proto\"; => 0\n\
        edit 0 r.proto=syntax = \"proto3\"; import \"s.proto\"; => 0\n\
        edit 0 s.proto=syntax = \"proto3\"; import \"t.proto\"; => 0\n\
        edit 0 t.proto=syntax = \"proto3\"; import \"u.proto\"; => 0\n\
        edit 0 u.proto=syntax = \"proto3\"; import \"v.proto\"; => 0\n\
        edit 0 v.proto=syntax = \"proto3\"; import \"w.proto\"; => 0\n\
        edit 0 w.proto=syntax = \"proto3\"; import \"x.proto\"; => 0\n\
        carries 0 23 => edited 23\n\
        ask 0 a.proto => 0\n\
        carry 0 - => accepted 0\n\
        take 0 - => 0 at 23 answered\n\
        edit 0 x.proto=syntax = \"proto3\"; => 1\n\
        carry 0 - => edited 24\n\
        rest 0 => rested\n\
        asks 0 2 a.proto => 2\n\
        asks 1 2 a.proto => 1\n\
        carries 0 2 => accepted 2\n\
        carries 1 2 => accepted 1\n\
        takes 0 2 => 1 at 24 answered to 2\n\
        takes 1 2 => 0 at 24 answered to 1",
    );
}

// Two carries wait, each for room in the window of its client. The one of the client whose reply is
// taken ends first, also where it began last.
#[test]
fn two_full_windows(rt: HostRuntime) {
    check_both(
        &rt,
        20,
        "\
        asks 0 32 a.proto => 31\n\
        carries 0 32 => accepted 31\n\
        asks 0 32 a.proto => 63\n\
        carries 0 32 => accepted 63\n\
        asks 1 32 a.proto => 31\n\
        carries 1 32 => accepted 31\n\
        asks 1 32 a.proto => 63\n\
        carries 1 32 => accepted 63\n\
        ask 0 b.proto => 64\n\
        begin 0 - => begun\n\
        early 0 => not yet\n\
        ask 1 b.proto => 64\n\
        begin 1 - => begun\n\
        early 0 => not yet\n\
        take 1 - => 0 at 0 answered\n\
        over 1 - => accepted 64\n\
        take 0 - => 0 at 0 answered\n\
        over 0 - => accepted 64\n\
        takes 1 64 => 1 at 0 answered to 64\n\
        takes 0 64 => 1 at 0 answered to 64",
    );
}
