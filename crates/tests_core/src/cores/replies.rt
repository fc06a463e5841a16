//! Replies of clients: their order, outboxes that are full or gone, fixed texts, and calls on nobody.
use super::check_rows;

// Replies leave in the order of their numbers, whichever run ends first.
#[test]
fn replies_in_order(rt: HostRuntime) {
    check_rows(
        &rt,
        17,
        "\
        open 4 => 0; rest\n\
        edit 0 low a=b => 1; rest\n\
        accept 0 7 Sum a => 0\n\
        accept 0 8 Sum b => 1\n\
        start => 0\n\
        request 0 => 0 0\n\
        start => 1\n\
        request 1 => 0 1\n\
        start => none\n\
        finish 1 => Sum b fresh;answered\n\
        request 1 => none\n\
        release 0 => nothing\n\
        finish 0 => Sum a fresh;answered\n\
        release 0 => put 0\n\
        release 0 => put 1; rest\n\
        release 0 => nothing; rest\n\
        close 0 => 0 7 Sum a @1 answered 2|1 8 Sum b @1 answered 1|0; rest\n\
        ",
    );
}

// An outbox with room for one reply, and a client that closes.
#[test]
fn full_and_closed(rt: HostRuntime) {
    check_rows(
        &rt,
        19,
        "\
        open 1 => 0; rest\n\
        accept 0 7 Sum a => 0\n\
        accept 0 8 Sum a => 1\n\
        accept 0 9 Sum a => 2\n\
        start => 0\n\
        finish 0 => Sum a fresh;answered\n\
        start => 1\n\
        finish 1 => answered\n\
        release 0 => put 0\n\
        release 0 => full\n\
        start => 2\n\
        request 2 => 0 2\n\
        close 0 => 0 7 Sum a @0 answered 1|0\n\
        request 2 => 0 2\n\
        look 2 => stopped; rest\n\
        release 0 => nothing; rest\n\
        close 0 => none; rest\n\
        accept 0 7 Sum a => the client was closed; rest\n\
        edit 0 low a= => the client was closed; rest\n\
        ",
    );
}

// A reply that a full outbox refused leaves the core at rest until it has room.
#[test]
fn rests_while_full(rt: HostRuntime) {
    check_rows(
        &rt,
        11,
        "\
        open 1 => 0; rest\n\
        accept 0 none say first => 0\n\
        accept 0 -5 say second => 1\n\
        accept 0 last say third => 2\n\
        release 0 => put 0\n\
        release 0 => full; rest\n\
        release 0 => full; rest\n\
        take 0 => yes; rest\n\
        take 0 => no; rest\n\
        release 0 => put 1\n\
        close 0 => 0 none say first @0 plain|1 -5 say second @0 plain|1; rest\n\
        ",
    );
}

// A reply to a client whose taking end is gone is not put, and the core is at rest then.
#[test]
fn rests_while_gone(rt: HostRuntime) {
    check_rows(
        &rt,
        12,
        "\
        mute 1 => 0; rest\n\
        accept 0 7 say first => 0\n\
        accept 0 8 Sum a => 1\n\
        release 0 => put 0\n\
        release 0 => nothing\n\
        start => 0\n\
        finish 0 => Sum a fresh;answered\n\
        release 0 => gone; rest\n\
        take 0 => yes; rest\n\
        accept 0 9 say third => 2; rest\n\
        release 0 => gone; rest\n\
        close 0 => 0 7 say first @0 plain|1; rest\n\
        ",
    );
}

// A fixed text is ready at the revision of its acceptance. Each client has numbers of its own, and
// an edit of one is seen by the other.
#[test]
fn fixed_texts(rt: HostRuntime) {
    check_rows(
        &rt,
        18,
        "\
        open 4 => 0; rest\n\
        open 0 => 1; rest\n\
        edit 1 low a= => 1; rest\n\
        accept 0 7 say hello => 0\n\
        start => none\n\
        accept 1 x say hello => 0\n\
        edit 1 low a=b => 2\n\
        accept 0 8 Sum a => 1\n\
        accept 0 9 say bye => 2\n\
        release 1 => full\n\
        release 0 => put 0\n\
        release 0 => nothing\n\
        start => 0\n\
        finish 0 => Sum a fresh;Sum b fresh;answered\n\
        release 0 => put 1\n\
        release 0 => put 2; rest\n\
        close 0 => 0 7 say hello @1 plain|1 8 Sum a @2 answered 2|2 9 say bye @2 plain|0; rest\n\
        close 1 => 0; rest\n\
        ",
    );
}

// Calls on clients and runs that do not exist are refused and change nothing.
#[test]
fn strangers(rt: HostRuntime) {
    check_rows(
        &rt,
        15,
        "\
        accept 0 7 Sum a => no such client; rest\n\
        edit 0 low a=b => no such client; rest\n\
        release 0 => nothing; rest\n\
        take 0 => no; rest\n\
        close 0 => none; rest\n\
        start => none; rest\n\
        look 0 => no such run; rest\n\
        starve 0 => no; rest\n\
        request 0 => none; rest\n\
        open 0 => 0; rest\n\
        accept 1 7 Sum a => no such client; rest\n\
        edit 1 low a=b => no such client; rest\n\
        release 1 => nothing; rest\n\
        close 1 => none; rest\n\
        now => 0; rest\n\
        ",
    );
}
