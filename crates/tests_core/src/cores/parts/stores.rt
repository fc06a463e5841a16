//! Stores: replies that are collected, windows, clients and runs.
use super::check_parts;
use crate::checks::text_of;
use crate::cores::add_numbered;
use test_support::Page;

// A reply behind one that is not made is collected before it. One that an edit overtook is
// cancelled. A closed client has no replies.
#[test]
fn collected_out_of_order(rt: HostRuntime) {
    check_parts(
        &rt,
        17,
        "\
        open => 0\n\
        accept 0 7 Sum a => 0\n\
        accept 0 8 say b => 1\n\
        collect 0 => 1 plain\n\
        collect 0 => none\n\
        idle => no\n\
        start => 0\n\
        edit 0 low a=b => 1\n\
        look 0 => stopped\n\
        fill 0 1 => yes\n\
        release => nothing\n\
        collect 0 => 0 cancelled\n\
        fill 0 0 => yes\n\
        release => put 0\n\
        close 0 => yes\n\
        close 0 => no\n\
        collect 0 => none\n\
        ",
    );
}

// The window of a client is freed by what is acknowledged. Nothing changes where a reply below was
// not collected, or a higher number was acknowledged before.
#[test]
fn acknowledged_windows(rt: HostRuntime) {
    let mut rows = Page::new(rt.alloc());
    rows.add("open => 0\n");
    add_numbered(&mut rows, "accept 0 7 say a", 32, "");
    rows.add(
        "\
        accept 0 7 say a => too many requests of the client are owed a reply\n\
        seen 0 1 => \n\
        accept 0 7 say a => too many requests of the client are owed a reply\n\
        collect 0 => 0 plain\n\
        accept 0 7 say a => too many requests of the client are owed a reply\n\
        seen 0 2 => \n\
        accept 0 7 say a => too many requests of the client are owed a reply\n\
        seen 0 1 => \n\
        accept 0 7 say a => 32\n\
        seen 0 0 => \n\
        accept 0 7 say a => too many requests of the client are owed a reply\n\
        ",
    );
    check_parts(&rt, 44, text_of(&rt, &rows));
}

// Calls for a client that never was change nothing. 64 clients are open at most, and the number of a
// closed client is not given again.
#[test]
fn clients_of_a_store(rt: HostRuntime) {
    let mut rows = Page::new(rt.alloc());
    rows.add("collect 9 => none\nclose 9 => no\nseen 9 1 => \nnext => 0\n");
    add_numbered(&mut rows, "open", 64, "");
    rows.add(
        "\
        next => none\n\
        open => too many clients are open\n\
        close 0 => yes\n\
        collect 0 => none\n\
        next => 64\n\
        open => 64\n\
        open => too many clients are open\n\
        ",
    );
    check_parts(&rt, 75, text_of(&rt, &rows));
}

// Runs of a store end with a reply that is collected: one that is given the results of its work, and
// one that starves. Whose client was closed makes none.
#[test]
fn runs_of_a_store(rt: HostRuntime) {
    check_parts(
        &rt,
        24,
        "\
        open => 0\n\
        edit 0 low a= => 1\n\
        accept 0 7 Sum a => 0\n\
        accept 0 8 Sum a => 1\n\
        accept 0 9 Sum a => 2\n\
        start => 0\n\
        start => 1\n\
        start => 2\n\
        starve 0 => yes\n\
        starve 0 => no\n\
        collect 0 => 0 starved\n\
        collect 0 => none\n\
        give 1 => stepped\n\
        give 1 => stepped\n\
        collect 0 => none\n\
        look 1 => answered\n\
        look 1 => no such run\n\
        collect 0 => 1 answered\n\
        idle => no\n\
        close 0 => yes\n\
        give 2 => stopped\n\
        starve 2 => no\n\
        collect 0 => none\n\
        idle => yes\n\
        ",
    );
}

// A client is owed a reply from the request on until the reply is acknowledged, or the client is closed.
// A request waits until its run starts. The answer of a key is there until what it read is changed.
#[test]
fn what_a_store_owes(rt: HostRuntime) {
    check_parts(
        &rt,
        27,
        "\
        owes 0 => no\n\
        open => 0\n\
        owes 0 => no\n\
        waiting => no\n\
        edit 0 low a= => 1\n\
        there Sum a => no\n\
        accept 0 7 Sum a => 0\n\
        owes 0 => yes\n\
        waiting => yes\n\
        start => 0\n\
        waiting => no\n\
        give 0 => stepped\n\
        give 0 => stepped\n\
        there Sum a => yes\n\
        look 0 => answered\n\
        owes 0 => yes\n\
        collect 0 => 0 answered\n\
        owes 0 => yes\n\
        seen 0 1 => \n\
        owes 0 => no\n\
        edit 0 low a=b => 2\n\
        there Sum a => no\n\
        accept 0 8 say c => 1\n\
        owes 0 => yes\n\
        waiting => no\n\
        close 0 => yes\n\
        owes 0 => no\n\
        ",
    );
}
