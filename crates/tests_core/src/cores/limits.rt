//! Limits of a core: clients, windows, texts, and the steps of a run.
use super::{add_numbered, check_script};
use crate::checks::{check_number, text_of};
use pq_core::{MAX_CLIENTS, WINDOW};
use test_support::Page;

// A request of a client is refused while 32 are accepted and not put.
#[test]
fn windows(rt: HostRuntime) {
    check_number(&rt, WINDOW, 32, "window");
    let mut script = Page::new(rt.alloc());
    script.add("open 40 => 0; rest\nopen 40 => 1; rest\n");
    add_numbered(&mut script, "accept 0 7 Sum a", 32, "");
    script.add(
        "\
        accept 0 7 Sum a => too many requests of the client are owed a reply\n\
        accept 0 7 say no => too many requests of the client are owed a reply\n\
        accept 1 7 say yes => 0\n\
        start => 0\n\
        finish 0 => Sum a fresh;answered\n\
        accept 0 7 Sum a => too many requests of the client are owed a reply\n\
        release 0 => put 0\n\
        accept 0 7 Sum a => 32\n\
        accept 0 7 Sum a => too many requests of the client are owed a reply\n\
        take 0 => yes\n\
        accept 0 7 Sum a => too many requests of the client are owed a reply\n\
        ",
    );
    check_script(&rt, text_of(&rt, &script));
}

// A client is refused while 64 are open. The number of a closed client is not given again.
#[test]
fn clients(rt: HostRuntime) {
    check_number(&rt, MAX_CLIENTS, 64, "clients");
    let mut script = Page::new(rt.alloc());
    add_numbered(&mut script, "open 1", 64, "; rest");
    script.add(
        "\
        open 1 => too many clients are open; rest\n\
        close 5 => 0; rest\n\
        open 1 => 64; rest\n\
        open 1 => too many clients are open; rest\n\
        close 5 => none; rest\n\
        accept 5 7 Sum a => the client was closed; rest\n\
        accept 64 7 Sum a => 0\n\
        accept 65 7 Sum a => no such client\n\
        ",
    );
    check_script(&rt, text_of(&rt, &script));
}

// An edit that the inputs refuse makes no revision, and stops no run.
#[test]
fn long_texts(rt: HostRuntime) {
    let mut script = Page::new(rt.alloc());
    script.add(
        "\
        open 4 => 0; rest\n\
        edit 0 low a=b => 1; rest\n\
        accept 0 7 Sum a => 0\n\
        start => 0\n\
        edit 0 low a=",
    );
    script.repeat(" ", 1_048_577);
    script.add(
        " => the edit was refused: the text is too long\n\
        now => 1\n\
        finish 0 => Sum a fresh;Sum b fresh;answered\n\
        release 0 => put 0; rest\n\
        close 0 => 0 7 Sum a @1 answered 2|0; rest\n\
        ",
    );
    check_script(&rt, text_of(&rt, &script));
}

// A list of changes for one file more than there may be: a bad range and a text that is too long are
// refused first.
#[test]
fn many_files(rt: HostRuntime) {
    let mut script = Page::new(rt.alloc());
    script.add("open 4 => 0; rest\n");
    for n in 0..4096usize {
        script.add("edit 0 low n");
        script.number(n);
        script.add("= => ");
        script.number(n + 1);
        script.add("; rest\n");
    }
    script.add(
        "\
        edit 0 low a~0:0-0:0 x => the range is bad; back 1|x; rest\n\
        edit 0 low a~all 1048577*. => the edit was refused: the text is too long; back 1|1048577; rest\n\
        edit 0 low a~all x | 0:0-0:0 y => the edit was refused: too many files; back 2|x|y; rest\n\
        edit 0 low n7~0:0-0:0 x => 4097; rest\n\
        ",
    );
    check_script(&rt, text_of(&rt, &script));
}

/// Writes edits of the files `n100` to `n199`, each of which names the next and the last the first.
fn add_ring(script: &mut Page) {
    for i in 0..100usize {
        script.add("edit 0 low n");
        script.number(100 + i);
        script.add("=n");
        script.number(100 + (i + 1) % 100);
        script.add(" => ");
        script.number(i + 1);
        script.add("; rest\n");
    }
}

/// Writes the keys of that ring.
fn add_keys(script: &mut Page) {
    for i in 100..200usize {
        script.add("Sum n");
        script.number(i);
        script.add(";");
    }
}

// A core whose runs step for ever does not pass: two runs that meet a ring of 100 keys from both sides
// come to an end.
#[test]
fn stepped_for_ever(rt: HostRuntime) {
    let mut script = Page::new(rt.alloc());
    script.add("open 4 => 0; rest\n");
    add_ring(&mut script);
    script.add(
        "\
        accept 0 7 Sum n130 => 0\n\
        accept 0 8 Total n180 => 1\n\
        start => 0\n\
        start => 1\n\
        turns 0 1 => over\n\
        release 0 => put 0\n\
        release 0 => put 1; rest\n\
        close 0 => 0 7 Sum n130 @100 answered ",
    );
    add_keys(&mut script);
    script.add("|1 8 Total n180 @100 answered 0|0; rest\n");
    check_script(&rt, text_of(&rt, &script));
}

/// Makes edits of client 0 until `last` is the revision, from the revision `first` on.
fn add_edits(script: &mut Page, first: u64, last: u64) {
    for revision in first..last {
        script.add("edit 0 low a= => ");
        script.wide(revision + 1);
        script.add("\n");
    }
}

#[test]
fn turn(rt: HostRuntime) {
    let mut script = Page::new(rt.alloc());
    script.add("open 4 => 0; rest\nedit 0 low a= => 1; rest\n");
    script.add("open 4 => 1; rest\nopen 4 => 2; rest\naccept 1 9 Sum b => 0\nstart => 0\n");
    script.add("accept 2 9 Sum b => 0\nstart => 1\nclose 2 => 0\n");
    add_edits(&mut script, 1, 1_023);
    script.add("accept 0 7 Sum a => 0\nstart => 2\naccept 0 8 Sum a => 1\n");
    script.add("look 2 => Sum a fresh\n");
    script.add("edit 0 low a=b => 1024\n");
    script.add("look 0 => no such run\nlook 1 => no such run\nlook 2 => no such run\n");
    script.add("release 0 => put 0\nrelease 1 => put 0\nrelease 0 => nothing\n");
    script.add(
        "start => 3\nfinish 3 => Sum a fresh;Sum b fresh;answered\nrelease 0 => put 1; rest\n",
    );
    script.add(
        "close 0 => 0 7 Sum a @1024 cancelled 1023 1024|1 8 Sum a @1024 answered 2|0; rest\n",
    );
    script.add("close 1 => 0 9 Sum b @1024 cancelled 1 1024|0; rest\n");
    check_script(&rt, text_of(&rt, &script));
}

#[test]
fn turn_at_work(rt: HostRuntime) {
    let mut script = Page::new(rt.alloc());
    script.add("open 4 => 0; rest\nedit 0 low a= => 1; rest\n");
    for revision in 1u64..1_023 {
        script.add("edit 0 low a= => ");
        script.wide(revision + 1);
        script.add("; rest\n");
    }
    script.add("accept 0 7 Sum a => 0\nstart => 0\n");
    script.add("late 0 low a=b => the result is not that of the run's work\n");
    script.add("release 0 => put 0; rest\n");
    script.add("close 0 => 0 7 Sum a @1024 cancelled 1023 1024|0; rest\n");
    check_script(&rt, text_of(&rt, &script));
}
