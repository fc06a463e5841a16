//! Lanes: replies that are filled in any order, full outboxes, and places.
use super::check_parts;
use crate::checks::text_of;
use crate::cores::add_numbered;
use test_support::Page;

// A lane sorts replies. It takes none that was put, and none after its close.
#[test]
fn filled_in_another_order(rt: HostRuntime) {
    check_parts(
        &rt,
        32,
        "\
        next => 0\n\
        open => 0\n\
        open => 1\n\
        made => none\n\
        accept 0 7 say a => 0\n\
        accept 0 8 say b => 1\n\
        accept 0 9 say c => 2\n\
        accept 1 7 say d => 0\n\
        made => 0\n\
        collect 0 => 0 plain\n\
        collect 0 => 1 plain\n\
        more 0 => yes\n\
        collect 0 => 2 plain\n\
        more 0 => no\n\
        more 2 => no\n\
        made => 1\n\
        collect 0 => none\n\
        more 1 => yes\n\
        collect 1 => 0 plain\n\
        made => none\n\
        fill 0 1 => yes\n\
        release => nothing\n\
        fill 1 0 => no\n\
        fill 0 0 => yes\n\
        release => put 0\n\
        release => put 1\n\
        release => nothing\n\
        shut => yes\n\
        fill 0 2 => no\n\
        release => nothing\n\
        shut => no\n\
        idle => yes\n\
        ",
    );
}

// A full outbox refuses, and has room after a take.
#[test]
fn full_lane(rt: HostRuntime) {
    check_parts(
        &rt,
        17,
        "\
        open => 0\n\
        accept 0 7 say a => 0\n\
        accept 0 8 say b => 1\n\
        accept 0 9 say c => 2\n\
        collect 0 => 0 plain\n\
        collect 0 => 1 plain\n\
        collect 0 => 2 plain\n\
        fill 0 0 => yes\n\
        fill 0 1 => yes\n\
        fill 0 2 => yes\n\
        release => put 0\n\
        release => put 1\n\
        release => full\n\
        take => yes\n\
        release => put 2\n\
        take => yes\n\
        release => nothing\n\
        ",
    );
}

// A reply comes back where its number was put or its place is filled.
#[test]
fn filled_before(rt: HostRuntime) {
    check_parts(
        &rt,
        24,
        "\
        open => 0\n\
        accept 0 7 say a => 0\n\
        accept 0 8 say b => 1\n\
        collect 0 => 0 plain\n\
        collect 0 => 1 plain\n\
        fill 0 0 => yes\n\
        fill 0 0 => no reply\n\
        fill 0 1 => yes\n\
        release => put 0\n\
        new store\n\
        open => 0\n\
        accept 0 7 say c => 0\n\
        accept 0 8 say d => 1\n\
        accept 0 9 say e => 2\n\
        collect 0 => 0 plain\n\
        collect 0 => 1 plain\n\
        collect 0 => 2 plain\n\
        fill 0 0 => no\n\
        fill 0 1 => no\n\
        fill 0 2 => yes\n\
        release => put 1\n\
        fill 0 1 => no\n\
        take => yes\n\
        release => put 2\n\
        ",
    );
}

// A lane has a place for each of the 32 numbers from its next one on.
#[test]
fn places_of_a_lane(rt: HostRuntime) {
    let mut rows = Page::new(rt.alloc());
    rows.add("open => 0\n");
    add_numbered(&mut rows, "accept 0 7 say a", 32, "");
    add_numbered(&mut rows, "collect 0", 32, " plain");
    rows.add(
        "\
        seen 0 1 => \n\
        accept 0 7 say a => 32\n\
        collect 0 => 32 plain\n\
        fill 0 32 => no\n\
        fill 0 31 => yes\n\
        fill 0 0 => yes\n\
        release => put 0\n\
        fill 0 32 => yes\n\
        release => nothing\n\
        ",
    );
    check_parts(&rt, 74, text_of(&rt, &rows));
}
