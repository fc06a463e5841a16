//! Rings of files, within a run and across two.
use super::check_rows;

// A ring of files, found by one run.
#[test]
fn a_ring(rt: HostRuntime) {
    check_rows(
        &rt,
        11,
        "\
        open 4 => 0; rest\n\
        edit 0 low a=b => 1; rest\n\
        edit 0 low b=a => 2; rest\n\
        accept 0 7 Sum b => 0\n\
        accept 0 8 Total a => 1\n\
        start => 0\n\
        start => 1\n\
        finish 0 => Sum b fresh;Sum a fresh;answered\n\
        finish 1 => Total a fresh;answered\n\
        release 0 => put 0\n\
        close 0 => 0 7 Sum b @2 answered Sum a;Sum b;|0; rest\n\
        ",
    );
}

// A ring of files, which two runs enter from both sides.
#[test]
fn a_ring_in_turns(rt: HostRuntime) {
    check_rows(
        &rt,
        12,
        "\
        open 4 => 0; rest\n\
        edit 0 low a=b => 1; rest\n\
        edit 0 low b=c => 2; rest\n\
        edit 0 low c=a => 3; rest\n\
        accept 0 7 Sum a => 0\n\
        accept 0 8 Sum b => 1\n\
        start => 0\n\
        start => 1\n\
        turns 0 1 => over\n\
        release 0 => put 0\n\
        release 0 => put 1; rest\n\
        close 0 => 0 7 Sum a @3 answered Sum a;Sum b;Sum c;|1 8 Sum b @3 answered Sum a;Sum b;Sum c;|0; rest\n\
        ",
    );
}

// A ring across two runs of two clients. The run whose claim would close it publishes the whole ring
// in one step, and both are answered with it, from its least key on.
#[test]
fn a_ring_across_runs(rt: HostRuntime) {
    check_rows(
        &rt,
        21,
        "\
        open 4 => 0; rest\n\
        open 4 => 1; rest\n\
        edit 0 low a=b => 1; rest\n\
        edit 1 low b=a => 2; rest\n\
        accept 0 7 Sum b => 0\n\
        accept 1 7 Sum a => 0\n\
        start => 0\n\
        start => 1\n\
        step 0 => stepped\n\
        step 1 => stepped\n\
        step 0 => stepped\n\
        step 1 => stepped\n\
        step 0 => blocked 1\n\
        step 0 => blocked 1\n\
        step 1 => stepped\n\
        step 0 => answered\n\
        step 1 => answered\n\
        release 0 => put 0\n\
        release 1 => put 0; rest\n\
        close 0 => 0 7 Sum b @2 answered Sum a;Sum b;|0; rest\n\
        close 1 => 0 7 Sum a @2 answered Sum a;Sum b;|0; rest\n\
        ",
    );
}

// After that step neither run holds a key of the ring: a later run claims both keys, though nobody has
// looked at the two.
#[test]
fn a_ring_is_released(rt: HostRuntime) {
    check_rows(
        &rt,
        18,
        "\
        open 4 => 0; rest\n\
        edit 0 low a=b => 1; rest\n\
        edit 0 low b=a => 2; rest\n\
        accept 0 7 Sum b => 0\n\
        accept 0 8 Sum a => 1\n\
        start => 0\n\
        start => 1\n\
        step 0 => stepped\n\
        step 1 => stepped\n\
        step 0 => stepped\n\
        step 1 => stepped\n\
        step 0 => blocked 1\n\
        step 1 => stepped\n\
        edit 0 low c= => 3\n\
        accept 0 9 Sum a => 2\n\
        start => 2\n\
        finish 2 => Sum a ring;Sum b ring;answered\n\
        step 0 => stopped\n\
        ",
    );
}
