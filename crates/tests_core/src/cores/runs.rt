//! Runs that an edit overtakes, that starve, or that wait for a key of another run.
use super::check_rows;

// A run that an edit overtook is cancelled. One that was not started yet is answered at the edit's
// revision.
#[test]
fn cancelled_by_an_edit(rt: HostRuntime) {
    check_rows(
        &rt,
        17,
        "\
        open 4 => 0; rest\n\
        edit 0 low a=b => 1; rest\n\
        edit 0 low b= => 2; rest\n\
        edit 0 low c= => 3; rest\n\
        accept 0 7 Sum a => 0\n\
        accept 0 8 Sum a => 1\n\
        start => 0\n\
        edit 0 low b=c => 4\n\
        request 0 => 0 0\n\
        look 0 => stopped\n\
        look 0 => no such run\n\
        request 0 => none\n\
        start => 1\n\
        finish 1 => Sum a fresh;Sum b fresh;Sum c fresh;answered\n\
        release 0 => put 0\n\
        release 0 => put 1; rest\n\
        close 0 => 0 7 Sum a @4 cancelled 3 4|1 8 Sum a @4 answered 3|0; rest\n\
        ",
    );
}

// A run waits for its own work, takes no result of another run, and is starved once.
#[test]
fn starved(rt: HostRuntime) {
    check_rows(
        &rt,
        17,
        "\
        open 4 => 0; rest\n\
        accept 0 7 Sum a => 0\n\
        accept 0 8 Sum b => 1\n\
        start => 0\n\
        start => 1\n\
        look 0 => Sum a fresh\n\
        look 0 => blocked 0\n\
        swap 1 0 => the result is not that of the run's work; stepped\n\
        look 0 => blocked 0\n\
        starve 0 => yes\n\
        starve 0 => no\n\
        look 0 => no such run\n\
        request 0 => none\n\
        finish 1 => answered\n\
        release 0 => put 0\n\
        release 0 => put 1; rest\n\
        close 0 => 0 7 Sum a @0 starved|1 8 Sum b @0 answered 1|0; rest\n\
        ",
    );
}

// A key is claimed by one run: another run that needs it is blocked, and goes on when the first is
// over.
#[test]
fn one_run_for_a_key(rt: HostRuntime) {
    check_rows(
        &rt,
        15,
        "\
        open 4 => 0; rest\n\
        open 4 => 1; rest\n\
        accept 0 7 Sum a => 0\n\
        accept 1 7 Sum a => 0\n\
        start => 0\n\
        start => 1\n\
        look 0 => Sum a fresh\n\
        look 1 => blocked 0\n\
        look 1 => blocked 0\n\
        starve 0 => yes\n\
        finish 1 => Sum a fresh;answered\n\
        release 0 => put 0\n\
        release 1 => put 0; rest\n\
        close 0 => 0 7 Sum a @0 starved|0; rest\n\
        close 1 => 0 7 Sum a @0 answered 1|0; rest\n\
        ",
    );
}

// A run that was overtaken keeps its keys until it is looked at.
#[test]
fn blocked_by_an_overtaken_run(rt: HostRuntime) {
    check_rows(
        &rt,
        16,
        "\
        open 4 => 0; rest\n\
        open 4 => 1; rest\n\
        accept 0 7 Sum a => 0\n\
        start => 0\n\
        look 0 => Sum a fresh\n\
        edit 1 low b=c => 1\n\
        accept 1 7 Sum a => 0\n\
        start => 1\n\
        look 1 => blocked 0\n\
        look 0 => stopped\n\
        look 0 => no such run\n\
        finish 1 => Sum a fresh;answered\n\
        release 0 => put 0\n\
        release 1 => put 0; rest\n\
        close 0 => 0 7 Sum a @1 cancelled 0 1|0; rest\n\
        close 1 => 0 7 Sum a @1 answered 1|0; rest\n\
        ",
    );
}

// A result that is given after an edit stops its run.
#[test]
fn stopped_by_a_late_result(rt: HostRuntime) {
    check_rows(
        &rt,
        7,
        "\
        open 4 => 0; rest\n\
        accept 0 7 Sum a => 0\n\
        start => 0\n\
        late 0 low a=b => stopped\n\
        look 0 => no such run\n\
        release 0 => put 0; rest\n\
        close 0 => 0 7 Sum a @1 cancelled 0 1|0; rest\n\
        ",
    );
}

// Two runs that demand one key are both answered, one after the other or in turns.
#[test]
fn two_runs_of_one_key(rt: HostRuntime) {
    check_rows(
        &rt,
        17,
        "\
        open 4 => 0; rest\n\
        open 4 => 1; rest\n\
        edit 0 low a=b => 1; rest\n\
        accept 0 7 Sum a => 0\n\
        accept 1 7 Sum a => 0\n\
        start => 0\n\
        start => 1\n\
        turns 0 1 => over\n\
        edit 1 low b=c => 2\n\
        accept 1 8 Sum a => 1\n\
        start => 2\n\
        finish 2 => Sum b Text b;Sum c fresh;Sum a Sum b;answered\n\
        release 1 => put 0\n\
        release 1 => put 1\n\
        release 0 => put 0; rest\n\
        close 0 => 0 7 Sum a @1 answered 2|0; rest\n\
        close 1 => 0 7 Sum a @1 answered 2|1 8 Sum a @2 answered 3|0; rest\n\
        ",
    );
}
