//! Requests that are withdrawn.
use super::check_rows;

// Each request with the label that waits or is in a run is withdrawn. One whose reply is ready is not.
#[test]
fn withdrawn(rt: HostRuntime) {
    check_rows(
        &rt,
        19,
        "\
        open 4 => 0; rest\n\
        accept 0 7 Sum a => 0\n\
        start => 0\n\
        accept 0 8 Sum b => 1\n\
        accept 0 8 say two => 2\n\
        withdraw 0 8 => yes\n\
        withdraw 0 8 => no\n\
        withdraw 0 9 => no\n\
        withdraw 0 7 => yes\n\
        look 0 => no such run\n\
        start => none\n\
        release 0 => put 0\n\
        release 0 => put 1\n\
        release 0 => put 2; rest\n\
        release 0 => nothing; rest\n\
        withdraw 1 7 => no such client; rest\n\
        close 0 => 0 7 Sum a @0 withdrawn|1 8 Sum b @0 withdrawn|2 8 say two @0 plain|0; rest\n\
        withdraw 0 7 => the client was closed; rest\n\
        now => 0; rest\n\
        ",
    );
}

// A withdrawn run holds no key: who waits for one of them goes on, and the result of its work comes
// too late. Requests of others with the label stay. The reply is of the revision of the withdrawal.
#[test]
fn withdrawn_at_work(rt: HostRuntime) {
    check_rows(
        &rt,
        22,
        "\
        open 4 => 0; rest\n\
        open 4 => 1; rest\n\
        accept 0 x Sum a => 0\n\
        accept 1 x Sum a => 0\n\
        accept 0 x Sum b => 1\n\
        accept 0 x Sum c => 2\n\
        start => 0\n\
        start => 1\n\
        edit 0 low d= => 1\n\
        start => 2\n\
        look 0 => stopped\n\
        look 1 => stopped\n\
        accept 1 x Sum b => 1\n\
        start => 3\n\
        start => 4\n\
        look 2 => Sum b fresh\n\
        look 4 => blocked 2\n\
        pull 3 x => yes; the result is not that of the run's work\n\
        finish 4 => Sum b fresh;answered\n\
        look 2 => no such run\n\
        close 0 => 0\n\
        close 1 => 0; rest\n\
        ",
    );
}
