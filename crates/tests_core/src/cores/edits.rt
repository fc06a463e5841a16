//! Edits by changes with ranges.
use super::check_rows;

// Changes with ranges: what comes back of a refused list, and what an accepted one makes of a file. A
// refused edit makes no revision, and stops no run.
#[test]
fn ranged_edits(rt: HostRuntime) {
    check_rows(
        &rt,
        30,
        "\
        open 4 => 0; rest\n\
        edit 0 low a~0:0-0:0 x | all y => the range is bad; back 2|x|y; rest\n\
        now => 0; rest\n\
        edit 0 low a~all b | 0:1-0:1  c => 1; rest\n\
        accept 0 7 Sum a => 0\n\
        start => 0\n\
        edit 0 low a~0:0-0:1 d | 1:0-1:0 x => the range is bad; back 2|d|x\n\
        edit 0 low a~0:2-0:1 x => the range is bad; back 1|x\n\
        now => 1\n\
        finish 0 => Sum a fresh;Sum b fresh;Sum c fresh;answered\n\
        edit 0 low a~0:1-0:3 '' => 2\n\
        accept 0 8 Sum a => 1\n\
        start => 1\n\
        finish 1 => Sum a Text a;answered\n\
        accept 0 9 Sum a => 2\n\
        start => 2\n\
        edit 0 low a~0:0-0:1 '' | 0:0-0:0 c | 0:1-0:1  b => 3\n\
        look 2 => stopped\n\
        release 0 => put 0\n\
        release 0 => put 1\n\
        release 0 => put 2; rest\n\
        edit 0 low b~all 1048576*. | 0:0-0:0 . => the edit was refused: the text is too long; back 2|1048576|.; rest\n\
        edit 0 low b~all 1048577*. | 1:0-1:0 . => the range is bad; back 2|1048577|.; rest\n\
        now => 3; rest\n\
        edit 0 low b~all 1048577*. | 0:0-0:1 '' => 4; rest\n\
        edit 1 low a~1:0-1:0 x | 2 of all y => no such client; back 3|x|y|y; rest\n\
        close 0 => 0 7 Sum a @1 answered 3|1 8 Sum a @2 answered 2|2 9 Sum a @3 cancelled 2 3|0; rest\n\
        edit 0 low a~1:0-1:0 x => the client was closed; back 1|x; rest\n\
        edit 0 low a~all 1048577*. => the client was closed; back 1|1048577; rest\n\
        now => 4; rest\n\
        ",
    );
}
