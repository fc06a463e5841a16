//! The order in which requests are started.
use super::check_rows;

// Clients are started in turn, in the order in which they came to wait. None of a client that was
// closed is started.
#[test]
fn started_in_order(rt: HostRuntime) {
    check_rows(
        &rt,
        25,
        "\
        open 4 => 0; rest\n\
        open 4 => 1; rest\n\
        open 4 => 2; rest\n\
        accept 0 7 Sum a => 0\n\
        accept 2 7 Sum d => 0\n\
        accept 1 7 Sum b => 0\n\
        accept 1 8 say hello => 1\n\
        accept 0 8 Sum c => 1\n\
        close 2 => 0\n\
        start => 0\n\
        start => 1\n\
        start => 2\n\
        start => none\n\
        request 0 => 0 0\n\
        request 1 => 1 0\n\
        request 2 => 0 1\n\
        finish 2 => Sum c fresh;answered\n\
        finish 1 => Sum b fresh;answered\n\
        finish 0 => Sum a fresh;answered\n\
        release 0 => put 0\n\
        release 0 => put 1\n\
        release 1 => put 0\n\
        release 1 => put 1; rest\n\
        close 0 => 0 7 Sum a @0 answered 1|1 8 Sum c @0 answered 1|0; rest\n\
        close 1 => 0 7 Sum b @0 answered 1|1 8 say hello @0 plain|0; rest\n\
        ",
    );
}

// A client with 30 requests that wait holds up another one by one start at a time. A client that
// comes to wait goes behind the others: after its last start, after all its requests were withdrawn,
// and where it posted only a fixed text. Each client's own requests are started in their order.
#[test]
fn started_in_turn(rt: HostRuntime) {
    check_rows(
        &rt,
        34,
        "\
        open 4 => 0; rest\n\
        open 4 => 1; rest\n\
        open 4 => 2; rest\n\
        open 4 => 3; rest\n\
        posts 0 10 7 Sum a => 0|1|2|3|4|5|6|7|8|9|\n\
        posts 0 20 7 Sum a => 10|11|12|13|14|15|16|17|18|19|20|21|22|23|24|25|26|27|28|29|\n\
        posts 1 1 7 Sum b => 0|\n\
        starts 4 => 0 0|1 0|0 1|0 2|\n\
        posts 1 2 7 Sum b => 1|2|\n\
        starts 5 => 0 3|1 1|0 4|1 2|0 5|\n\
        posts 2 2 7 Sum c => 0|1|\n\
        posts 1 1 7 Sum b => 3|\n\
        starts 5 => 0 6|2 0|1 3|0 7|2 1|\n\
        posts 2 1 5 Sum c => 2|\n\
        posts 2 1 7 Sum c => 3|\n\
        posts 1 1 7 Sum b => 4|\n\
        withdraw 2 5 => yes\n\
        starts 3 => 0 8|2 3|1 4|\n\
        posts 1 1 5 Sum b => 5|\n\
        posts 2 1 7 Sum c => 4|\n\
        withdraw 1 5 => yes\n\
        posts 1 1 7 Sum b => 6|\n\
        starts 3 => 0 9|2 4|1 6|\n\
        posts 1 1 7 Sum b => 7|\n\
        posts 2 1 7 Sum c => 5|\n\
        starts 1 => 0 10|\n\
        close 1 => 0\n\
        starts 2 => 2 5|0 11|\n\
        posts 2 1 7 say hello => 6|\n\
        posts 3 1 7 Sum d => 0|\n\
        posts 2 1 7 Sum c => 7|\n\
        starts 4 => 0 12|3 0|2 7|0 13|\n\
        starts 17 => 0 14|0 15|0 16|0 17|0 18|0 19|0 20|0 21|0 22|0 23|0 24|0 25|0 26|0 27|0 28|0 29|none|\n\
        start => none\n\
        ",
    );
}
