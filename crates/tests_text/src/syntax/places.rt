//! Lists of tokens, and the outcome of parsing each: `ok`, `end` for an unexpected end, or the
//! number of the unexpected token.
use super::add_outcome;
use crate::checks::{check_page, check_row_count, split_row, text_of};
use std::process::Abort;
use test_support::{Page, page_of};

/// Checks that the outcome of parsing `tokens` is `want`.
fn check_outcome(rt: &(impl Abort + AllocGlobal), tokens: &str, want: &str) {
    let mut found = Page::new(rt.alloc());
    add_outcome(&mut found, tokens, usize::MAX, "");
    check_page(rt, &found, want, tokens);
}

/// Checks the `count` rows `TOKENS => OUTCOME`, the tokens being between `before` and `after`.
fn check_outcomes(
    rt: &(impl Abort + AllocGlobal),
    before: &str,
    after: &str,
    count: usize,
    rows: &str,
) {
    check_row_count(rt, count, rows);
    for row in rows.lines() {
        let (tokens, want) = split_row(rt, row, " => ");
        let tokens = page_of(rt.alloc(), before, tokens, after);
        check_outcome(rt, text_of(rt, &tokens), want);
    }
}

#[test]
fn files(rt: HostRuntime) {
    check_outcomes(
        &rt,
        "",
        "",
        34,
        "\
        }  => 0\n\
        int32 x = 1 ; => 0\n\
        optional int32 x = 1 ; => 0\n\
        oneof o { } => 0\n\
        reserved 1 ; => 0\n\
        rpc A ( B ) returns ( C ) ; => 0\n\
        map < string , A > m = 1 ; => 0\n\
        syntax = 'proto3' ; => 0\n\
        import public ; => 2\n\
        import weak public 'a' ; => 2\n\
        import 'a' public ; => 2\n\
        import a ; => 1\n\
        import 'a' , 'b' ; => 2\n\
        package . a ; => 1\n\
        package a . ; => 3\n\
        package 'a' ; => 1\n\
        package a , b ; => 2\n\
        extend A ; => 2\n\
        extend { } => 1\n\
        extend 'A' { } => 1\n\
        extend A { { } => end\n\
        extend A { } } => 4\n\
        extend A { ) } => 3\n\
        extend A { ( [ { : } ] ) < ; } => ok\n\
        extend A { ( [ { ] } ) } => 6\n\
        message M ; => 2\n\
        message M . N { } => 2\n\
        message 1 { } => 1\n\
        message M { } } => 4\n\
        message M { } ; ; => ok\n\
        enum E { } enum E { } => ok\n\
        service S { message M { } } => 3\n\
        service S { A x = 1 ; } => 3\n\
        service S { stream A ( B , C ) ; } => 3\n\
        ",
    );
}

#[test]
fn options(rt: HostRuntime) {
    check_outcomes(
        &rt,
        "",
        "",
        36,
        "\
        option a = ; => 3\n\
        option a = - b ; => 4\n\
        option a = - option ; => 4\n\
        option a = - - 1 ; => 4\n\
        option a = + - 1 ; => 4\n\
        option a = - 'b' ; => 4\n\
        option a = + { } ; => 4\n\
        option a = - inf . b ; => 5\n\
        option a = inf . b ; => ok\n\
        option a = 1 2 ; => 4\n\
        option a = 'b' c ; => 4\n\
        option a = b 'c' ; => 4\n\
        option a = b . 'c' ; => 5\n\
        option a = { } { } ; => 5\n\
        option a = { } b ; => 5\n\
        option a = [ 1 ] ; => 3\n\
        option a = ( b ) ; => 3\n\
        option a = < > ; => 3\n\
        option a = . b ; => 3\n\
        option a = { ) } ; => 4\n\
        option a = { [ } ] ; => 5\n\
        option a = { [ ( ] ) } ; => 6\n\
        option a = { } } ; => 5\n\
        option a . = 1 ; => 3\n\
        option . a = 1 ; => 1\n\
        option 'a' = 1 ; => 1\n\
        option ( ) = 1 ; => 2\n\
        option ( . ) = 1 ; => 3\n\
        option ( a = 1 ; => 3\n\
        option ( a . ) = 1 ; => 4\n\
        option ( ( a ) ) = 1 ; => 2\n\
        option ( a ) b = 1 ; => 4\n\
        option ( a ) . . b = 1 ; => 5\n\
        option ( a ) . ( b ) . c . ( . d ) = 1 ; => ok\n\
        option a ( b ) = 1 ; => 2\n\
        option a = 1 , b = 2 ; => 4\n\
        ",
    );
}

// A keyword at the start of a field begins another statement; after a dot or a label it is a name.
#[test]
fn fields(rt: HostRuntime) {
    check_outcomes(
        &rt,
        "",
        "",
        47,
        "\
        message M { message x = 1 ; } => 5\n\
        message M { enum x = 1 ; } => 5\n\
        message M { extend x = 1 ; } => 5\n\
        message M { oneof x = 1 ; } => 5\n\
        message M { reserved x = 1 ; } => 4\n\
        message M { optional x = 1 ; } => 5\n\
        message M { repeated x = 1 ; } => 5\n\
        message M { required x = 1 ; } => 3\n\
        message M { required int32 x = 1 ; } => 3\n\
        message M { option x = 1 ; } => ok\n\
        message M { map x = 1 ; } => ok\n\
        message M { syntax x = 1 ; import y = 2 ; package z = 3 ; service w = 4 ; rpc v = 5 ; } => ok\n\
        message M { returns x = 1 ; stream y = 2 ; to z = 3 ; max w = 4 ; weak v = 5 ; public u = 6 ; } => ok\n\
        message M { . message x = 1 ; . required y = 2 ; . map z = 3 ; . option w = 4 ; } => ok\n\
        message M { message . x y = 1 ; } => 4\n\
        message M { enum . x y = 1 ; } => 4\n\
        message M { extend . x y = 1 ; } => 6\n\
        message M { oneof . x y = 1 ; } => 4\n\
        message M { reserved . x y = 1 ; } => 4\n\
        message M { required . x y = 1 ; } => 3\n\
        message M { option . x y = 1 ; } => 4\n\
        message M { optional . x y = 1 ; } => ok\n\
        message M { optional optional = 1 ; } => 5\n\
        message M { optional required x = 1 ; } => ok\n\
        message M { repeated repeated repeated = 1 ; } => ok\n\
        message M { optional repeated int32 x = 1 ; } => 6\n\
        message M { optional map < string , A > m = 1 ; } => 5\n\
        message M { repeated map < string , A > m = 1 ; } => 5\n\
        message M { optional oneof o { } } => 6\n\
        message M { group G = 1 { } } => 7\n\
        message M { extensions 100 to 199 ; } => 4\n\
        message M { rpc A ( B ) returns ( C ) ; } => 5\n\
        message M { service S { } } => 5\n\
        message M { import 'a' ; } => 4\n\
        message M { package a ; } => 5\n\
        message M { . . A x = 1 ; } => 4\n\
        message M { A . . B x = 1 ; } => 5\n\
        message M { A . x = 1 ; } => 6\n\
        message M { A x . y = 1 ; } => 5\n\
        message M { A x = - 1 ; } => 6\n\
        message M { A x = 1.5 ; } => 6\n\
        message M { A x = max ; } => 6\n\
        message M { A x = 1 [ ] ; } => 8\n\
        message M { A x = 1 [ a = 1 , ] ; } => 12\n\
        message M { A x = 1 [ a = 1 ; ] ; } => 11\n\
        message M { A x = 1 [ a = 1 ] [ b = 2 ] ; } => 12\n\
        message M { A x = 1 { } } => 7\n\
        ",
    );
}

#[test]
fn map_fields(rt: HostRuntime) {
    check_outcomes(
        &rt,
        "message M { map < ",
        " , A > m = 1 ; }",
        21,
        "\
        int32 => ok\n\
        int64 => ok\n\
        uint32 => ok\n\
        uint64 => ok\n\
        sint32 => ok\n\
        sint64 => ok\n\
        fixed32 => ok\n\
        fixed64 => ok\n\
        sfixed32 => ok\n\
        sfixed64 => ok\n\
        bool => ok\n\
        string => ok\n\
        double => 5\n\
        float => 5\n\
        bytes => 5\n\
        A => 5\n\
        string32 => 5\n\
        message => 5\n\
        'string' => 5\n\
        . string => 5\n\
        string . A => 6\n\
        ",
    );
    check_outcomes(
        &rt,
        "",
        "",
        14,
        "\
        message M { map < string , map > map = 1 ; } => ok\n\
        message M { map < string , message > option = 1 ; } => ok\n\
        message M { map < string , map < string , A > > m = 1 ; } => 8\n\
        message M { map < string , A , B > m = 1 ; } => 8\n\
        message M { map < string > m = 1 ; } => 6\n\
        message M { map < string , > m = 1 ; } => 7\n\
        message M { map < > m = 1 ; } => 5\n\
        message M { map < string , A > = 1 ; } => 9\n\
        message M { map < string , A > . B m = 1 ; } => 9\n\
        message M { map . A < string , A > m = 1 ; } => 6\n\
        message M { . map < string , A > m = 1 ; } => 5\n\
        message M { map = 1 ; } => 4\n\
        message M { map . = 1 ; } => 5\n\
        message M { map x ; } => 5\n\
        ",
    );
}

#[test]
fn oneofs(rt: HostRuntime) {
    check_outcomes(
        &rt,
        "message M { oneof o { ",
        " } }",
        21,
        "\
        ; ; => ok\n\
        message x = 1 ; enum y = 2 ; oneof z = 3 ; extend w = 4 ; reserved v = 5 ; map u = 6 ; => ok\n\
        message . x y = 1 ; reserved . x z = 2 ; map . x w = 3 ; => ok\n\
        option x = 1 ; => ok\n\
        . option x = 1 ; . optional y = 2 ; . required z = 3 ; => ok\n\
        optional int32 x = 1 ; => 6\n\
        repeated int32 x = 1 ; => 6\n\
        required int32 x = 1 ; => 6\n\
        optional x = 1 ; => 6\n\
        optional . x y = 1 ; => 6\n\
        option . x y = 1 ; => 7\n\
        message N { } => 8\n\
        enum E { } => 8\n\
        oneof p { } => 8\n\
        extend A { } => 8\n\
        reserved 1 ; => 7\n\
        reserved 'a' ; => 7\n\
        map < string , A > m = 1 ; => 7\n\
        group G = 1 { } => 10\n\
        int32 x = - 1 ; => 9\n\
        int32 x ; => 8\n\
        ",
    );
}

#[test]
fn enums(rt: HostRuntime) {
    check_outcomes(
        &rt,
        "enum E { ",
        " }",
        22,
        "\
        message = 0 ; enum = 1 ; optional = 2 ; required = 3 ; map = 4 ; max = 5 ; to = 6 ; syntax = 7 ; => ok\n\
        option = 0 ; => 4\n\
        reserved = 0 ; => 4\n\
        option a = 0 ; => ok\n\
        message M { } => 4\n\
        enum E { } => 4\n\
        A . B = 0 ; => 4\n\
        . A = 0 ; => 3\n\
        A ; => 4\n\
        A = + 1 ; => 5\n\
        A = - - 1 ; => 6\n\
        A = 1.5 ; => 5\n\
        A = max ; => 5\n\
        A = 'a' ; => 5\n\
        A = 1 [ ] ; => 7\n\
        A = 1 , B = 2 ; => 6\n\
        reserved A ; => 4\n\
        reserved + 1 ; => 4\n\
        reserved - max ; => 5\n\
        reserved 1 to - max ; => 7\n\
        reserved - 1 to - 2 , - 3 ; => ok\n\
        reserved - 1 , - max ; => 8\n\
        ",
    );
}

// The row that begins with `\x20` has an empty list.
#[test]
fn reserved(rt: HostRuntime) {
    check_outcomes(
        &rt,
        "message M { reserved ",
        " ; }",
        20,
        "\
        1 , 2 to 3 , 4 to max , 5 to 1 => ok\n\
        - 1 => 4\n\
        1 to - 2 => 6\n\
        1 , - 2 => 6\n\
        1 , 'a' => 6\n\
        'a' , 1 => 6\n\
        'a' 'b' => 5\n\
        'a' to 'b' => 5\n\
        a => 4\n\
        \x20=> 4\n\
        max => 4\n\
        1 max => 5\n\
        1 to to => 6\n\
        1 to 2 to 3 => 7\n\
        1 to 'a' => 6\n\
        1 , max => 6\n\
        1.5 => 4\n\
        1 , => 6\n\
        'a' , => 6\n\
        ( 1 ) => 4\n\
        ",
    );
}

// `stream` at the start of a method's parentheses is always the keyword.
#[test]
fn methods(rt: HostRuntime) {
    check_outcomes(
        &rt,
        "service S { rpc ",
        " }",
        24,
        "\
        A ( stream ) returns ( B ) ; => 7\n\
        A ( stream stream ) returns ( stream stream ) ; => ok\n\
        A ( stream . stream ) returns ( . stream ) ; => ok\n\
        A ( stream stream . A ) returns ( a . stream ) ; => ok\n\
        A ( stream A B ) returns ( C ) ; => 8\n\
        A ( stream . ) returns ( C ) ; => 8\n\
        A ( stream stream stream ) returns ( C ) ; => 8\n\
        A ( A B ) returns ( C ) ; => 7\n\
        A ( A , B ) returns ( C ) ; => 7\n\
        A ( ) returns ( C ) ; => 6\n\
        A ( . . B ) returns ( C ) ; => 7\n\
        A ( B ) returns ( stream ) ; => 11\n\
        A ( B ) returns ( ) ; => 10\n\
        A ( B ) return ( C ) ; => 8\n\
        A ( B ) ; => 8\n\
        A ( ( B ) ) returns ( C ) ; => 6\n\
        A . B ( C ) returns ( D ) ; => 5\n\
        A ( B ) returns ( C ) { } ; => ok\n\
        A ( B ) returns ( C ) ; ; ; => ok\n\
        A ( B ) returns ( C ) { ; option a = b ; ; } => ok\n\
        A ( B ) returns ( C ) { rpc D ( E ) returns ( F ) ; } => 13\n\
        A ( B ) returns ( C ) [ a = b ] ; => 12\n\
        A ( B ) returns ( C ) } => 12\n\
        option ( option ) returns ( message ) ; => ok\n\
        ",
    );
}
