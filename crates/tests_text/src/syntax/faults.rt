//! Statements with a token replaced, removed or last; errors of the syntax line and of tokens.
use super::{add_error, add_outcome, check_parses, code_name};
use crate::checks::{check_page, check_row_count, split_row, text_of};
use pq_syntax::Code;
use std::process::Abort;
use test_support::{Page, page_of};

/// Writes the outcomes of parsing `tokens` with each in turn replaced by `other`.
fn add_outcomes(page: &mut Page, tokens: &str, other: &str) {
    for (i, _) in tokens.split_whitespace().enumerate() {
        page.add(if i == 0 { "" } else { " " });
        add_outcome(page, tokens, i, other);
    }
}

/// Writes the numbers of `tokens`, from 0.
fn add_counted(page: &mut Page, tokens: &str) {
    for (i, _) in tokens.split_whitespace().enumerate() {
        page.add(if i == 0 { "" } else { " " });
        page.number(i);
    }
}

/// Writes the error of `text` as `NUMBER ERROR`, if it is not an unexpected end at its end.
fn add_end(page: &mut Page, number: usize, text: &Page) {
    let mut found = Page::new(page.alloc);
    add_error(&mut found, page.rest_on(text));
    let mut end = page_of(page.alloc, "UnexpectedEnd ", "", "");
    end.number(text.len());
    end.add("-");
    end.number(text.len());
    let end = page.rest_on(&end);
    let found = page.rest_on(&found);
    if found != end {
        page.number(number);
        page.add(" ");
        page.add(found);
    }
}

/// Writes the outcomes of ending the text after each of `tokens`, other than an unexpected end.
fn add_ends(page: &mut Page, tokens: &str) {
    let mut text = page_of(page.alloc, "syntax = 'proto3';", "", "");
    for (i, token) in tokens.split_whitespace().enumerate() {
        text.add(" ");
        text.add(token);
        add_end(page, i, &text);
    }
}

/// Checks the outcomes of ending `tokens` after each: they end unexpectedly after any but the last.
fn check_ends(rt: &(impl Abort + AllocGlobal), tokens: &str) {
    let mut found = Page::new(rt.alloc());
    add_ends(&mut found, tokens);
    let mut last = Page::new(rt.alloc());
    last.number(tokens.split_whitespace().count().saturating_sub(1));
    last.add(" none");
    check_page(rt, &found, text_of(rt, &last), tokens);
}

/// Checks the outcomes of `tokens` with each in turn replaced by `other`.
fn check_replaced(rt: &(impl Abort + AllocGlobal), tokens: &str, other: &str, want: &str) {
    let mut found = Page::new(rt.alloc());
    add_outcomes(&mut found, tokens, other);
    check_page(rt, &found, want, tokens);
}

/// Checks the outcomes of `tokens` with a colon for each, and with each removed.
///
/// Cut short after any token but the last, they end unexpectedly.
fn check_outcomes(rt: &(impl Abort + AllocGlobal), tokens: &str, replaced: &str, left_out: &str) {
    check_replaced(rt, tokens, ":", replaced);
    check_replaced(rt, tokens, "", left_out);
    check_ends(rt, tokens);
}

/// Checks the row `TOKENS => REMOVED` by [`check_outcomes`]; a colon is always an error.
fn check_row(rt: &(impl Abort + AllocGlobal), tokens: &str, left_out: &str) {
    let mut numbers = Page::new(rt.alloc());
    add_counted(&mut numbers, tokens);
    check_outcomes(rt, tokens, text_of(rt, &numbers), left_out);
}

/// Checks the `count` rows `TOKENS => REMOVED` by [`check_row`].
fn check_all_outcomes(rt: &(impl Abort + AllocGlobal), count: usize, rows: &str) {
    check_row_count(rt, count, rows);
    for row in rows.lines() {
        let (tokens, left_out) = split_row(rt, row, " => ");
        check_row(rt, tokens, left_out);
    }
}

/// Checks that `text` has the error `code` at `place`, as `START-END`.
fn check_error(rt: &(impl Abort + AllocGlobal), code: Code, text: &str, place: &str) {
    let want = page_of(rt.alloc(), code_name(code), " ", place);
    let mut found = Page::new(rt.alloc());
    add_error(&mut found, text);
    check_page(rt, &found, text_of(rt, &want), text);
}

/// Checks the `count` rows `TEXT => START-END` by [`check_error`].
fn check_errors(rt: &(impl Abort + AllocGlobal), code: Code, count: usize, rows: &str) {
    check_row_count(rt, count, rows);
    for row in rows.lines() {
        let (text, place) = split_row(rt, row, " => ");
        check_error(rt, code, text, place);
    }
}

#[test]
fn a_value_without_a_number(rt: HostRuntime) {
    check_error(
        &rt,
        Code::UnexpectedToken,
        "syntax = \"proto3\"; enum E { A; }",
        "29-30",
    );
    let whole = "syntax = \"proto3\"; enum E { A = 0; }";
    check_parses(&rt, whole, whole);
    check_error(&rt, Code::OnlyProto3, "", "0-0");
}

// The grammar has a colon only between brackets that are skipped. After the tokens come the
// outcomes with each in turn removed: the number of the unexpected token, `end`, or `ok`.
#[test]
fn each_token(rt: HostRuntime) {
    check_all_outcomes(
        &rt,
        20,
        "\
        import 'a' ; => 1 2 end\n\
        import public 'a' 'b' ; => 1 ok ok ok end\n\
        package a . b ; => 1 2 3 4 end\n\
        option a = b . c ; => 1 2 3 4 5 6 end\n\
        option a = + inf ; => 1 2 3 ok 5 end\n\
        option a = 1.5 ; => 1 2 3 4 end\n\
        option a = 'b' \"c\" ; => 1 2 3 ok ok end\n\
        option ( . a . b ) . c = - 1 ; => 1 2 ok 4 5 6 9 8 9 10 ok 12 end\n\
        message M { ; } => 1 2 3 ok end\n\
        message M { message N { } } => 1 2 3 5 5 6 end end\n\
        message M { int32 x = 1 ; } => 1 2 3 5 5 6 7 8 end\n\
        message M { optional . a . B x = 1 [ a = 1 , b = 2 ] ; } => \
            1 2 3 ok ok 6 8 9 9 10 11 12 13 14 15 16 17 18 19 20 21 end\n\
        message M { map < string , . a . B > m = 1 [ c = d ] ; } => \
            1 2 3 4 6 6 7 ok 9 10 11 12 13 14 15 16 17 18 19 20 21 end\n\
        message M { map . a x = 1 ; } => 1 2 3 ok 6 7 7 8 9 10 end\n\
        message M { oneof o { option a = b ; . A x = 1 [ c = d ] ; } } => \
            1 2 3 5 5 6 8 8 9 10 13 ok 14 14 15 16 17 18 19 20 21 22 end end\n\
        message M { reserved 1 to 2 , 3 , 4 to max ; } => 1 2 3 4 5 6 7 8 9 10 11 12 13 14 end\n\
        message M { reserved 'a' , \"b\" ; } => 1 2 3 4 5 6 7 8 end\n\
        enum E { option a = b ; A = - 1 [ c = d ] ; reserved - 3 to - 2 , 5 to max ; reserved 'x' , 'y' ; } => \
            1 2 3 6 5 6 7 8 9 10 ok 12 13 14 15 16 17 18 19 ok 21 22 ok 24 25 26 27 28 29 30 31 32 33 34 end\n\
        service S { option a = b ; rpc A ( stream . B ) returns ( C ) { option c = d ; } } => \
            1 2 3 4 5 6 7 8 9 10 11 ok ok 14 15 16 17 18 19 20 21 22 23 24 25 end end\n\
        service S { rpc A ( B ) returns ( stream C ) ; rpc D ( E ) returns ( F ) { } } => \
            1 2 3 4 5 6 7 8 9 10 ok 12 13 14 15 16 17 18 19 20 21 22 23 24 end end\n\
        ",
    );
}

// First with a colon for each token, then with each removed.
#[test]
fn each_token_of_blocks(rt: HostRuntime) {
    check_outcomes(
        &rt,
        "option a = { b [ ( c ) ] } ;",
        "0 1 2 3 ok 9 8 ok 9 10 end 11",
        "1 2 3 5 ok 9 8 ok 9 10 end end",
    );
    check_outcomes(
        &rt,
        "extend . a . B { x }",
        "0 1 2 3 4 5 ok end",
        "1 ok 3 4 5 6 ok end",
    );
    check_outcomes(
        &rt,
        "message M { extend A { } }",
        "0 1 2 3 4 5 end 7",
        "1 2 3 5 5 6 end end",
    );
    check_outcomes(
        &rt,
        "message M { A x = 1 [ a = { } , b = { [ ] } ] ; }",
        "0 1 2 3 4 5 6 7 8 9 10 19 12 13 14 15 17 18 19 19 20 21",
        "1 2 3 5 5 6 7 8 9 10 11 19 13 14 15 16 17 18 19 20 21 end",
    );
}

#[test]
fn syntax_lines(rt: HostRuntime) {
    check_errors(
        &rt,
        Code::OnlyProto3,
        12,
        "\
        // c => 4-4\n\
        \u{feff} => 3-3\n\
        message M {} => 0-7\n\
        edition = '2023'; => 0-7\n\
        ; syntax = 'proto3'; => 0-1\n\
        'proto3' => 0-8\n\
        = = 'proto3'; message M {} => 0-1\n\
        = 'proto3'; message M {} => 0-1\n\
        syntax = 'proto2'; => 9-17\n\
        syntax = '' 'proto3'; => 9-11\n\
        syntax = \"pro\" \"to3\"; => 9-14\n\
        syntax = 'proto33' $ => 9-18\n\
        ",
    );
    check_error(&rt, Code::OnlyProto3, "", "0-0");
    check_error(&rt, Code::OnlyProto3, " \n\t", "3-3");
    check_errors(
        &rt,
        Code::UnexpectedToken,
        11,
        "\
        syntax = \"proto3\" \"\"; => 18-20\n\
        syntax : 'proto3'; => 7-8\n\
        syntax 'proto3'; => 7-15\n\
        syntax = :; => 9-10\n\
        syntax = ; => 9-10\n\
        syntax = proto3; => 9-15\n\
        syntax = 3; => 9-10\n\
        syntax = 'proto3':  => 17-18\n\
        syntax = 'proto3' message M {} => 18-25\n\
        syntax = 'proto3'; syntax = 'proto3'; => 19-25\n\
        syntax = \"proto3\"; enum E { A } => 30-31\n\
        ",
    );
    check_errors(
        &rt,
        Code::UnexpectedEnd,
        3,
        "\
        syntax => 6-6\n\
        syntax = /**/ => 13-13\n\
        syntax = 'proto3' => 17-17\n\
        ",
    );
}

#[test]
fn lexical_faults(rt: HostRuntime) {
    let other = Code::Lexical(pq_lex::Code::OtherCharacter);
    let comment = Code::Lexical(pq_lex::Code::UnclosedComment);
    let string = Code::Lexical(pq_lex::Code::UnclosedString);
    let escape = Code::Lexical(pq_lex::Code::BadEscape);
    let number = Code::Lexical(pq_lex::Code::NumberRunsOn);
    check_errors(
        &rt,
        other,
        4,
        "\
        $ => 0-1\n\
        syntax = 'proto3'; $ => 19-20\n\
        syntax = 'proto3'; message M { int32 x = 1$; } => 42-43\n\
        syntax = 'proto3'; option a = { [ $ => 34-35\n\
        ",
    );
    check_errors(
        &rt,
        comment,
        2,
        "\
        /* => 0-2\n\
        syntax = 'proto3'; message M {} /* => 32-34\n\
        ",
    );
    check_error(&rt, string, "syntax = 'proto3", "9-10");
    check_error(&rt, escape, "syntax = 'proto3'; import 'a\\q';", "28-29");
    check_error(
        &rt,
        number,
        "syntax = 'proto3'; message M { int32 x = 08; }",
        "41-42",
    );
    check_errors(
        &rt,
        Code::UnexpectedToken,
        2,
        "\
        syntax = 'proto3'; extend A { ] $ => 30-31\n\
        syntax = 'proto3'; = $ => 19-20\n\
        ",
    );
}
