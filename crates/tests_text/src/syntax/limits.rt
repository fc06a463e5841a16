//! The nesting limits: messages and brackets may be 64 deep, counting the outermost.
use super::{add_code, add_error, check_parses};
use crate::checks::{check_pages, check_row_count, check_that, split_row, text_of};
use pq_lex::Span;
use pq_syntax::{Code, Parsed, parse};
use std::alloc::Global;
use std::process::Abort;
use test_support::{Page, page_of};

/// A text that opens `count` messages, each in the one before.
fn opened_messages(alloc: Global, count: usize) -> Page {
    let mut page = page_of(alloc, "syntax='proto3';", "", "");
    page.repeat("message M{", count);
    page
}

/// A text of `piece` `count` times.
fn repeated(alloc: Global, piece: &str, count: usize) -> Page {
    let mut page = Page::new(alloc);
    page.repeat(piece, count);
    page
}

/// Checks that each of the `count` rows has a tree between `before` and `after`.
fn check_all_parse(
    rt: &(impl Abort + AllocGlobal),
    before: &str,
    after: &str,
    count: usize,
    rows: &str,
) {
    check_row_count(rt, count, rows);
    for row in rows.lines() {
        let text = page_of(rt.alloc(), before, row, after);
        check_parses(rt, text_of(rt, &text), row);
    }
}

/// Checks that the error of `text` is `code` at `span`.
fn check_found(rt: &(impl Abort + AllocGlobal), code: Code, span: Span, text: &str) {
    let mut want = Page::new(rt.alloc());
    add_code(&mut want, code, span);
    let mut found = Page::new(rt.alloc());
    add_error(&mut found, text);
    check_pages(rt, &found, &want, text);
}

/// Checks that `token`, between `before` and `after`, is the error `code`.
fn check_code(rt: &(impl Abort + AllocGlobal), code: Code, before: &str, token: &str, after: &str) {
    let text = page_of(rt.alloc(), before, token, after);
    let start = before.len();
    let end = start.wrapping_add(token.len());
    check_found(rt, code, Span { start, end }, text_of(rt, &text));
}

/// Checks the `count` rows `TOKEN|REST` between `before` and `after` by [`check_code`].
fn check_codes(
    rt: &(impl Abort + AllocGlobal),
    code: Code,
    before: &str,
    after: &str,
    count: usize,
    rows: &str,
) {
    check_row_count(rt, count, rows);
    for row in rows.lines() {
        let (token, rest) = split_row(rt, row, "|");
        let rest = page_of(rt.alloc(), rest, after, "");
        check_code(rt, code, before, token, text_of(rt, &rest));
    }
}

/// Two messages side by side in the 63rd, and one after them all.
fn two_innermost(alloc: Global, closed: &str) -> Page {
    let mut page = opened_messages(alloc, 63);
    page.add("message A{}message B{");
    page.add(closed);
    page.add("message C{}");
    page
}

#[test]
fn messages_that_are_read(rt: HostRuntime) {
    let opened = opened_messages(rt.alloc(), 64);
    let closed = repeated(rt.alloc(), "}", 64);
    check_all_parse(
        &rt,
        text_of(&rt, &opened),
        text_of(&rt, &closed),
        11,
        "\
        \n\
        ;\n\
        optional message x=1;\n\
        repeated message.message x=1;\n\
        .message x=1;\n\
        map.message x=1;\n\
        map<string,message>message=1;\n\
        oneof message{message message=1;}\n\
        enum message{message=1;}\n\
        extend message{message}\n\
        option message=message;\n\
        ",
    );
    let text = two_innermost(rt.alloc(), text_of(&rt, &closed));
    check_parses(&rt, text_of(&rt, &text), "two innermost messages");
}

/// Checks that a message after `before` is too deep, whatever follows its keyword.
fn check_too_deep(rt: &(impl Abort + AllocGlobal), before: &str) {
    let closed = repeated(rt.alloc(), "}", 1_064);
    let mut deep = page_of(rt.alloc(), " M{", "", "");
    deep.repeat("message M{", 1_000);
    deep.add(text_of(rt, &closed));
    check_code(rt, Code::TooDeep, before, "message", text_of(rt, &closed));
    check_code(rt, Code::TooDeep, before, "message", text_of(rt, &deep));
    check_codes(
        rt,
        Code::TooDeep,
        before,
        "",
        9,
        "\
        message|\n\
        message| \n\
        message| M{}\n\
        message| M\n\
        message| x=1;\n\
        message|.x y=1;\n\
        message| :\n\
        message|}\n\
        message| $\n\
        ",
    );
}

#[test]
fn messages_too_deep(rt: HostRuntime) {
    let opened = opened_messages(rt.alloc(), 64);
    check_too_deep(&rt, text_of(&rt, &opened));
    let later = "optional message x=1;oneof o{};";
    let later = page_of(rt.alloc(), text_of(&rt, &opened), later, "");
    check_too_deep(&rt, text_of(&rt, &later));
    check_codes(
        &rt,
        Code::UnexpectedToken,
        text_of(&rt, &opened),
        "",
        5,
        "\
        required|\n\
        :|\n\
        1|\n\
        ]|\n\
        'message'|\n\
        ",
    );
}

/// Whether the last statement of the tree of what was parsed has the depth `depth`.
fn ends_at(parsed: &Parsed, depth: u8) -> bool {
    match parsed {
        Parsed::Tree(file) => match file.as_slice().last() {
            Some(node) => node.depth == depth,
            None => false,
        },
        Parsed::Fault { .. } => false,
    }
}

/// Checks that the last statement of `body` within 64 messages has the depth `depth`.
fn check_depth(rt: &(impl Abort + AllocGlobal), body: &str, depth: u8) {
    let mut text = opened_messages(rt.alloc(), 64);
    text.add(body);
    text.repeat("}", 64);
    let parsed = parse(rt.alloc(), text_of(rt, &text)).expect(rt, "memory");
    check_that(rt, ends_at(&parsed, depth), body);
}

// A statement of the innermost message is in 64 others, and a field of its oneof in 65.
#[test]
fn depths(rt: HostRuntime) {
    check_depth(&rt, "", 63);
    check_depth(&rt, "A x=1;", 64);
    check_depth(&rt, "oneof o{A x=1;}", 65);
    check_depth(&rt, "enum E{A=1;}", 65);
}

/// A text whose brackets are 64 deep at its end.
fn opened_brackets(alloc: Global, opened: &str, before: &str) -> Page {
    let mut page = page_of(alloc, opened, before, "{");
    page.repeat("[({", 21);
    page
}

/// The ends of these 64 brackets, and what follows them.
fn closed_brackets(alloc: Global, after: &str, closed: &str) -> Page {
    let mut page = repeated(alloc, "})]", 21);
    page.add("}");
    page.add(after);
    page.add(closed);
    page
}

/// Checks that between `before` and `after` 64 brackets, the last a brace, may be open and no more.
fn check_brackets(rt: &(impl Abort + AllocGlobal), before: &str, after: &str) {
    check_all_parse(
        rt,
        before,
        after,
        5,
        "\
        \n\
        x\n\
        x:'y'<>;\n\
        }{\n\
        })({\n\
        ",
    );
    check_codes(
        rt,
        Code::TooDeep,
        before,
        after,
        7,
        "\
        {|}\n\
        [|]\n\
        (|)\n\
        {|\n\
        [|)\n\
        (| $\n\
        {|[({[({\n\
        ",
    );
    check_codes(
        rt,
        Code::UnexpectedToken,
        before,
        after,
        2,
        "\
        ]|\n\
        )|\n\
        ",
    );
}

/// Checks the `count` places `BEFORE|AFTER` between `opened` and `closed` by [`check_brackets`].
fn check_all_brackets(
    rt: &(impl Abort + AllocGlobal),
    opened: &str,
    closed: &str,
    count: usize,
    rows: &str,
) {
    check_row_count(rt, count, rows);
    for row in rows.lines() {
        let (before, after) = split_row(rt, row, "|");
        let before = opened_brackets(rt.alloc(), opened, before);
        let after = closed_brackets(rt.alloc(), after, closed);
        check_brackets(rt, text_of(rt, &before), text_of(rt, &after));
    }
}

// Aggregates and extend blocks of each statement that has one, then those of the innermost message.
#[test]
fn brackets(rt: HostRuntime) {
    check_all_brackets(
        &rt,
        "syntax='proto3';",
        "",
        16,
        "\
        option a=|;\n\
        extend A|\n\
        message M{extend A|}\n\
        message M{option a=|;}\n\
        message M{A x=1[a=|];}\n\
        message M{optional A x=1[a={},b=|,c={}];}\n\
        message M{map<string,A>m=1[a=|];}\n\
        message M{map m=1[a=|];}\n\
        message M{map.A m=1[a=|];}\n\
        message M{oneof o{option a=|;}}\n\
        message M{oneof o{A x=1[a=|];}}\n\
        enum E{option a=|;}\n\
        enum E{A=-1[a=|];}\n\
        message M{enum E{A=0[a=|];}}\n\
        service S{option a=|;}\n\
        service S{rpc A(B)returns(C){option a=|;}}\n\
        ",
    );
    let opened = opened_messages(rt.alloc(), 64);
    let closed = repeated(rt.alloc(), "}", 64);
    check_all_brackets(
        &rt,
        text_of(&rt, &opened),
        text_of(&rt, &closed),
        3,
        "\
        extend A|\n\
        option a=|;\n\
        A x=1[a=|];\n\
        ",
    );
}

/// Checks that the 65th of more than a thousand brackets `token` at `place` is too deep.
fn check_thousand_too_deep(rt: &(impl Abort + AllocGlobal), place: &str, token: &str) {
    let mut before = page_of(rt.alloc(), "syntax='proto3';", place, "{");
    before.repeat(token, 63);
    let inner = repeated(rt.alloc(), token, 1_000);
    check_code(
        rt,
        Code::TooDeep,
        text_of(rt, &before),
        token,
        text_of(rt, &inner),
    );
}

/// Checks each of the `count` places by [`check_thousand_too_deep`].
fn check_thousand_in_places(
    rt: &(impl Abort + AllocGlobal),
    token: &str,
    count: usize,
    places: &str,
) {
    check_row_count(rt, count, places);
    for place in places.lines() {
        check_thousand_too_deep(rt, place, token);
    }
}

#[test]
fn a_thousand_brackets(rt: HostRuntime) {
    let places = "option a=\nextend A\nmessage M{A x=1[a=";
    check_thousand_in_places(&rt, "{", 3, places);
    check_thousand_in_places(&rt, "[", 3, places);
    check_thousand_in_places(&rt, "(", 3, places);
    let closed = repeated(rt.alloc(), "}", 1_000);
    check_code(
        &rt,
        Code::UnexpectedToken,
        "syntax='proto3';message M{}",
        "}",
        text_of(&rt, &closed),
    );
}

/// Checks that the row `BEFORE|MIDDLE|AFTER` has a tree with its middle a thousand times.
fn check_thousand(rt: &(impl Abort + AllocGlobal), row: &str) {
    let (before, rest) = split_row(rt, row, "|");
    let (one, after) = split_row(rt, rest, "|");
    let mut text = page_of(rt.alloc(), "syntax='proto3';", before, "");
    text.repeat(one, 1_000);
    text.add(after);
    check_parses(rt, text_of(rt, &text), row);
}

/// Checks the `count` rows by [`check_thousand`].
fn check_thousands(rt: &(impl Abort + AllocGlobal), count: usize, rows: &str) {
    check_row_count(rt, count, rows);
    for row in rows.lines() {
        check_thousand(rt, row);
    }
}

// Statements and parts side by side have no limit.
#[test]
fn a_thousand_side_by_side(rt: HostRuntime) {
    check_thousands(
        &rt,
        17,
        "\
        |;|\n\
        |message M{}|\n\
        message M{|message N{}|}\n\
        message M{A x=1;|oneof o{}|}\n\
        message M{|A x=1;|}\n\
        message M{a|.a| x=1;}\n\
        message M{A x=1[a=1|,a=1|];}\n\
        message M{reserved 1|,1|;}\n\
        message M{reserved 'a'|,'a'|;}\n\
        enum E{|A=1;|}\n\
        service S{|rpc A(B)returns(C);|}\n\
        service S{rpc A(B)returns(C){|option a=1;|}}\n\
        import 'a'|'a'|;\n\
        option a|.(a)|=1;\n\
        option a=a|.a|;\n\
        option a={|{}|};\n\
        extend A{|[x]|}\n\
        ",
    );
}
