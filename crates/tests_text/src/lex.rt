//! pq_lex: tokens and errors with their spans, values of tokens, lines and columns.
use crate::checks::{check_page, check_table, check_that};
use pq_lex::{Kind, Lexed, LineIndex, Position, Token, integer_value, lex, text_value};
use std::process::Abort;
use test_support::{Page, lexical_name};

/// The name of a sort of tokens.
fn kind_name(kind: Kind) -> &'static str {
    match kind {
        Kind::Identifier => "Identifier",
        Kind::Integer => "Integer",
        Kind::Float => "Float",
        Kind::Text => "Text",
        Kind::Symbol => "Symbol",
    }
}

/// Writes a token as `KIND START-END`.
fn add_token(page: &mut Page, token: &Token) {
    page.add(kind_name(token.kind));
    page.add(" ");
    page.span(token.span);
}

/// Writes the error as `CODE START-END`, or nothing.
fn add_error(page: &mut Page, lexed: &Lexed) {
    if let Some((span, code)) = lexed.fault {
        page.add(lexical_name(code));
        page.add(" ");
        page.span(span);
    }
}

/// Writes the tokens, each with a semicolon after it, and the error.
fn add_tokens(page: &mut Page, lexed: &Lexed) {
    for token in &lexed.tokens {
        add_token(page, token);
        page.add(";");
    }
    add_error(page, lexed);
}

/// Writes the tokens of `text`, each with a semicolon after it, and its error.
fn show_tokens(page: &mut Page, text: &str) {
    match lex(page.alloc, text) {
        Ok(lexed) => add_tokens(page, &lexed),
        Err(_) => page.cut(),
    }
}

/// Checks that the tokens and the error of `text` are `want`.
fn check_tokens(rt: &(impl Abort + AllocGlobal), text: &str, want: &str) {
    let mut page = Page::new(rt.alloc());
    show_tokens(&mut page, text);
    check_page(rt, &page, want, text);
}

/// Writes the first token.
fn add_first(page: &mut Page, lexed: &Lexed) {
    if let Some(token) = lexed.tokens.first() {
        add_token(page, token);
    }
}

/// Writes the first token of `text`.
fn show_first(page: &mut Page, text: &str) {
    match lex(page.alloc, text) {
        Ok(lexed) => add_first(page, &lexed),
        Err(_) => page.cut(),
    }
}

/// Writes the number of tokens, and the error.
fn add_count(page: &mut Page, lexed: &Lexed) {
    page.number(lexed.tokens.len());
    page.add(" ");
    add_error(page, lexed);
}

/// Writes the number of tokens of `text`, and its error.
fn show_error(page: &mut Page, text: &str) {
    match lex(page.alloc, text) {
        Ok(lexed) => add_count(page, &lexed),
        Err(_) => page.cut(),
    }
}

/// Checks the number of tokens of `text`, and its error, against `want`.
fn check_error(rt: &(impl Abort + AllocGlobal), text: &str, want: &str) {
    let mut page = Page::new(rt.alloc());
    show_error(&mut page, text);
    check_page(rt, &page, want, text);
}

/// Writes the value of a token of `text` as an integer, `none` past 64 bits.
fn add_integer(page: &mut Page, text: &str, token: &Token) {
    match integer_value(text, token) {
        Some(value) => page.wide(value),
        None => page.add("none"),
    }
}

/// Writes the value of the only token as an integer, or how many tokens there are.
fn add_only(page: &mut Page, text: &str, lexed: &Lexed) {
    match lexed.tokens.as_slice() {
        [token] => add_integer(page, text, token),
        tokens => {
            page.number(tokens.len());
            page.add(" tokens");
        }
    }
}

/// Writes the value of `text`, which is one token, as an integer, `none` past 64 bits.
///
/// Another token has no value as an integer.
fn show_integer(page: &mut Page, text: &str) {
    match lex(page.alloc, text) {
        Ok(lexed) => add_only(page, text, &lexed),
        Err(_) => page.cut(),
    }
}

/// Whether there is one token and no error, and the token of `text` has as a string the value
/// `want`.
fn has_value(rt: &(impl Abort + AllocGlobal), text: &str, lexed: &Lexed, want: &[u8]) -> bool {
    match lexed.tokens.as_slice() {
        [token] => {
            let value = text_value(rt.alloc(), text, token).expect(rt, "memory");
            lexed.fault.is_none() && value.as_slice() == want
        }
        _ => false,
    }
}

/// Checks that `text` is one token whose value as a string is `want`.
fn check_string(rt: &(impl Abort + AllocGlobal), text: &str, want: &[u8]) {
    let lexed = lex(rt.alloc(), text).expect(rt, "memory");
    check_that(rt, has_value(rt, text, &lexed, want), text);
}

#[test]
fn single_tokens(rt: HostRuntime) {
    let rows = "\
        _a9  => Identifier 0-3\n\
        0x1F; => Integer 0-4\n\
        00 => Integer 0-2\n\
        1. => Float 0-2\n\
        .5 => Float 0-2\n\
        1.e3 => Float 0-4\n\
        1e5 => Float 0-3\n\
        09.5E-12+ => Float 0-8\n\
        'a\"\\'' => Text 0-6\n\
        \u{feff}a => Identifier 3-4\n\
        / => Symbol 0-1\n\
        . => Symbol 0-1\n\
        ";
    check_table(&rt, 12, rows, show_first);
    check_tokens(&rt, " \t//x\n/**//***/a", "Identifier 15-16;");
}

#[test]
fn whole_texts(rt: HostRuntime) {
    check_tokens(
        &rt,
        "a=0x1F;",
        "Identifier 0-1;Symbol 1-2;Integer 2-6;Symbol 6-7;",
    );
    for text in ["", "\u{feff}", "//x", "/**/", " \n", "/*/*/"] {
        check_tokens(&rt, text, "");
    }
}

#[test]
fn errors(rt: HostRuntime) {
    let rows = "\
        /*/ => 0 UnclosedComment 0-2\n\
        a /* b => 1 UnclosedComment 2-4\n\
        a/* => 1 UnclosedComment 1-3\n\
        'a => 0 UnclosedString 0-1\n\
        a '\0' => 1 UnclosedString 2-3\n\
        a \" => 1 UnclosedString 2-3\n\
        '\\q' => 0 BadEscape 1-2\n\
        a 'b\\ => 1 BadEscape 4-5\n\
        '\\400' => 0 BadEscape 1-2\n\
        '\\x' => 0 BadEscape 1-2\n\
        '\\u12' => 0 BadEscape 1-2\n\
        '\\ud83d' => 0 BadEscape 1-2\n\
        '\\ude00' => 0 BadEscape 1-2\n\
        '\\ud83d\\u0041' => 0 BadEscape 1-2\n\
        'a\\U00110000' => 0 BadEscape 2-3\n\
        '\\U0000d800' => 0 BadEscape 1-2\n\
        09 => 0 NumberRunsOn 0-1\n\
        08 => 0 NumberRunsOn 0-1\n\
        0x => 0 NumberRunsOn 0-1\n\
        a 12x b => 1 NumberRunsOn 2-4\n\
        1e+ => 0 NumberRunsOn 0-1\n\
        a=1.5x => 2 NumberRunsOn 2-5\n\
        1_ => 0 NumberRunsOn 0-1\n\
        1\u{e9} => 1 OtherCharacter 1-3\n\
        #a => 0 OtherCharacter 0-1\n\
        a \u{1f600} b => 1 OtherCharacter 2-6\n\
        a\u{feff} => 1 OtherCharacter 1-4\n\
        a\0 => 1 OtherCharacter 1-2\n\
        ";
    check_table(&rt, 28, rows, show_error);
    check_error(&rt, "a 'b\nc'", "1 UnclosedString 2-3");
    check_error(&rt, "'\\q\n", "0 BadEscape 1-2");
    check_error(&rt, "a 'b\\\n'", "1 BadEscape 4-5");
}

#[test]
fn integers(rt: HostRuntime) {
    let rows = "\
        0x1F => 31\n\
        0Xff => 255\n\
        017 => 15\n\
        0 => 0\n\
        120 => 120\n\
        18446744073709551615 => 18446744073709551615\n\
        18446744073709551616 => none\n\
        0xFFFFFFFFFFFFFFFF => 18446744073709551615\n\
        0x10000000000000000 => none\n\
        1e2 => none\n\
        ";
    check_table(&rt, 10, rows, show_integer);
}

// A token that is not a string has an empty value.
#[test]
fn strings(rt: HostRuntime) {
    check_string(
        &rt,
        "'a\\a\\b\\f\\n\\r\\t\\v\\\\\\'\\\"z'",
        b"a\x07\x08\x0c\n\r\t\x0b\\'\"z",
    );
    check_string(&rt, "'\\x41\\X4g\\x5'", b"A\x04g\x05");
    check_string(&rt, "'\\101\\1018\\7\\377'", b"AA8\x07\xff");
    check_string(&rt, "'\\u00e9'", b"\xc3\xa9");
    check_string(&rt, "'\\ud83d\\ude00'", b"\xf0\x9f\x98\x80");
    check_string(&rt, "'\\U0001F600\\u20ac'", b"\xf0\x9f\x98\x80\xe2\x82\xac");
    check_string(&rt, "''", b"");
    check_string(&rt, "a", b"");
}

/// Checks that the offset `offset` of the index's text is at `line` and `character`.
fn check_position(
    rt: &impl Abort,
    index: &LineIndex,
    offset: usize,
    line: usize,
    character: usize,
) {
    let found = index.position(offset);
    check_that(rt, found == Position { line, character }, "a position");
}

/// Checks that `line` and `character` are the offset `want` of the index's text.
fn check_offset(
    rt: &impl Abort,
    index: &LineIndex,
    line: usize,
    character: usize,
    want: Option<usize>,
) {
    let found = index.offset(Position { line, character });
    check_that(rt, found == want, "an offset");
}

#[test]
fn positions(rt: HostRuntime) {
    let index = LineIndex::new(rt.alloc(), "a\u{1f600}b\rc").expect(&rt, "memory");
    check_position(&rt, &index, 5, 0, 3);
    check_position(&rt, &index, 7, 1, 0);
    check_offset(&rt, &index, 0, 2, Some(1));
    check_offset(&rt, &index, 0, 99, Some(6));
    check_offset(&rt, &index, 2, 0, None);
}
