//! pq_syntax: rows worked out by hand from the published grammar.
//! Trees are read back with their spans; errors are found at each token and at each limit.
mod constants;
mod equality;
mod faults;
mod keywords;
mod limits;
mod loose;
mod places;
mod shown;
mod trees;

use crate::checks::check_page;
use pq_lex::Span;
use pq_syntax::{Code, Parsed, parse};
use std::process::Abort;
use test_support::{Page, lexical_name};

/// The name of a syntax error.
fn code_name(code: Code) -> &'static str {
    match code {
        Code::Lexical(code) => lexical_name(code),
        Code::OnlyProto3 => "OnlyProto3",
        Code::TooDeep => "TooDeep",
        Code::UnexpectedToken => "UnexpectedToken",
        Code::UnexpectedEnd => "UnexpectedEnd",
    }
}

/// Writes the error `code` at `span` as `NAME START-END`.
fn add_code(page: &mut Page, code: Code, span: Span) {
    page.add(code_name(code));
    page.add(" ");
    page.span(span);
}

/// Writes the error of what was parsed as `NAME START-END`, or `none` if there is a tree.
fn add_fault(page: &mut Page, parsed: &Parsed) {
    match parsed {
        Parsed::Tree(_) => page.add("none"),
        Parsed::Fault { span, code } => add_code(page, *code, *span),
    }
}

/// Writes the error of `text` as `NAME START-END`, or `none` if it has a tree.
fn add_error(page: &mut Page, text: &str) {
    match parse(page.alloc, text) {
        Ok(parsed) => add_fault(page, &parsed),
        Err(_) => page.cut(),
    }
}

/// Tokens after a syntax line, and their spans.
#[derive(Drop)]
struct Tokens {
    text: Page,
    spans: Vec<Span>,
}

impl Tokens {
    /// Adds a token.
    fn add(&mut self, token: &str) {
        self.text.add(" ");
        let start = self.text.len();
        self.text.add(token);
        let end = self.text.len();
        if self.spans.push(Span { start, end }).is_err() {
            self.text.cut();
        }
    }

    /// Adds `tokens`, the one numbered `changed` replaced by `other`.
    fn add_all(&mut self, tokens: &str, changed: usize, other: &str) {
        self.text.add("syntax = 'proto3';");
        for (i, token) in tokens.split_whitespace().enumerate() {
            self.add(if i == changed { other } else { token });
        }
    }
}

/// Writes the number of the token at `span`, or the error there if it is no token.
fn add_number(page: &mut Page, spans: &[Span], span: Span) {
    for (i, one) in spans.iter().enumerate() {
        if *one == span {
            page.number(i);
            return;
        }
    }
    add_code(page, Code::UnexpectedToken, span);
}

/// Writes the error `code` at `span` of a text of `len` bytes with tokens at `spans`.
fn add_place(page: &mut Page, len: usize, spans: &[Span], code: Code, span: Span) {
    match code {
        Code::UnexpectedEnd if span.start == len && span.end == len => page.add("end"),
        Code::UnexpectedToken => add_number(page, spans, span),
        _ => add_code(page, code, span),
    }
}

/// Writes the outcome `parsed` of a text of `len` bytes with tokens at `spans`.
fn add_parsed(page: &mut Page, len: usize, spans: &[Span], parsed: &Parsed) {
    match parsed {
        Parsed::Tree(_) => page.add("ok"),
        Parsed::Fault { span, code } => add_place(page, len, spans, *code, *span),
    }
}

/// Writes the outcome of parsing `tokens`.
fn add_outcome_of(page: &mut Page, tokens: &Tokens) {
    let text = page.rest_on(&tokens.text);
    match parse(page.alloc, text) {
        Ok(parsed) => add_parsed(page, text.len(), &tokens.spans, &parsed),
        Err(_) => page.cut(),
    }
}

/// Writes the outcome of parsing `tokens` with the one numbered `changed` replaced by `other`.
///
/// It is `ok`, `end` for an unexpected end, or the number of the unexpected token.
fn add_outcome(page: &mut Page, tokens: &str, changed: usize, other: &str) {
    let mut all = Tokens {
        text: Page::new(page.alloc),
        spans: Vec::new(page.alloc),
    };
    all.add_all(tokens, changed, other);
    add_outcome_of(page, &all);
}

/// Checks that `text` has a tree; `row` names the text.
fn check_parses(rt: &(impl Abort + AllocGlobal), text: &str, row: &str) {
    let mut page = Page::new(rt.alloc());
    add_error(&mut page, text);
    check_page(rt, &page, "none", row);
}
