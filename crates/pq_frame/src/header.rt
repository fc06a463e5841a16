//! The header part of a frame: its end, and the length of the body that it gives.
//!
//! Both are found by one pass over at most 4,096 bytes.
ghost use Rattle.std.specs.Prelude.{◌≡◌, ◌↔◌, ◌+◌, ◌<◌, ◌≤◌, length, take, reverse, IfSome, IfNone, IsTrue, option_map, Result, Ok, Err};
ghost use Rattle.std.specs.Prelude.{[], ◌∷◌, MatchOption};
ghost use Rattle.pq_frame.specs.Header.{IsHeader, EndsHeader, NoHeaderBelow, trimmed, without_leading_blanks, length_text, is_length_name as length_name, is_colon, number_of, body_length, header_lines, max_header};
ghost use Rattle.std.specs.List.{position, list_all};
ghost use Rattle.std.specs.Char.{is_ascii_digit};

use crate::fault::FrameFault;

/// The length in bytes of the longest header part, with its empty line.
pub(crate) const MAX_HEADER: usize = 4096;

/// The length in bytes of the longest body.
const MAX_BODY: usize = 16_777_216;

/// Whether the last line of `bytes` is empty.
fn ends_header(bytes: &[u8]) -> bool
    ensures { IsTrue result ↔ EndsHeader bytes.now }
{
    bytes == b"\r\n".as_slice() || bytes.ends_with(b"\r\n\r\n")
}

/// The length of the header part that begins `bytes`. No prefix shorter than `from` ends one.
fn header_len(bytes: &[u8], from: usize) -> Option<usize>
    requires { NoHeaderBelow bytes.now from }
    ensures found { IfSome result (λ end. (end ≤ length bytes.now)
        × EndsHeader (take end bytes.now) × NoHeaderBelow bytes.now end) }
    ensures none { IfNone result (NoHeaderBelow bytes.now (length bytes.now + 1)) }
{
    for end in from..bytes.len() + 1 {
        if ends_header(&bytes[..end]) {
            return Some(end);
        }
    }
    None
}

/// `text` without the blanks at its start.
fn trim_start(text: &[u8]) -> &[u8]
    ensures { result.now ≡ without_leading_blanks text.now }
{
    let mut rest = text;
    while let [b' ' | b'\t', others @ ..] = rest {
        rest = others;
    }
    rest
}

/// `text` without the blanks at its end.
fn trim_end(text: &[u8]) -> &[u8]
    ensures { result.now ≡ reverse (without_leading_blanks (reverse text.now)) }
{
    let mut rest = text;
    while let [others @ .., b' ' | b'\t'] = rest {
        rest = others;
    }
    rest
}

/// `text` without the blanks at both ends.
fn trim(text: &[u8]) -> &[u8]
    ensures { result.now ≡ trimmed text.now }
{
    trim_end(trim_start(text))
}

/// The index of the first colon of `line`.
fn colon_at(line: &[u8]) -> Option<usize>
    ensures { result ≡ position is_colon line.now }
{
    line.iter().position(|b| *b == b':')
}

/// Whether `name` is Content-Length, in letters of either case.
fn is_length_name(name: &[u8]) -> bool
    ensures { result ≡ length_name name.now }
{
    name.eq_ignore_ascii_case(b"content-length")
}

/// The value of `line`, if its name is Content-Length.
#[tactic(auto, unfolding(crate::specs::Header::length_text))]
fn length_value(line: &[u8]) -> Option<&[u8]>
    ensures { option_map (λ s. s.now) result ≡ length_text line.now }
{
    match colon_at(line) {
        None => None,
        Some(colon) => {
            if is_length_name(trim(&line[..colon])) {
                Some(trim(&line[colon + 1..]))
            } else {
                None
            }
        }
    }
}

/// Whether all of `digits` are decimal digits.
fn all_digits(digits: &[u8]) -> bool
    ensures { result ≡ list_all is_ascii_digit digits.now }
{
    digits.iter().all(|b| b.is_ascii_digit())
}

/// The number that `digits` write, or the error of this value.
fn number(digits: &[u8]) -> Result<usize, FrameFault>
    ensures { result ≡ number_of digits.now }
{
    if digits.is_empty() || !all_digits(digits) {
        return Err(FrameFault::BadLength);
    }
    let mut n = 0usize;
    for b in digits {
        if n <= MAX_BODY {
            n = n * 10 + (*b - b'0') as usize;
        }
    }
    if n <= MAX_BODY {
        Ok(n)
    } else {
        Err(FrameFault::TooLong)
    }
}

/// The first line of `bytes` without its CR LF, and the bytes after it.
fn next_line(bytes: &[u8]) -> Option<(&[u8], &[u8])>
    ensures lines { MatchOption result (header_lines bytes.now ≡ [])
        (λ p. header_lines bytes.now ≡ p.0.now ∷ header_lines p.1.now) }
    ensures shorter { IfSome result (λ p. length p.1.now < length bytes.now) }
{
    for i in 0..bytes.len() {
        if bytes[i..].starts_with(b"\r\n") {
            return Some((&bytes[..i], &bytes[i + 2..]));
        }
    }
    None
}

/// The length of the body that `header` gives, or the error of `header`.
#[tactic(auto, unfolding(crate::specs::Header::body_length))]
pub(crate) fn body_len(header: &[u8]) -> Result<usize, FrameFault>
    ensures { result ≡ body_length header.now }
{
    let mut found: Option<&[u8]> = None;
    let mut rest = header;
    'lines: while let Some((line, others)) = next_line(rest) {
        if let Some(value) = length_value(line) {
            let is_second = found.is_some();
            if is_second {
                return Err(FrameFault::BadLength);
            }
            found = Some(value);
        }
        rest = others;
    }
    match found {
        Some(text) => number(text),
        None => Err(FrameFault::NoLength),
    }
}

/// The length of the header part that begins `bytes`, if its end is within 4,096 bytes.
pub(crate) fn header_at(bytes: &[u8]) -> Option<usize>
    ensures found { IfSome result
        (λ end. (end ≤ length bytes.now) × IsHeader (take end bytes.now)) }
    ensures cut { IfNone result
        (length bytes.now < max_header → NoHeaderBelow bytes.now (length bytes.now + 1)) }
    ensures long { IfNone result (max_header ≤ length bytes.now → NoHeaderBelow bytes.now (max_header + 1)) }
{
    if bytes.len() < MAX_HEADER {
        header_len(bytes, 0)
    } else {
        header_len(&bytes[..MAX_HEADER], 0)
    }
}
