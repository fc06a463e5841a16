//! The form of stored sessions: a header line `NAME LENGTH`, and LENGTH bytes.
ghost use Rattle.std.specs.Prelude.{◌≡◌, ◌++◌, ◌<◌, length, IfSome};

use std::str;

/// A stored session: its name, and what its client sends.
#[derive(Clone, Copy)]
pub(crate) struct Stored<'a> {
    /// The name.
    pub(crate) name: &'a str,
    /// The bytes that the client sends.
    pub(crate) bytes: &'a [u8],
}

/// The name and the length that a header line has; `line` ends with its line feed.
fn header(line: &[u8]) -> Option<(&str, usize)> {
    let line = str::from_utf8(line).ok()?.strip_suffix('\n')?;
    let (name, length) = line.split_once(' ')?;
    let length = length.parse().ok()?;
    Some((name, length))
}

/// Splits `bytes` after `count` of them, or returns `None` if there are fewer.
fn split(bytes: &[u8], count: usize) -> Option<(&[u8], &[u8])>
    ensures { IfSome result (λ parts. (bytes.now ≡ parts.0.now ++ parts.1.now) × (length parts.0.now ≡ count)) }
{
    if count > bytes.len() {
        return None;
    }
    Some(bytes.split_at(count))
}

/// The first stored session of `input`, and the bytes after it. `None` says that `input` has no
/// whole header line, or fewer bytes than it names.
pub(crate) fn first_of(input: &[u8]) -> Option<(Stored<'_>, &[u8])>
    // At least a header comes before what is returned.
    ensures { IfSome result (λ parts. length parts.1.now < length input.now) }
{
    let end = input.iter().position(|byte| *byte == b'\n')?;
    let (line, body) = split(input, end.checked_add(1)?)?;
    let (name, length) = header(line)?;
    let (bytes, rest) = split(body, length)?;
    Some((Stored { name, bytes }, rest))
}
