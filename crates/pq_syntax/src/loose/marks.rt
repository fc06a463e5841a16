//! What one token is to the statements that braces show: a keyword of a file's level, the first of its
//! line, a name. One function for each definition of `specs/Loose`.
ghost use Rattle.std.specs.Prelude.{◌≡◌, ◌&&◌, ◌<◌, ◌∷◌, codes, true};
ghost use Rattle.pq_syntax.specs.Loose.{can_begin, follows_blank, is_anew, is_blank, is_first_on_line, is_name, is_word, other_words, starts_line};
ghost use Rattle.pq_syntax.specs.Words.{accepts_class, among, word};
ghost use Rattle.pq_syntax.specs.Words.Class.{OneOf};

use crate::terminal::{same, spelling};
use pq_lex::{Kind, Token};

/// Whether `offset` is the start of `text` or follows an LF.
fn starts_line(text: &str, offset: usize) -> bool
    ensures { result ≡ starts_line text.now offset }
{
    if offset == 0 {
        return true;
    }
    let bytes = text.as_bytes();
    offset <= bytes.len() && bytes[offset - 1] == b'\n'
}

/// Whether `spelled` is a keyword of the statements of a file but for `syntax`.
fn is_other_word(spelled: &[u8]) -> bool
    ensures { result ≡ among spelled.now other_words }
{
    same(spelled, b"import")
        || same(spelled, b"package")
        || same(spelled, b"option")
        || same(spelled, b"message")
        || same(spelled, b"enum")
        || same(spelled, b"service")
        || same(spelled, b"extend")
}

/// Whether `token` is a keyword of the statements of a file.
fn is_file_word(text: &str, token: Token) -> bool
    ensures { result ≡ accepts_class (OneOf (codes "syntax" ∷ other_words)) (word text.now token) }
{
    let spelled = spelling(text, token.span);
    matches!(token.kind, Kind::Identifier) && (same(spelled, b"syntax") || is_other_word(spelled))
}

/// Whether `token` is anew: a keyword of a statement of a file, at the start of a line.
#[tactic(auto, unfolding(crate::specs::Loose::is_anew))]
pub(crate) fn is_anew(text: &str, token: Token) -> bool
    ensures { result ≡ is_anew text.now (word text.now token) }
{
    is_file_word(text, token) && starts_line(text, token.span.start)
}

/// Whether `byte` is a space or a tab.
fn is_blank(byte: u8) -> bool
    ensures { result ≡ is_blank byte }
{
    byte == b' ' || byte == b'\t'
}

/// Whether `offset` follows a space or a tab.
fn follows_blank(text: &str, offset: usize) -> bool
    ensures is { result ≡ follows_blank text.now offset }
    ensures within { result ≡ true → 0 < offset }
{
    if offset == 0 {
        return false;
    }
    let bytes = text.as_bytes();
    offset <= bytes.len() && is_blank(bytes[offset - 1])
}

/// Whether only blanks are before `offset` in its line.
fn is_first_on_line(text: &str, offset: usize) -> bool
    ensures { result ≡ is_first_on_line text.now offset }
{
    let mut at = offset;
    'blanks: while follows_blank(text, at) {
        at -= 1;
    }
    starts_line(text, at)
}

/// Whether a statement can begin at `token`, whatever is before it: the token is anew, or the first
/// of its line.
#[tactic(auto, unfolding(crate::specs::Loose::can_begin))]
pub(crate) fn can_begin(text: &str, token: Token) -> bool
    ensures { result ≡ can_begin text.now (word text.now token) }
{
    is_anew(text, token) || is_first_on_line(text, token.span.start)
}

/// Whether `token` is a keyword of the statements of a file, and the first of its line.
fn is_first_word(text: &str, token: Token) -> bool
    ensures { result ≡ (accepts_class (OneOf (codes "syntax" ∷ other_words)) (word text.now token) && is_first_on_line text.now token.span.start) }
{
    is_file_word(text, token) && is_first_on_line(text, token.span.start)
}

/// Whether `token` is a name within a statement.
#[tactic(auto, unfolding(crate::specs::Loose::is_name))]
pub(crate) fn is_name(text: &str, token: Token) -> bool
    ensures { result ≡ is_name text.now (word text.now token) }
{
    matches!(token.kind, Kind::Identifier) && !is_first_word(text, token)
}

/// Whether `token` is the name `name`.
pub(crate) fn is_word(text: &str, token: Token, name: &[u8]) -> bool
    ensures { result ≡ is_word name.now (word text.now token) }
{
    matches!(token.kind, Kind::Identifier) && same(spelling(text, token.span), name)
}

/// Whether `token` is a keyword of the statements of a file but for `syntax`.
pub(crate) fn is_other(text: &str, token: Token) -> bool
    ensures { result ≡ accepts_class (OneOf other_words) (word text.now token) }
{
    matches!(token.kind, Kind::Identifier) && is_other_word(spelling(text, token.span))
}
