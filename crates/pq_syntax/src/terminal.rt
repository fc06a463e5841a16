//! The terminals of the grammar, and the tokens that each accepts.
//!
//! A keyword of proto3 is a name that its position makes a keyword, so several terminals accept one
//! token. `accepts` looks at a token's kind and spelling alone; only `is_version` reads the value
//! of a string.

ghost use Rattle.pq_syntax.specs.Words.{accepts, among, brackets, enum_words, is_float, is_identifier, is_integer, is_symbol, is_text, is_version, key_types, message_words, oneof_words, word};
ghost use Rattle.pq_syntax.specs.declared.terminal.Terminal.TheVariants.{Version};
ghost use Rattle.pq_lex.specs.Values.{spelling};
ghost use Rattle.std.specs.Prelude.{◌≡◌, IfOk, false};
ghost use Rattle.std.specs.Str.{bytes_eq};

use crate::Memory;
use pq_lex::{Kind, Span, Token, text_value};
use std::alloc::Global;

/// A terminal of the grammar. A terminal `XWord` accepts the keyword `x`, where nothing else is
/// said.
#[derive(Clone, Copy)]
pub(crate) enum Terminal {
    SyntaxWord,
    ImportWord,
    PackageWord,
    OptionWord,
    MessageWord,
    EnumWord,
    ServiceWord,
    /// `rpc`.
    MethodWord,
    ReturnsWord,
    StreamWord,
    OneofWord,
    MapWord,
    ReservedWord,
    ExtendWord,
    ToWord,
    MaxWord,
    /// `public` or `weak`.
    ImportKindWord,
    /// `optional` or `repeated`.
    LabelWord,
    /// A scalar type that a map's key may have.
    KeyTypeName,
    /// `inf` or `nan`.
    InfOrNan,
    /// A name, a keyword included.
    AnyIdentifier,
    /// A name that can begin the type of a field without a label: no keyword of a message's other
    /// statements.
    FieldTypeName,
    /// A name that can begin the type of a field of a oneof.
    MemberTypeName,
    /// A name that can begin a value of an enum.
    ValueName,
    /// A name other than `stream`.
    MethodTypeName,
    /// An integer.
    AnyInteger,
    /// A float.
    AnyFloat,
    /// A string.
    AnyText,
    /// A string whose value is `proto3`.
    Version,
    Semicolon,
    Equals,
    Comma,
    Dot,
    Minus,
    Plus,
    OpenBrace,
    CloseBrace,
    OpenBracket,
    CloseBracket,
    OpenParenthesis,
    CloseParenthesis,
    Less,
    Greater,
    /// Any token but a brace, a bracket or a parenthesis.
    Plain,
}

/// The bytes of `span`, or the empty slice if `span` does not lie in `text`.
#[inline(always)]
pub(crate) fn spelling(text: &str, span: Span) -> &[u8]
    ensures { result.now ≡ spelling text.now span }
{
    let bytes = text.as_bytes();
    if span.start <= span.end && span.end <= bytes.len() {
        &bytes[span.start..span.end]
    } else {
        &[]
    }
}

/// Whether two spellings are equal.
#[inline(always)]
pub(crate) fn same(left: &[u8], right: &[u8]) -> bool
    ensures { result ≡ bytes_eq left.now right.now }
{
    left == right
}

/// Whether `kind` is that of names.
fn is_identifier(kind: Kind) -> bool
    ensures { result ≡ is_identifier kind }
{
    matches!(kind, Kind::Identifier)
}

/// Whether `kind` is that of integers.
fn is_integer(kind: Kind) -> bool
    ensures { result ≡ is_integer kind }
{
    matches!(kind, Kind::Integer)
}

/// Whether `kind` is that of floats.
fn is_float(kind: Kind) -> bool
    ensures { result ≡ is_float kind }
{
    matches!(kind, Kind::Float)
}

/// Whether `kind` is that of strings.
fn is_text(kind: Kind) -> bool
    ensures { result ≡ is_text kind }
{
    matches!(kind, Kind::Text)
}

/// Whether `kind` is that of symbols.
fn is_symbol(kind: Kind) -> bool
    ensures { result ≡ is_symbol kind }
{
    matches!(kind, Kind::Symbol)
}

/// Whether a name is a keyword of a message's statements other than plain fields. The first byte
/// rules out most names.
fn is_message_word(spelled: &[u8]) -> bool
    ensures { result ≡ among spelled.now message_words }
{
    if spelled.is_empty() {
        return false;
    }
    match spelled[0] {
        b'm' => same(spelled, b"message") || same(spelled, b"map"),
        b'e' => same(spelled, b"enum") || same(spelled, b"extend"),
        b'o' => {
            same(spelled, b"option") || same(spelled, b"oneof") || same(spelled, b"optional")
        }
        b'r' => {
            same(spelled, b"reserved") || same(spelled, b"repeated") || same(spelled, b"required")
        }
        _ => false,
    }
}

/// Whether a name cannot begin the type of a field of a oneof.
fn is_oneof_word(spelled: &[u8]) -> bool
    ensures { result ≡ among spelled.now oneof_words }
{
    same(spelled, b"option")
        || same(spelled, b"optional")
        || same(spelled, b"repeated")
        || same(spelled, b"required")
}

/// Whether a name is a keyword of an enum's statements.
fn is_enum_word(spelled: &[u8]) -> bool
    ensures { result ≡ among spelled.now enum_words }
{
    same(spelled, b"option") || same(spelled, b"reserved")
}

/// Whether a name is a scalar type that a map's key may have.
fn is_key_type(spelled: &[u8]) -> bool
    ensures { result ≡ among spelled.now key_types }
{
    same(spelled, b"int32")
        || same(spelled, b"int64")
        || same(spelled, b"uint32")
        || same(spelled, b"uint64")
        || same(spelled, b"sint32")
        || same(spelled, b"sint64")
        || same(spelled, b"fixed32")
        || same(spelled, b"fixed64")
        || same(spelled, b"sfixed32")
        || same(spelled, b"sfixed64")
        || same(spelled, b"bool")
        || same(spelled, b"string")
}

/// Whether a symbol is a brace, a bracket or a parenthesis.
fn is_bracket(spelled: &[u8]) -> bool
    ensures { result ≡ among spelled.now brackets }
{
    same(spelled, b"{")
        || same(spelled, b"}")
        || same(spelled, b"[")
        || same(spelled, b"]")
        || same(spelled, b"(")
        || same(spelled, b")")
}

/// Whether `terminal` accepts `token`. For `Version` see `is_version`.
#[inline(always)]
pub(crate) fn accepts(text: &str, token: Token, terminal: Terminal) -> bool
    requires { is_version terminal ≡ false }
    ensures { result ≡ accepts terminal (word text.now token) }
{
    let kind = token.kind;
    let spelled = spelling(text, token.span);
    match terminal {
        Terminal::SyntaxWord => is_identifier(kind) && same(spelled, b"syntax"),
        Terminal::ImportWord => is_identifier(kind) && same(spelled, b"import"),
        Terminal::PackageWord => is_identifier(kind) && same(spelled, b"package"),
        Terminal::OptionWord => is_identifier(kind) && same(spelled, b"option"),
        Terminal::MessageWord => is_identifier(kind) && same(spelled, b"message"),
        Terminal::EnumWord => is_identifier(kind) && same(spelled, b"enum"),
        Terminal::ServiceWord => is_identifier(kind) && same(spelled, b"service"),
        Terminal::MethodWord => is_identifier(kind) && same(spelled, b"rpc"),
        Terminal::ReturnsWord => is_identifier(kind) && same(spelled, b"returns"),
        Terminal::StreamWord => is_identifier(kind) && same(spelled, b"stream"),
        Terminal::OneofWord => is_identifier(kind) && same(spelled, b"oneof"),
        Terminal::MapWord => is_identifier(kind) && same(spelled, b"map"),
        Terminal::ReservedWord => is_identifier(kind) && same(spelled, b"reserved"),
        Terminal::ExtendWord => is_identifier(kind) && same(spelled, b"extend"),
        Terminal::ToWord => is_identifier(kind) && same(spelled, b"to"),
        Terminal::MaxWord => is_identifier(kind) && same(spelled, b"max"),
        Terminal::ImportKindWord => {
            is_identifier(kind) && (same(spelled, b"public") || same(spelled, b"weak"))
        }
        Terminal::LabelWord => {
            is_identifier(kind) && (same(spelled, b"optional") || same(spelled, b"repeated"))
        }
        Terminal::KeyTypeName => is_identifier(kind) && is_key_type(spelled),
        Terminal::InfOrNan => {
            is_identifier(kind) && (same(spelled, b"inf") || same(spelled, b"nan"))
        }
        Terminal::AnyIdentifier => is_identifier(kind),
        Terminal::FieldTypeName => is_identifier(kind) && !is_message_word(spelled),
        Terminal::MemberTypeName => is_identifier(kind) && !is_oneof_word(spelled),
        Terminal::ValueName => is_identifier(kind) && !is_enum_word(spelled),
        Terminal::MethodTypeName => is_identifier(kind) && !same(spelled, b"stream"),
        Terminal::AnyInteger => is_integer(kind),
        Terminal::AnyFloat => is_float(kind),
        Terminal::AnyText => is_text(kind),
        Terminal::Version => unreachable!(),
        Terminal::Semicolon => is_symbol(kind) && same(spelled, b";"),
        Terminal::Equals => is_symbol(kind) && same(spelled, b"="),
        Terminal::Comma => is_symbol(kind) && same(spelled, b","),
        Terminal::Dot => is_symbol(kind) && same(spelled, b"."),
        Terminal::Minus => is_symbol(kind) && same(spelled, b"-"),
        Terminal::Plus => is_symbol(kind) && same(spelled, b"+"),
        Terminal::OpenBrace => is_symbol(kind) && same(spelled, b"{"),
        Terminal::CloseBrace => is_symbol(kind) && same(spelled, b"}"),
        Terminal::OpenBracket => is_symbol(kind) && same(spelled, b"["),
        Terminal::CloseBracket => is_symbol(kind) && same(spelled, b"]"),
        Terminal::OpenParenthesis => is_symbol(kind) && same(spelled, b"("),
        Terminal::CloseParenthesis => is_symbol(kind) && same(spelled, b")"),
        Terminal::Less => is_symbol(kind) && same(spelled, b"<"),
        Terminal::Greater => is_symbol(kind) && same(spelled, b">"),
        Terminal::Plain => !(is_symbol(kind) && is_bracket(spelled)),
    }
}

/// Whether `token` is a string whose value is `proto3`.
pub(crate) fn is_version(alloc: Global, text: &str, token: Token) -> Result<bool, Memory>
    ensures { IfOk result (λ b. b ≡ accepts Version (word text.now token)) }
{
    if !matches!(token.kind, Kind::Text) {
        return Ok(false);
    }
    let value = text_value(alloc, text, &token)?;
    Ok(same(value.as_slice(), b"proto3"))
}
