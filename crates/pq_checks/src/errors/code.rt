//! The codes of errors.
ghost use Rattle.std.specs.Prelude.{◌≡◌, ◌&&◌};
ghost use Rattle.pq_checks.specs.Codes.{code_text, is_of_version, said_code, said_text, severity, severity_number, syntax_code, syntax_text};

use pq_lex::Code as LexicalCode;
use pq_syntax::Code as SyntaxCode;

/// The severity of a diagnostic (Language Server Protocol 3.17, "DiagnosticSeverity").
#[derive(Clone, Copy, Debug, PartialEq, Eq)]
pub enum Severity {
    /// The file is not valid.
    Error,
    /// The file is valid, and a part of it is not read.
    Information,
}

/// What is wrong at a place of a file, or not read. The order is that of the printed codes.
#[derive(Clone, Copy, Debug, PartialEq, Eq, PartialOrd, Ord)]
pub enum Code {
    /// A comment without its `*/`.
    UnclosedComment,
    /// A string without its closing quote.
    UnclosedString,
    /// A backslash that begins no escape.
    BadEscape,
    /// A number directly followed by a letter, a digit or `_`.
    NumberRunsOn,
    /// A character that begins no token.
    OtherCharacter,
    /// The text does not begin with `syntax`, or its version is not `proto3`.
    OnlyProto3,
    /// Messages or brackets that nest deeper than 64.
    TooDeep,
    /// A token, or the end of the text, with which no sentence of the grammar continues.
    UnexpectedToken,
    /// The constant of an option is an aggregate.
    AggregateConstant,
    /// An extend block.
    ExtendBlock,
    /// The constant of an option is a float.
    FloatConstant,
    /// The text is of another version of the language, and its braces are read.
    OtherVersion,
    /// A package after the first.
    PackageTwice,
    /// The imported file is absent.
    ImportNotFound,
    /// An earlier import has the name.
    ImportTwice,
    /// The imported file has a syntax error.
    ImportWithError,
    /// The imports of the file lead into a ring.
    ImportCycle,
    /// The name of an import is not UTF-8.
    ImportNotText,
    /// An earlier definition of the file has the full name.
    DefinedTwice,
    /// Another visible file defines the full name.
    DefinedElsewhere,
    /// The number of a field is not from 1 to 536870911.
    FieldNumberOutOfRange,
    /// The number of a field is one of those kept for protobuf itself: 19000 to 19999.
    FieldNumberOfProtobuf,
    /// An earlier field of the message has the number.
    FieldNumberTwice,
    /// The message reserves the number of the field.
    FieldNumberReserved,
    /// The message reserves the name of the field.
    FieldNameReserved,
    /// A reserved range is empty, or has a bound outside the numbers of its kind.
    BadRange,
    /// A oneof without a field.
    EmptyOneof,
    /// An enum without a value.
    EmptyEnum,
    /// The first value of an enum is not 0.
    FirstValueNotZero,
    /// The number of an enum value does not fit 32 bits.
    EnumNumberOutOfRange,
    /// An earlier value of the enum has the number, and the enum does not allow it.
    EnumNumberTwice,
    /// The enum reserves the number of the value.
    EnumNumberReserved,
    /// The enum reserves the name of the value.
    EnumValueNameReserved,
    /// The name of a type resolves to nothing.
    TypeNotFound,
    /// The name of a type resolves to a type in a file that is not visible.
    TypeNotImported,
    /// The name of a type resolves to something else.
    NotAType,
    /// The type of a method is an enum.
    NotAMessage,
}

impl Severity {
    /// The number of the severity in the protocol.
    pub fn number(self) -> u8
        // The number of the severity in the protocol: 1 for an error, 3 for information.
        ensures number { result ≡ severity_number self }
    {
        match self {
            Severity::Error => 1,
            Severity::Information => 3,
        }
    }
}

impl Code {
    /// The printed code.
    pub fn as_str(self) -> &'static str
        // The printed code.
        ensures text { result.now ≡ code_text self }
    {
        match self {
            Code::UnclosedComment => "P001",
            Code::UnclosedString => "P002",
            Code::BadEscape => "P003",
            Code::NumberRunsOn => "P004",
            Code::OtherCharacter => "P005",
            Code::OnlyProto3 => "P010",
            Code::TooDeep => "P011",
            Code::UnexpectedToken => "P012",
            Code::AggregateConstant => "P020",
            Code::ExtendBlock => "P021",
            Code::FloatConstant => "P022",
            Code::OtherVersion => "P023",
            Code::PackageTwice => "P101",
            Code::ImportNotFound => "P102",
            Code::ImportTwice => "P103",
            Code::ImportWithError => "P104",
            Code::ImportCycle => "P105",
            Code::ImportNotText => "P106",
            Code::DefinedTwice => "P110",
            Code::DefinedElsewhere => "P111",
            Code::FieldNumberOutOfRange => "P120",
            Code::FieldNumberOfProtobuf => "P121",
            Code::FieldNumberTwice => "P122",
            Code::FieldNumberReserved => "P123",
            Code::FieldNameReserved => "P124",
            Code::BadRange => "P125",
            Code::EmptyOneof => "P126",
            Code::EmptyEnum => "P130",
            Code::FirstValueNotZero => "P131",
            Code::EnumNumberOutOfRange => "P132",
            Code::EnumNumberTwice => "P133",
            Code::EnumNumberReserved => "P134",
            Code::EnumValueNameReserved => "P135",
            Code::TypeNotFound => "P150",
            Code::TypeNotImported => "P151",
            Code::NotAType => "P152",
            Code::NotAMessage => "P153",
        }
    }

    /// The severity: information for a part that is not read, else an error.
    pub fn severity(self) -> Severity
        // The severity of the code.
        ensures severity { result ≡ severity self }
    {
        match self {
            Code::AggregateConstant
            | Code::ExtendBlock
            | Code::FloatConstant
            | Code::OtherVersion => Severity::Information,
            _ => Severity::Error,
        }
    }
}

/// The code of a syntax error.
fn syntax_code(code: SyntaxCode) -> Code
    ensures code { result ≡ syntax_code code }
{
    match code {
        SyntaxCode::Lexical(LexicalCode::UnclosedComment) => Code::UnclosedComment,
        SyntaxCode::Lexical(LexicalCode::UnclosedString) => Code::UnclosedString,
        SyntaxCode::Lexical(LexicalCode::BadEscape) => Code::BadEscape,
        SyntaxCode::Lexical(LexicalCode::NumberRunsOn) => Code::NumberRunsOn,
        SyntaxCode::Lexical(LexicalCode::OtherCharacter) => Code::OtherCharacter,
        SyntaxCode::OnlyProto3 => Code::OnlyProto3,
        SyntaxCode::TooDeep => Code::TooDeep,
        SyntaxCode::UnexpectedToken | SyntaxCode::UnexpectedEnd => Code::UnexpectedToken,
    }
}

/// The message of a syntax error.
fn syntax_text(code: SyntaxCode) -> &'static str
    ensures text { result.now ≡ syntax_text code }
{
    match code {
        SyntaxCode::Lexical(LexicalCode::UnclosedComment) => "comment is not closed",
        SyntaxCode::Lexical(LexicalCode::UnclosedString) => "string is not closed",
        SyntaxCode::Lexical(LexicalCode::BadEscape) => "bad escape",
        SyntaxCode::Lexical(LexicalCode::NumberRunsOn) => "number runs into a name or digit",
        SyntaxCode::Lexical(LexicalCode::OtherCharacter) => "character is not allowed here",
        SyntaxCode::OnlyProto3 => "only syntax = \"proto3\" is read",
        SyntaxCode::TooDeep => "nesting is deeper than 64",
        SyntaxCode::UnexpectedToken => "unexpected token",
        SyntaxCode::UnexpectedEnd => "unexpected end of file",
    }
}

/// Whether the syntax error `code` is that of the version of a text that is of another one.
fn is_told(other: bool, code: SyntaxCode) -> bool
    ensures told { result ≡ (other && is_of_version code) }
{
    other && matches!(code, SyntaxCode::OnlyProto3)
}

/// The code that is said of a syntax error of a text, which is of another version of the language
/// if `other` is true.
pub(crate) fn said_code(other: bool, code: SyntaxCode) -> Code
    ensures code { result ≡ said_code other code }
{
    if is_told(other, code) {
        return Code::OtherVersion;
    }
    syntax_code(code)
}

/// The message that is said of it.
pub(crate) fn said_text(other: bool, code: SyntaxCode) -> &'static str
    ensures text { result.now ≡ said_text other code }
{
    if is_told(other, code) {
        return "only the definitions of this file are read";
    }
    syntax_text(code)
}
