//! The outcome of parsing a text, and the codes of errors.

use crate::file::File;
use pq_lex::Span;

/// The code of a text's first error.
#[derive(Clone, Copy, Debug, PartialEq, Eq)]
pub enum Code {
    /// A lexical error: no token can be read here.
    Lexical(pq_lex::Code),
    /// The text does not begin with `syntax`, or its version is a string other than `proto3`.
    OnlyProto3,
    /// No sentence of the grammar continues with this token, but one would if messages and brackets
    /// could nest deeper than 64.
    TooDeep,
    /// No sentence of the grammar continues with this token.
    UnexpectedToken,
    /// The text ends before a sentence is complete.
    UnexpectedEnd,
}

/// The outcome of parsing a text: its tree, or its first error.
#[derive(Debug, Drop, PartialEq, Eq)]
pub enum Parsed {
    /// The whole text is a file of the grammar.
    Tree(File),
    /// The first error of the text. Later errors are not reported.
    Fault {
        /// The unexpected token, the lexical error, or the empty span at the end of the text.
        span: Span,
        /// What is wrong there.
        code: Code,
    },
}
