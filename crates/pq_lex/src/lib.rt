//! The lexis of proto3: the tokens of a text, the values of integers and strings, and the positions
//! of offsets.
//!
//! `lex` reads a text up to its end or its first lexical error; `each_text` and `one_lexing` say
//! that each text has one lexing, and `tokens_in_order` that its tokens lie in the text, in order.
//! `LineIndex` converts byte offsets to positions in UTF-16 columns and back, without the text.
//! `apply` returns the text after changes of ranges of positions.
#![tactic(auto)]

mod block;
mod blocks;
mod bytes;
mod changes;
mod escapes;
mod kept_offsets;
mod laws;
mod lexer;
mod lines;
mod numbers;
mod position;
mod steps;
mod strings;
mod token;
mod values;

pub use changes::{TextChange, apply};
pub use laws::{
    each_text, equal_indexes, largest_offset, offset_comes_back, offsets_of_lines, one_lexing,
    one_offset, positions_of_lines, tokens_in_order,
};
pub use lexer::lex;
pub use lines::LineIndex;
pub use position::Position;
pub use std::alloc::AllocError as Memory;
pub use token::{Code, Kind, Lexed, Span, Token};
pub use values::{integer_value, text_value};
