//! The grammar of proto3 (proto3 language specification, "Proto file"): a text's tree, or its first
//! error.
//!
//! The grammar is data (`specs/Grammar`), and a sentence is what it derives (`specs/Rule`). The
//! tree is read off the derivation (`specs/Tree`). A syntax error is at the first token with which
//! no sentence continues (`specs/FaultPlace`). The parser is a recursive descent with one token of
//! look-ahead, proved to compute exactly these. Each text has one tree or one error (`each_parse`,
//! `one_tree`, `one_fault`), and each span lies in the text (`spans_within`). `parse` takes time
//! and memory linear in the text.
#![tactic(auto)]

mod answer;
mod failure;
mod fault;
mod file;
mod laws;
mod loose;
mod parser;
mod parts;
mod stack;
mod terminal;
mod tree;

pub use answer::parse;
pub use fault::{Code, Parsed};
pub use file::File;
pub use laws::{each_parse, equal_parses, equal_trees, one_fault, one_tree, spans_within};
pub use loose::{each_shown, is_other_version, one_shown, read_loosely};
pub use parts::{
    Constant, ConstantKind, Items, MethodType, Name, NamePart, Number, Range, RangeEnd, Setting,
    Strings,
};
pub use pq_names::Text;
pub use stack::Stack;
pub use std::alloc::AllocError as Memory;
pub use tree::{ImportKind, Label, Node, Statement};
