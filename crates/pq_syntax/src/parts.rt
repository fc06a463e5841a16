//! The parts of statements: names, numbers, strings, option settings, reserved ranges.

ghost use Rattle.std.specs.Prelude.{◌≡◌};
ghost use Rattle.std.specs.Cmp.Lexicographic.{pointwise, lists_per, lists_equiv};

use pq_lex::Span;
use pq_names::Text;
use std::marker::Model;

/// A list in a tree. Contracts see the list of its items, and `==` compares exactly that list.
#[derive(Debug, Drop)]
pub struct Items<T> {
    items: Vec<T>,
}

impl<T> Model for Items<T> {
    ghost use Rattle.std.specs.Prelude.{List};

    ghost Value = { List T };

    ghost view = { λ l. l.items.items };
}

impl<T> Items<T> {
    /// The list of `items`.
    pub fn new(items: Vec<T>) -> Self
        // The list has the items that were handed in, in order.
        ensures { result ≡ items.items }
    {
        Items { items }
    }

    /// The items, in text order.
    pub fn as_slice(&self) -> &[T]
        // The items of the list, in order.
        ensures { result.now ≡ self.now }
    {
        self.items.as_slice()
    }
}

impl<T: PartialEq> PartialEq for Items<T> {
    ghost eq = { pointwise T.eq };

    ghost laws = { lists_per T.laws };

    fn eq(&self, other: &Self) -> bool {
        self.as_slice() == other.as_slice()
    }
}

impl<T: Eq> Eq for Items<T> {
    ghost laws = { lists_equiv T.Eq.laws };
}

/// A name, or names joined by dots. A leading dot of a type's name belongs to it.
#[derive(Debug, Drop, PartialEq, Eq)]
pub struct Name {
    /// The name as written, without blanks and comments.
    pub text: Text,
    /// From its first token to its last.
    pub span: Span,
}

/// An integer.
#[derive(Clone, Copy, Debug, PartialEq, Eq)]
pub struct Number {
    /// Whether it is written with `-`.
    pub negative: bool,
    /// The value without its sign, or `None` if it does not fit 64 bits.
    pub value: Option<u64>,
    /// The integer with its sign.
    pub span: Span,
}

/// A string, or adjacent strings that make one.
#[derive(Debug, Drop, PartialEq, Eq)]
pub struct Strings {
    /// The bytes of the joined values. They need not be UTF-8.
    pub value: Items<u8>,
    /// From the first string to the last.
    pub span: Span,
}

/// One part of an option's name (descriptor.proto, "UninterpretedOption.NamePart").
#[derive(Debug, Drop, PartialEq, Eq)]
pub struct NamePart {
    /// Whether it is the name of an extension, in parentheses.
    pub is_extension: bool,
    /// The name as written, without parentheses, blanks and comments.
    pub text: Text,
    /// The part with its parentheses.
    pub span: Span,
}

/// The kind of a constant (proto3 language specification, "Constant").
#[derive(Clone, Copy, Debug, PartialEq, Eq)]
pub enum ConstantKind {
    /// A name, or names joined by dots: `true`, `SPEED`.
    Identifier,
    /// An integer, with a sign or without.
    Integer,
    /// A float, with a sign or without, or `inf` or `nan` after a sign.
    Float,
    /// A string, or adjacent strings.
    Text,
    /// Any tokens with balanced brackets, between braces.
    Aggregate,
}

/// The constant of an option.
#[derive(Debug, Drop, PartialEq, Eq)]
pub struct Constant {
    /// Its kind.
    pub kind: ConstantKind,
    /// Its tokens as written: those of strings and aggregates with one space between, those of
    /// other constants with nothing between.
    pub text: Text,
    /// From its first token to its last, a sign included.
    pub span: Span,
}

/// An option with its constant (proto3 language specification, "Option").
#[derive(Debug, Drop, PartialEq, Eq)]
pub struct Setting {
    /// The parts of the option's name, in text order.
    pub parts: Items<NamePart>,
    /// The constant.
    pub constant: Constant,
    /// From the name's first token to the constant's last.
    pub span: Span,
}

/// The end of a reserved range.
#[derive(Clone, Copy, Debug, PartialEq, Eq)]
pub enum RangeEnd {
    /// No end is written: the range is its first number.
    Alone,
    /// `to` a number, which is the last of the range.
    To(Number),
    /// `to max`.
    Max,
}

/// A range of reserved numbers (proto3 language specification, "Reserved").
#[derive(Clone, Copy, Debug, PartialEq, Eq)]
pub struct Range {
    /// The first number of the range.
    pub first: Number,
    /// Its end.
    pub last: RangeEnd,
    /// From its first token to its last.
    pub span: Span,
}

/// The type of a method's input or output (proto3 language specification, "Service definition").
#[derive(Debug, Drop, PartialEq, Eq)]
pub struct MethodType {
    /// Whether it is written with `stream`.
    pub is_stream: bool,
    /// The name of the message type.
    pub type_name: Name,
}
