//! Places: the parts of a file's items, and where they are in its tree.
//!
//! What is said of a part by its place stays true while text around it moves. `place` turns a place
//! into a span, in constant time.
ghost use Rattle.std.specs.Prelude.{◌≡◌, ℕ, List, Some, is_some, length, map, slice_get};
ghost use Rattle.std.specs.Option.{option_copied};
ghost use Rattle.pq_lex.specs.declared.token.Span.{Span};
ghost use Rattle.pq_syntax.specs.FaultPlace.{IsTree};
ghost use Rattle.pq_syntax.specs.declared.tree.Node.{Node};
ghost use Rattle.pq_links.specs.declared.places.Part.{Part};
ghost use Rattle.pq_links.specs.Bare.{bare};
ghost use Rattle.pq_links.specs.Place.{LiesIn, constant_span, name_span, number_span, place, range_span, ranges_of, settings_of, span_at, type_span};

use pq_lex::Span;
use pq_syntax::{File, Node, Range, Setting, Statement, spans_within};

/// The part of an item that a type reference is.
#[derive(Clone, Copy, Debug, PartialEq, Eq)]
pub enum TypePart {
    /// The type of a field, or the value type of a map field.
    Type,
    /// The input type of a method.
    Input,
    /// The output type of a method.
    Output,
}

/// A part of an item that has a span of its own.
#[derive(Clone, Copy, Debug, PartialEq, Eq)]
pub enum Part {
    /// The whole statement, up to its `;` or `}`.
    Whole,
    /// Its name; that of an import is the name of the imported file.
    Name,
    /// The number of a field, a map field or an enum value, with its sign.
    Number,
    /// A type that it refers to.
    Type(TypePart),
    /// The constant of its option of this number, with its sign. Options count from 0.
    Constant(usize),
    /// The reserved range of this number, counted from 0 within the statement.
    Range(usize),
}

/// The span of the name of `statement`, if it has one.
#[tactic(auto, unfolding(crate::specs::Place::name_span))]
fn name_span(statement: &Statement) -> Option<Span>
    ensures span { result ≡ name_span statement.now }
{
    match statement {
        Statement::Import { file, .. } => Some(file.span),
        Statement::Package { name }
        | Statement::Message { name }
        | Statement::Field { name, .. }
        | Statement::MapField { name, .. }
        | Statement::Oneof { name }
        | Statement::Enum { name }
        | Statement::Value { name, .. }
        | Statement::Service { name }
        | Statement::Method { name, .. } => Some(name.span),
        Statement::Option(_)
        | Statement::ReservedNumbers(_)
        | Statement::ReservedNames(_)
        | Statement::Extend { .. } => None,
    }
}

/// The span of the number of `statement`, if it has one.
#[tactic(auto, unfolding(crate::specs::Place::number_span))]
fn number_span(statement: &Statement) -> Option<Span>
    ensures span { result ≡ number_span statement.now }
{
    match statement {
        Statement::Field { number, .. }
        | Statement::MapField { number, .. }
        | Statement::Value { number, .. } => Some(number.span),
        _ => None,
    }
}

/// The span of the type that is the part `part` of `statement`, if it has that part.
#[tactic(auto, unfolding(crate::specs::Place::type_span))]
fn type_span(part: TypePart, statement: &Statement) -> Option<Span>
    ensures span { result ≡ type_span part statement.now }
{
    match (part, statement) {
        (TypePart::Type, Statement::Field { type_name, .. }) => Some(type_name.span),
        (TypePart::Type, Statement::MapField { value, .. }) => Some(value.span),
        (TypePart::Input, Statement::Method { input, .. }) => Some(input.type_name.span),
        (TypePart::Output, Statement::Method { output, .. }) => Some(output.type_name.span),
        _ => None,
    }
}

/// The option of `statement` with the number `number`, if there is one.
#[tactic(auto, unfolding(crate::specs::Place::settings_of))]
fn setting_at(statement: &Statement, number: usize) -> Option<&Setting>
    ensures setting { option_copied result ≡ slice_get (settings_of statement.now) number }
{
    match statement {
        Statement::Option(setting) => match number {
            0 => Some(setting),
            _ => None,
        },
        Statement::Field { options, .. }
        | Statement::MapField { options, .. }
        | Statement::Value { options, .. } => options.as_slice().get(number),
        _ => None,
    }
}

/// The span of the constant of the option of `statement` with the number `number`.
fn constant_span(number: usize, statement: &Statement) -> Option<Span>
    ensures span { result ≡ constant_span number statement.now }
{
    match setting_at(statement, number) {
        Some(setting) => Some(setting.constant.span),
        None => None,
    }
}

/// The range of `statement` with the number `number`, if there is one.
#[tactic(auto, unfolding(crate::specs::Place::ranges_of))]
fn range_at(statement: &Statement, number: usize) -> Option<&Range>
    ensures range { option_copied result ≡ slice_get (ranges_of statement.now) number }
{
    match statement {
        Statement::ReservedNumbers(ranges) => ranges.as_slice().get(number),
        _ => None,
    }
}

/// The span of the range of `statement` with the number `number`.
fn range_span(number: usize, statement: &Statement) -> Option<Span>
    ensures span { result ≡ range_span number statement.now }
{
    match range_at(statement, number) {
        Some(range) => Some(range.span),
        None => None,
    }
}

/// The span of the part `part` of `node`, if it has that part.
fn span_at(part: Part, node: &Node) -> Option<Span>
    ensures span { result ≡ span_at part node.now }
{
    match part {
        Part::Whole => Some(node.span),
        Part::Name => name_span(&node.statement),
        Part::Number => number_span(&node.statement),
        Part::Type(part) => type_span(part, &node.statement),
        Part::Constant(number) => constant_span(number, &node.statement),
        Part::Range(number) => range_span(number, &node.statement),
    }
}

/// The span of the part `part` of the item of the number `item`, or `None` if `file` has no such
/// item or the item has no such part. The law `parts_within` says where the span lies.
pub fn place(file: &File, item: usize, part: Part) -> Option<Span>
    // The span of a part of an item: of the whole statement, its name, its number, a type that it
    // refers to, the constant of its nth option, its nth reserved range. `None` if there is no such
    // item or part.
    ensures span { result ≡ place file.now item part }
{
    match file.as_slice().get(item) {
        Some(node) => span_at(part, node),
        None => None,
    }
}

/// In the tree of a text, the span of a part of an item lies in the text and in the span of the
/// item's statement.
pub fn parts_within()
    // In the tree of a text the span of a part lies in the text and in the span of the item's
    // statement.
    ensures within { (text : List ℕ) (nodes : List Node) (item : ℕ) (part : Part) (at : Span) →
        IsTree text nodes → place nodes item part ≡ Some at → LiesIn (length text) nodes item at }
{
    spans_within();
}

/// Leaving spans out of a tree keeps which items it has, and which parts these have.
pub fn parts_stay()
    // Leaving spans out keeps which items a tree has, and which parts these have.
    ensures stay { (nodes : List Node) (item : ℕ) (part : Part) →
        is_some (place (map bare nodes) item part) ≡ is_some (place nodes item part) }
{}
