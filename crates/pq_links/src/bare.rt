//! Copies of a tree's parts without their spans, in time linear in the tree.
//!
//! Names of up to 22 bytes are copied, and longer ones shared; the bytes of strings are copied.
ghost use Rattle.std.specs.Prelude.{◌≡◌, ◌<◌, [], ◌∷◌, ◌++◌, IfOk, OnOk, map, vec_len, vec_capacity};
ghost use Rattle.pq_links.specs.Bare.{bare, bare_constant, bare_end, bare_name, bare_number, bare_part, bare_range, bare_setting, bare_statement, bare_strings, bare_type, node_at, nowhere};
ghost use Rattle.pq_syntax.specs.declared.tree.Statement.TheVariants.{Field, MapField, Method, Value};

use crate::Memory;
use pq_lex::Span;
use pq_syntax::{
    Constant, Items, Label, MethodType, Name, NamePart, Node, Number, Range, RangeEnd, Setting,
    Statement, Strings,
};
use std::alloc::Global;

/// A part of a tree that is copied without its spans.
pub(crate) trait Bare: Drop {
    /// The part without its spans.
    ghost bares: { Self → Self };

    /// A copy without spans.
    fn bare(&self, alloc: Global) -> Result<Self, Memory>
        ensures bare { IfOk result (λ b. b ≡ bares self.now) };
}

/// The empty span at the start of a text.
fn nowhere() -> Span
    ensures { result ≡ nowhere }
{
    Span { start: 0, end: 0 }
}

/// Copies of `items` without spans.
fn bare_all<T: Bare>(alloc: Global, items: &[T]) -> Result<Vec<T>, Memory>
    ensures bare { IfOk result (λ v. v.items ≡ map T.bares items.now) }
{
    let mut bare = Vec::with_capacity(alloc, items.len())?;
    'each: for item in items {
        bare.reserve(1)?;
        bare.push_reserved(item.bare(alloc)?);
    }
    Ok(bare)
}

/// The list `items` without spans.
fn bare_list<T: Bare>(alloc: Global, items: &Items<T>) -> Result<Items<T>, Memory>
    ensures bare { IfOk result (λ v. v ≡ map T.bares items.now) }
{
    Ok(Items::new(bare_all(alloc, items.as_slice())?))
}

impl Bare for Name {
    ghost bares = { bare_name };

    fn bare(&self, _alloc: Global) -> Result<Name, Memory> {
        Ok(Name {
            text: self.text.copy()?,
            span: nowhere(),
        })
    }
}

/// The number `number` without its span.
fn bare_number(number: Number) -> Number
    ensures { result ≡ bare_number number }
{
    Number {
        negative: number.negative,
        value: number.value,
        span: nowhere(),
    }
}

/// A copy of `bytes`.
fn copied(alloc: Global, bytes: &[u8]) -> Result<Vec<u8>, Memory>
    ensures { IfOk result (λ v. v.items ≡ bytes.now) }
{
    let mut copy = Vec::with_capacity(alloc, bytes.len())?;
    copy.extend_from_slice(bytes)?;
    Ok(copy)
}

impl Bare for Strings {
    ghost bares = { bare_strings };

    fn bare(&self, alloc: Global) -> Result<Strings, Memory> {
        Ok(Strings {
            value: Items::new(copied(alloc, self.value.as_slice())?),
            span: nowhere(),
        })
    }
}

impl Bare for NamePart {
    ghost bares = { bare_part };

    fn bare(&self, _alloc: Global) -> Result<NamePart, Memory> {
        Ok(NamePart {
            is_extension: self.is_extension,
            text: self.text.copy()?,
            span: nowhere(),
        })
    }
}

impl Bare for Constant {
    ghost bares = { bare_constant };

    fn bare(&self, _alloc: Global) -> Result<Constant, Memory> {
        Ok(Constant {
            kind: self.kind,
            text: self.text.copy()?,
            span: nowhere(),
        })
    }
}

impl Bare for Setting {
    ghost bares = { bare_setting };

    fn bare(&self, alloc: Global) -> Result<Setting, Memory> {
        Ok(Setting {
            parts: bare_list(alloc, &self.parts)?,
            constant: self.constant.bare(alloc)?,
            span: nowhere(),
        })
    }
}

/// The end `end` of a range without its span.
fn bare_end(end: RangeEnd) -> RangeEnd
    ensures { result ≡ bare_end end }
{
    match end {
        RangeEnd::Alone => RangeEnd::Alone,
        RangeEnd::To(number) => RangeEnd::To(bare_number(number)),
        RangeEnd::Max => RangeEnd::Max,
    }
}

impl Bare for Range {
    ghost bares = { bare_range };

    fn bare(&self, _alloc: Global) -> Result<Range, Memory> {
        Ok(Range {
            first: bare_number(self.first),
            last: bare_end(self.last),
            span: nowhere(),
        })
    }
}

impl Bare for MethodType {
    ghost bares = { bare_type };

    fn bare(&self, alloc: Global) -> Result<MethodType, Memory> {
        Ok(MethodType {
            is_stream: self.is_stream,
            type_name: self.type_name.bare(alloc)?,
        })
    }
}

/// Adds the statement `statement` at the depth `depth`. `nodes` has room for it.
#[inline]
fn push_node(nodes: &mut Vec<Node>, depth: u8, statement: Statement) -> Result<(), Memory>
    requires room { vec_len nodes.old < vec_capacity nodes.old }
    ensures pushed { OnOk result
        (nodes.new.items ≡ nodes.old.items ++ node_at depth statement ∷ []) }
{
    nodes.push_reserved(Node {
        depth,
        span: nowhere(),
        statement,
    });
    Ok(())
}

/// Adds a field at the depth `depth`, without spans. `nodes` has room for it.
#[inline]
fn push_field(
    nodes: &mut Vec<Node>,
    alloc: Global,
    depth: u8,
    label: Option<Label>,
    type_name: &Name,
    name: &Name,
    number: Number,
    options: &Items<Setting>,
) -> Result<(), Memory>
    requires room { vec_len nodes.old < vec_capacity nodes.old }
    ensures pushed { OnOk result (nodes.new.items ≡ nodes.old.items ++ node_at depth
        (Field label (bare_name type_name.now) (bare_name name.now) (bare_number number) (map bare_setting options.now)) ∷ []) }
{
    push_node(
        nodes,
        depth,
        Statement::Field {
            label,
            type_name: type_name.bare(alloc)?,
            name: name.bare(alloc)?,
            number: bare_number(number),
            options: bare_list(alloc, options)?,
        },
    )
}

/// Adds a map field at the depth `depth`, without spans. `nodes` has room for it.
#[inline]
fn push_map_field(
    nodes: &mut Vec<Node>,
    alloc: Global,
    depth: u8,
    key: &Name,
    value: &Name,
    name: &Name,
    number: Number,
    options: &Items<Setting>,
) -> Result<(), Memory>
    requires room { vec_len nodes.old < vec_capacity nodes.old }
    ensures pushed { OnOk result (nodes.new.items ≡ nodes.old.items ++ node_at depth
        (MapField (bare_name key.now) (bare_name value.now) (bare_name name.now) (bare_number number) (map bare_setting options.now)) ∷ []) }
{
    push_node(
        nodes,
        depth,
        Statement::MapField {
            key: key.bare(alloc)?,
            value: value.bare(alloc)?,
            name: name.bare(alloc)?,
            number: bare_number(number),
            options: bare_list(alloc, options)?,
        },
    )
}

/// Adds an enum value at the depth `depth`, without spans. `nodes` has room for it.
#[inline]
fn push_value(
    nodes: &mut Vec<Node>,
    alloc: Global,
    depth: u8,
    name: &Name,
    number: Number,
    options: &Items<Setting>,
) -> Result<(), Memory>
    requires room { vec_len nodes.old < vec_capacity nodes.old }
    ensures pushed { OnOk result (nodes.new.items ≡ nodes.old.items ++ node_at depth
        (Value (bare_name name.now) (bare_number number) (map bare_setting options.now)) ∷ []) }
{
    push_node(
        nodes,
        depth,
        Statement::Value {
            name: name.bare(alloc)?,
            number: bare_number(number),
            options: bare_list(alloc, options)?,
        },
    )
}

/// Adds a method at the depth `depth`, without spans. `nodes` has room for it.
#[inline]
fn push_method(
    nodes: &mut Vec<Node>,
    alloc: Global,
    depth: u8,
    name: &Name,
    input: &MethodType,
    output: &MethodType,
) -> Result<(), Memory>
    requires room { vec_len nodes.old < vec_capacity nodes.old }
    ensures pushed { OnOk result (nodes.new.items ≡ nodes.old.items ++ node_at depth
        (Method (bare_name name.now) (bare_type input.now) (bare_type output.now)) ∷ []) }
{
    push_node(
        nodes,
        depth,
        Statement::Method {
            name: name.bare(alloc)?,
            input: input.bare(alloc)?,
            output: output.bare(alloc)?,
        },
    )
}

/// Adds a copy of `node` without spans.
#[inline]
#[tactic(auto, unfolding(crate::specs::Bare::bare_statement))]
fn push_bare(nodes: &mut Vec<Node>, alloc: Global, node: &Node) -> Result<(), Memory>
    ensures pushed { OnOk result (nodes.new.items ≡ nodes.old.items ++ bare node.now ∷ []) }
{
    nodes.reserve(1)?;
    let depth = node.depth;
    match &node.statement {
        Statement::Import { kind, file } => {
            let file = file.bare(alloc)?;
            push_node(nodes, depth, Statement::Import { kind: *kind, file })
        }
        Statement::Package { name } => {
            let name = name.bare(alloc)?;
            push_node(nodes, depth, Statement::Package { name })
        }
        Statement::Option(setting) => {
            let setting = setting.bare(alloc)?;
            push_node(nodes, depth, Statement::Option(setting))
        }
        Statement::Message { name } => {
            let name = name.bare(alloc)?;
            push_node(nodes, depth, Statement::Message { name })
        }
        Statement::Field {
            label,
            type_name,
            name,
            number,
            options,
        } => push_field(
            nodes, alloc, depth, *label, type_name, name, *number, options,
        ),
        Statement::MapField {
            key,
            value,
            name,
            number,
            options,
        } => push_map_field(nodes, alloc, depth, key, value, name, *number, options),
        Statement::Oneof { name } => {
            let name = name.bare(alloc)?;
            push_node(nodes, depth, Statement::Oneof { name })
        }
        Statement::ReservedNumbers(ranges) => {
            let ranges = bare_list(alloc, ranges)?;
            push_node(nodes, depth, Statement::ReservedNumbers(ranges))
        }
        Statement::ReservedNames(names) => {
            let names = bare_list(alloc, names)?;
            push_node(nodes, depth, Statement::ReservedNames(names))
        }
        Statement::Enum { name } => {
            let name = name.bare(alloc)?;
            push_node(nodes, depth, Statement::Enum { name })
        }
        Statement::Value {
            name,
            number,
            options,
        } => push_value(nodes, alloc, depth, name, *number, options),
        Statement::Service { name } => {
            let name = name.bare(alloc)?;
            push_node(nodes, depth, Statement::Service { name })
        }
        Statement::Method {
            name,
            input,
            output,
        } => push_method(nodes, alloc, depth, name, input, output),
        Statement::Extend { type_name } => {
            let type_name = type_name.bare(alloc)?;
            push_node(nodes, depth, Statement::Extend { type_name })
        }
    }
}

/// Copies of the statements `nodes` without spans, in order.
pub(crate) fn bare_nodes(alloc: Global, nodes: &[Node]) -> Result<Items<Node>, Memory>
    ensures bare { IfOk result (λ v. v ≡ map bare nodes.now) }
{
    let mut copies = Vec::with_capacity(alloc, nodes.len())?;
    'nodes: for node in nodes {
        push_bare(&mut copies, alloc, node)?;
    }
    Ok(Items::new(copies))
}
