//! What clients ask for, and what they change.
ghost use Rattle.std.specs.Prelude.{◌≡◌, ◌↔◌, IfOk, IsTrue};
ghost use Rattle.pq_core.specs.Bodies.{body_view};

use crate::values::fault::Memory;
use crate::values::label::{Label, is_same_label, is_same_text};
use pq_inputs::Durability;
use pq_lex::TextChange;
use pq_names::Text;
use pq_rules::{Rules, is_same_key};
use std::alloc::Global;
use std::marker::Model;

/// What answers a request.
#[derive(Drop)]
pub enum Want<K> {
    /// The answer of this key at the sources.
    Demand(K),
    /// This text, whatever the sources are.
    Fixed(Text),
}

/// A request of a client.
#[derive(Drop)]
pub struct Request<K> {
    /// The name that the client gave it.
    pub label: Label,
    /// What answers it.
    pub want: Want<K>,
}

/// What an edit makes of the text of a file.
#[derive(Drop)]
pub enum Body {
    /// This is the new text, or the file is removed.
    Set(Option<String>),
    /// These changes are made in their order, each on the text that the one before it left.
    /// (Language Server Protocol 3.17, "TextDocumentContentChangeEvent".)
    Ranged(Vec<TextChange>),
}

/// An edit of a file. Contracts see bytes.
#[derive(Drop)]
pub struct Change {
    /// The file's name.
    pub file: Text,
    /// What becomes of its text.
    pub body: Body,
    /// Its new durability.
    pub durability: Durability,
}

impl Model for Change {
    ghost use Rattle.pq_core.specs.Bodies.{body_view};
    ghost use Rattle.pq_core.specs.Changes.{ChangeView};

    ghost Value = { ChangeView };

    ghost view = { λ c. record { file = c.file; body = body_view c.body; durability = c.durability } };
}

/// The same want once more.
fn copy_want<R: Rules>(
    alloc: Global,
    rules: &R,
    want: &Want<R::Key>,
) -> Result<Want<R::Key>, Memory>
    ensures { IfOk result (λ w. w ≡ want.now) }
{
    match want {
        Want::Demand(key) => Ok(Want::Demand(rules.copy_key(alloc, key)?)),
        Want::Fixed(text) => Ok(Want::Fixed(text.copy()?)),
    }
}

/// The same request once more. Its texts are shared.
pub fn copy_request<R: Rules>(
    alloc: Global,
    rules: &R,
    request: &Request<R::Key>,
) -> Result<Request<R::Key>, Memory>
    // A copy is equal.
    ensures { IfOk result (λ r. r ≡ request.now) }
{
    let want = copy_want(alloc, rules, &request.want)?;
    let label = request.label.copy()?;
    Ok(Request { label, want })
}

/// Whether two wants are the same.
fn is_same_want<R: Rules>(rules: &R, a: &Want<R::Key>, b: &Want<R::Key>) -> bool
    ensures { IsTrue result ↔ (a.now ≡ b.now) }
{
    match (a, b) {
        (Want::Demand(a), Want::Demand(b)) => is_same_key(rules, a, b),
        (Want::Fixed(a), Want::Fixed(b)) => is_same_text(a, b),
        _ => false,
    }
}

/// Whether two requests are the same: their labels, and what answers them. It takes no memory.
pub fn is_same_request<R: Rules>(rules: &R, a: &Request<R::Key>, b: &Request<R::Key>) -> bool
    // True exactly where two requests have one label and one want.
    ensures { IsTrue result ↔ (a.now ≡ b.now) }
{
    is_same_label(&a.label, &b.label) && is_same_want(rules, &a.want, &b.want)
}

/// The same changes once more. Their texts are copied.
fn copy_changes(alloc: Global, changes: &[TextChange]) -> Result<Vec<TextChange>, Memory>
    ensures { IfOk result (λ copies. copies.items ≡ changes.now) }
{
    let mut copies = Vec::with_capacity(alloc, changes.len())?;
    'changes: for change in changes {
        let text = change.text.clone()?;
        copies.push(TextChange {
            range: change.range,
            text,
        })?;
    }
    Ok(copies)
}

/// The same body once more. Its texts are copied.
fn copy_body(alloc: Global, body: &Body) -> Result<Body, Memory>
    ensures { IfOk result (λ copy. body_view copy ≡ body_view body.now) }
{
    match body {
        Body::Set(Some(text)) => Ok(Body::Set(Some(text.clone()?))),
        Body::Set(None) => Ok(Body::Set(None)),
        Body::Ranged(changes) => Ok(Body::Ranged(copy_changes(alloc, changes)?)),
    }
}

/// The same change once more. Its texts are copied.
pub fn copy_change(alloc: Global, change: &Change) -> Result<Change, Memory>
    // A copy is equal.
    ensures { IfOk result (λ c. c ≡ change.now) }
{
    let file = change.file.copy()?;
    let body = copy_body(alloc, &change.body)?;
    Ok(Change {
        file,
        body,
        durability: change.durability,
    })
}
