//! What is before a simple name in a scope: the scope with a dot after it, or nothing.
//!
//! The scopes of a file begin with its package, which can be as long as the file. So they share its
//! bytes, and a full name in a scope is spelled in pieces, without a copy of the scope.
ghost use Rattle.std.specs.Prelude.{◌≡◌, ◌++◌, ℕ, List, IfOk, map};
ghost use Rattle.std.specs.List.{concat};
ghost use Rattle.std.specs.Option.{option_copied};
ghost use Rattle.pq_schema.specs.Definitions.{qualified};
ghost use Rattle.pq_schema.specs.aux.NameParts.{leading};
ghost use Rattle.pq_schema.specs.aux.Scopes.{before};

use crate::names::full_name::{copy_parts, with_dot};
use crate::names::nesting::outer;
use crate::names::spelled::Spelled;
use pq_names::{Memory, Text};
use pq_rules::Shared;
use std::alloc::Global;
use std::marker::Model;
use std::slice;

/// The most bytes that are compared again for each name.
const LONG: usize = 256;

/// What is before a simple name in a scope, in pieces. Contracts see its bytes.
#[derive(Drop)]
pub(crate) struct Lead {
    parts: Vec<Text>,
    /// Whether these are many bytes.
    is_long: bool,
}

impl Model for Lead {
    ghost use Rattle.std.specs.Prelude.{List, ℕ};
    ghost use Rattle.std.specs.List.{concat};

    ghost Value = { List ℕ };

    ghost view = { λ l. concat l.parts.items };
}

impl Lead {
    /// The bytes of `text`.
    pub(crate) fn of(alloc: Global, text: Text) -> Result<Lead, Memory>
        ensures text { IfOk result (λ l. l ≡ text) }
    {
        let is_long = text.as_str().len() > LONG;
        let mut parts = Vec::with_capacity(alloc, 1)?;
        parts.push(text)?;
        Ok(Lead { parts, is_long })
    }

    /// The bytes of `front`, which are shared, and then those of `text`.
    fn after(alloc: Global, front: &[Text], text: Text) -> Result<Lead, Memory>
        ensures text { IfOk result (λ l. l ≡ concat front.now ++ text) }
    {
        let is_long = Spelled::new(front, text.as_str()).is_longer(LONG);
        let mut parts = copy_parts(alloc, front)?;
        parts.push(text)?;
        Ok(Lead { parts, is_long })
    }

    /// Whether the bytes are so many that no name should be compared with them twice.
    pub(crate) fn is_long(&self) -> bool {
        self.is_long
    }

    /// The pieces.
    pub(crate) fn parts(&self) -> &[Text]
        ensures parts { concat result.now ≡ self.now }
    {
        &self.parts
    }

    /// The full name of `name` in the scope.
    pub(crate) fn spell<'a>(&'a self, name: &'a str) -> Spelled<'a>
        ensures name { result ≡ self.now ++ name.now }
    {
        Spelled::new(&self.parts, name)
    }
}

/// The full name of `name` in a scope, where `lead` is what is before one in it.
pub(crate) fn spell<'a>(lead: &'a Text, name: &'a str) -> Spelled<'a>
    ensures name { result ≡ lead.now ++ name.now }
{
    Spelled::new(slice::from_ref(lead), name)
}

/// What is before a simple name in the scope `scope`.
pub(crate) fn lead_text(alloc: Global, scope: &str) -> Result<Text, Memory>
    ensures lead { IfOk result (λ t. t ≡ leading scope.now) }
{
    if scope.is_empty() {
        Text::new(alloc, "")
    } else {
        with_dot(alloc, scope)
    }
}

/// What is before a simple name in the scope `scope`, where `front` is before that scope.
fn inner_lead(alloc: Global, front: &[Text], scope: &str) -> Result<Shared<Lead>, Memory>
    ensures lead { IfOk result
        (λ l. (root : List ℕ) → concat front.now ≡ leading root → l ≡ leading (qualified root scope.now)) }
{
    if Spelled::new(front, "").is_empty() {
        return Shared::new(alloc, Lead::of(alloc, lead_text(alloc, scope)?)?);
    }
    Shared::new(alloc, Lead::after(alloc, front, with_dot(alloc, scope)?)?)
}

/// What is before a simple name in `next` and in the scopes around it, the innermost first, where
/// `front` is before all these scopes.
pub(crate) fn inner_leads(
    alloc: Global,
    front: &[Text],
    next: Option<&str>,
) -> Result<Vec<Shared<Lead>>, Memory>
    ensures leads { IfOk result (λ v. (root : List ℕ) → concat front.now ≡ leading root
        → v.items ≡ map leading (map (qualified root) (before (option_copied next.entry)))) }
{
    let mut leads = Vec::new(alloc);
    let mut inner = next;
    'scopes: loop {
        match inner {
            Some(scope) => {
                leads.push(inner_lead(alloc, front, scope)?)?;
                inner = outer(scope);
            }
            None => return Ok(leads),
        }
    }
}
