//! The numbers of texts, in the order of the texts: what finds the number of a text.
//!
//! A binary search compares at most 21 texts where there are 1,048,576.
//! A new number moves the numbers after it by one place, 4 bytes each.
ghost use Rattle.std.specs.Prelude.{◌≡◌, ◌<◌, ◌≤◌, ◌^◌, [], ◌∷◌, ◌++◌, get_or, length, slice_get, Some, IfOk, IfErr, OnErr};
ghost use Rattle.std.specs.List.{insert};
ghost use Rattle.pq_names.specs.aux.Order.{against, IsOrderOf, IsGap};

use crate::fault::Memory;
use crate::id::NameId;
use crate::text::Text;
use std::cmp::Ordering;

/// The place in `order` of the number of `text`, or else the place at which that number keeps the
/// order.
pub(crate) fn search(order: &[NameId], texts: &[Text], text: &str) -> Result<usize, usize>
    requires { IsOrderOf order.now texts.now }
    ensures found { IfOk result (λ place. (place < length order.now) ×
        (slice_get texts.now (get_or order.now place 0) ≡ Some text.now)) }
    ensures gap { IfErr result (λ place. IsGap order.now texts.now text.now place) }
{
    let mut low = 0;
    let mut high = order.len();
    while low < high {
        let middle = low + (high - low) / 2;
        match compare_at(order, texts, middle, text) {
            Ordering::Less => low = middle + 1,
            Ordering::Equal => return Ok(middle),
            Ordering::Greater => high = middle,
        }
    }
    Err(low)
}

/// How the text whose number `order` has at `place` compares with `text`.
fn compare_at(order: &[NameId], texts: &[Text], place: usize, text: &str) -> Ordering
    requires place { place < length order.now }
    requires number { get_or order.now place 0 < length texts.now }
    ensures { result ≡ against order.now texts.now place text.now }
{
    let id = order[place];
    texts[id.number() as usize].as_str().cmp(text)
}

/// Puts `text` after the other texts, and its number into `order` at `place`. After `Memory` both
/// are as they were.
pub(crate) fn add(
    order: &mut Vec<NameId>,
    texts: &mut Vec<Text>,
    place: usize,
    text: &str,
) -> Result<NameId, Memory>
    requires place { place ≤ length order.old.items }
    requires room { length texts.old.items < 2 ^ 32 }
    ensures number { IfOk result (λ id. id ≡ length texts.old.items) }
    ensures order { IfOk result (λ id. order.new.items ≡ insert order.old.items place id) }
    ensures texts { IfOk result (λ _. texts.new.items ≡ texts.old.items ++ text.now ∷ []) }
    ensures refused { OnErr result
        ((order.new.items ≡ order.old.items) × (texts.new.items ≡ texts.old.items)) }
{
    let id = NameId::of(texts.len() as u32);
    let text = Text::new(*texts.allocator(), text)?;
    texts.reserve(1)?;
    order.insert(place, id)?;
    texts.push_reserved(text);
    Ok(id)
}
