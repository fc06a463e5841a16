//! The codes of names: numbers by which unequal names are mostly told apart.
//!
//! A code is made of the last bytes of a name, 128 at most, and of the number of its bytes. It is the
//! same however the name is cut into pieces. Names of one code may differ.
ghost use Rattle.std.specs.Prelude.{◌≡◌, ◌%◌, ◌^◌, ◌++◌, length, reverse, take};
ghost use Rattle.std.specs.List.{concat};
ghost use Rattle.pq_schema.specs.aux.NameCodes.{code_from, coded, tail_code};

use crate::names::name_order::lesser;
use crate::names::spelled::Front;
use pq_names::Text;

/// The most bytes that a code is made of.
const CODED: usize = 128;

/// The factor of a code before each number: 2^64 over the golden ratio, odd.
const FACTOR: u64 = 11_400_714_819_323_198_485;

/// The code `code` with the number `part` after it.
pub(crate) fn coded(code: u64, part: u64) -> u64
    ensures code { result ≡ coded code part }
{
    code.wrapping_mul(FACTOR).wrapping_add(part)
}

/// The number of bytes of `parts`.
fn count_of_parts(parts: &[Text]) -> u64
    ensures count { result ≡ length (concat parts.now) % 2 ^ 64 }
{
    let mut count = 0u64;
    'parts: for i in 0..parts.len() {
        count = count.wrapping_add(parts[i].as_str().len() as u64);
    }
    count
}

/// The number of bytes of `front` and `text`.
pub(crate) fn count_of(front: &Front<'_>, text: &str) -> u64
    ensures count { result ≡ length (front.now ++ text.now) % 2 ^ 64 }
{
    count_of_parts(front.parts)
        .wrapping_add(front.head.len() as u64)
        .wrapping_add(text.len() as u64)
}

/// The code `code` with the last bytes of `text` after it, `most` of them at most.
fn code_after(code: u64, text: &[u8], most: usize) -> u64
    ensures code { result ≡ code_from code (take most (reverse text.now)) }
{
    let count = text.len();
    let taken = lesser(most, count);
    let mut code = code;
    'bytes: for i in 0..taken {
        code = coded(code, text[count - 1 - i] as u64);
    }
    code
}

/// The code of the last bytes of `head`, `parts` and `text`, piece by piece.
pub(crate) fn code_of_pieces(head: &str, parts: &[Text], text: &[u8]) -> u64
    ensures code { result ≡ tail_code ((head.now ++ concat parts.now) ++ text.now) }
{
    let mut parts = parts;
    let mut text = text;
    let mut left = CODED;
    let mut code = 0u64;
    'pieces: loop {
        code = code_after(code, text, left);
        left = left.saturating_sub(text.len());
        if left == 0 {
            return code;
        }
        match parts.split_last() {
            Some((part, before)) => {
                text = part.as_str().as_bytes();
                parts = before;
            }
            None => return code_after(code, head.as_bytes(), left),
        }
    }
}
