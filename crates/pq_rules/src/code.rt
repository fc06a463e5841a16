//! Numbers that are made of texts: unequal texts mostly have unequal numbers.
//!
//! A text is read eight bytes at a time. Texts of one number may differ, so who goes by numbers has
//! to compare the texts where these are equal.
ghost use Rattle.std.specs.Prelude.{◌≡◌, ◌≤◌, ◌+◌, length};
ghost use Rattle.pq_rules.specs.aux.Codes.{coded, text_code, word_at};

use pq_names::Text;

/// The factor of a code before each number: 2^64 over the golden ratio, odd.
const FACTOR: u64 = 11_400_714_819_323_198_485;

/// How many bytes are read at a time.
const WORD: usize = 8;

/// The code `code` with the number `part` after it.
#[inline(always)]
pub fn code_with(code: u64, part: u64) -> u64
    // The code with the number after it.
    ensures code { result ≡ coded code part }
{
    code.wrapping_mul(FACTOR).wrapping_add(part)
}

/// The number that the eight bytes from `at` on write, the lowest first.
#[inline(always)]
fn word_at(bytes: &[u8], at: usize) -> u64
    requires within { at + 8 ≤ length bytes.now }
    ensures word { result ≡ word_at bytes.now at }
{
    u64::from_le_bytes([
        bytes[at],
        bytes[at + 1],
        bytes[at + 2],
        bytes[at + 3],
        bytes[at + 4],
        bytes[at + 5],
        bytes[at + 6],
        bytes[at + 7],
    ])
}

/// A number that is made of the bytes of `text`. Unequal texts mostly have unequal numbers.
pub fn text_code(text: &Text) -> u64
    // The number that the bytes of the text determine.
    ensures code { result ≡ text_code text.now }
{
    let bytes = text.as_str().as_bytes();
    let words = bytes.len() / WORD;
    let mut code = bytes.len() as u64;
    'words: for i in 0..words {
        code = code_with(code, word_at(bytes, WORD * i));
    }
    'bytes: for i in WORD * words..bytes.len() {
        code = code_with(code, bytes[i] as u64);
    }
    code
}
