//! What a word of a row names, and what the tests of several crates ask.
ghost use Rattle.std.specs.Prelude.{◌≡◌, ◌++◌, IfOk, string_bytes};

use pq_inputs::{Durability, Inputs, Memory};
use pq_lex::Code;
use std::alloc::Global;

/// `before` and then `text`. The only error is `Memory`, after an allocation failure.
pub fn joined(alloc: Global, before: &str, text: &str) -> Result<String, Memory>
    ensures { IfOk result (λ whole. string_bytes whole ≡ before.now ++ text.now) }
{
    let mut whole = String::from_str(alloc, before)?;
    whole.push_str(text)?;
    Ok(whole)
}

/// Whether the file `name` could be set to `text` with the durability Low. It could not where there
/// was no memory for `text`.
pub fn is_set(inputs: &mut Inputs, name: &str, text: Result<String, Memory>) -> bool {
    match text {
        Ok(text) => inputs.set(name, Some(text), Durability::Low).is_ok(),
        Err(_) => false,
    }
}

/// The durability that a word names.
pub fn durability_of(word: &str) -> Durability {
    match word {
        "high" => Durability::High,
        "medium" => Durability::Medium,
        _ => Durability::Low,
    }
}

/// The name of a lexical error.
pub fn lexical_name(code: Code) -> &'static str {
    match code {
        Code::UnclosedComment => "UnclosedComment",
        Code::UnclosedString => "UnclosedString",
        Code::BadEscape => "BadEscape",
        Code::NumberRunsOn => "NumberRunsOn",
        Code::OtherCharacter => "OtherCharacter",
    }
}

/// Whether values of type `T` may be sent to another thread.
pub fn is_sendable<T: Send>() -> bool {
    true
}
