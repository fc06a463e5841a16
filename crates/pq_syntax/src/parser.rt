//! The recursive descent: one function for each rule of `specs/Grammar`. One convention holds for
//! all of them.
//!
//! - `parse_x` reads the rule x from the first of `tokens` on, and returns what it read and the
//!   tokens after it. `skip_x` reads and returns the tokens after it alone. `x_at` returns which
//!   statement of a body begins, if one does.
//! - A function of a statement adds its node to `nodes`, and then those of its body. `depth` counts
//!   the statements that it is in. No other function adds nodes.
//! - A failure is an allocation failure, or the number of tokens left at the error. That number
//!   passes unchanged through every level.
//! - The contract of such a function has two clauses in the words of `specs/aux/Steps`. `taken`
//!   says what the rule takes, and how the result is read from its parse. `fault` says that the
//!   error is within the rule. Both hold whatever follows the rule, so no proof depends on the
//!   continuation.
//!
//! One token of look-ahead decides, and each token is taken once: the time is linear. Calls nest as
//! deep as the limits of nesting allow.

mod brackets;
mod constants;
mod context;
mod enums;
mod fields;
mod files;
mod messages;
mod names;
mod nodes;
mod oneofs;
mod options;
mod reserved;
mod services;
mod texts;
mod tokens;

pub(crate) use files::parse_file;
pub(crate) use texts::{across, read_name, read_strings};
