//! The errors of a tree.
//!
//! The folder uses `errors` and `tree`. Read in this order:
//!
//! - `unread_lines`: what is skipped, and a second package.
//! - `member_lines`: the members of messages and enums, by the modules that follow.
//! - `field_lines`, `value_lines`: the numbers of fields and of enum values.
//! - `range_lines`, `name_lines`: ranges that are reserved, and members with reserved names.
//! - `body_lines`: oneofs without a field, and enums without a value.
//! - `cover`: which values ranges cover; `aliases`: which enums allow two values with one number.

pub(crate) mod aliases;
pub(crate) mod body_lines;
pub(crate) mod cover;
pub(crate) mod field_lines;
pub(crate) mod member_lines;
pub(crate) mod name_lines;
pub(crate) mod range_lines;
pub(crate) mod unread_lines;
pub(crate) mod value_lines;
