//! What descriptors, symbols and replies are printed with: `printer` prints tokens, `lists` what the
//! statements of a body make, `ranges` positions and ranges.

pub(crate) mod lists;
pub(crate) mod printer;
pub(crate) mod ranges;
