//! Why a post is refused, and why there is no reply to a receipt.
use crate::post::Post;
pub use std::alloc::AllocError as Memory;
use thiserror::Error;

/// Why a post was refused. Nothing was posted.
#[derive(Clone, Copy, Debug, PartialEq, Eq, Error)]
pub enum PostFault {
    /// The porter end is gone, or the numbers of receipts are used up.
    #[error("nobody carries the posts")]
    Gone,
    /// An allocation failed.
    #[error("out of memory")]
    Memory,
}

/// A post that was refused. It comes back.
#[derive(Drop)]
pub struct PostRefused<K> {
    /// Why it was refused.
    pub fault: PostFault,
    /// The post, as it was handed in.
    pub post: Post<K>,
}

/// Why there is no reply to a receipt.
#[derive(Clone, Copy, Debug, PartialEq, Eq, Error)]
pub enum MailEnd {
    /// No reply is left, and the end that puts replies is gone. Nothing was taken.
    #[error("the outbox has ended")]
    Ended,
    /// The next reply is not that of the receipt. It was taken, and is dropped.
    #[error("the next reply is not that of the receipt")]
    Stranger,
}
