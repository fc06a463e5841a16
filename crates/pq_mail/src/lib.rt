//! Mailboxes between the threads of a server: inboxes of posts, outboxes of replies.
//!
//! A mailbox is a bounded queue of 32 items with one end that puts and one that gets. What was got is
//! always a prefix of what was put, whatever threads do (`carried_is_prefix`, `taken_is_prefix`). Each
//! end is seen as the list of what it has put or got, so each call says what it adds to that list.
//! A receipt counts the requests posted before, and `TakeEnd::next` gives a reply only to its receipt.
//!
//! Definitions: `specs/Mailbox` (the ends of a mailbox), `specs/Posts` (posts and receipts).
//! Modules: `line` (the rule of a mailbox, and its kinds of step), `bell` (how a get waits), `ends` (the
//! two ends of any mailbox), `post`, `inboxes`, `right` (replies whose type keeps that they are right),
//! `outboxes`, `fault`.
#![tactic(auto)]

mod bell;
mod ends;
mod fault;
mod inboxes;
mod line;
mod outboxes;
mod post;
mod right;

pub use ends::CAPACITY;
pub use fault::{MailEnd, Memory, PostFault, PostRefused};
pub use inboxes::{PorterEnd, PostEnd, carried_is_prefix, inbox};
pub use outboxes::{LaneEnd, TakeEnd, outbox, taken_is_prefix};
pub use post::{Post, Receipt};
pub use right::RightReply;
