//! What a client posts, and the receipt of a post.
ghost use Rattle.std.specs.Prelude.{◌≡◌, ◌+◌, ◌<◌, ◌^◌, ◌↔◌, IfOk, IsTrue};
ghost use Rattle.pq_mail.specs.Posts.{request_of, count_of, IsReceiptOf};

use crate::fault::Memory;
use crate::line::Item;
use pq_core::{Change, Label, Number, Reply, Request, copy_request, is_same_request};
use pq_rules::Rules;
use std::alloc::Global;

/// What a client posts into its inbox.
#[derive(Drop)]
pub enum Post<K> {
    /// A request, which gets one reply.
    Ask(Request<K>),
    /// An edit of a file, which gets none.
    Edit(Change),
    /// The client withdraws its requests with this label. It gets no reply of its own.
    Withdraw(Label),
    /// The client posts nothing more.
    End,
}

impl<K: Drop> Item for Post<K> {
    ghost fits = { λ n post. Unit {0} };
}

/// The receipt of a post. With that of a request the client takes its reply.
#[derive(Drop)]
pub struct Receipt<K> {
    /// The number of requests posted before. That of a request is the number of its reply.
    pub number: Number,
    /// The request, if the post is one; its key and its texts are copies.
    pub request: Option<Request<K>>,
}

/// A copy of the request that `post` is, if it is one.
pub(crate) fn copy_asked<R: Rules>(
    alloc: Global,
    rules: &R,
    post: &Post<R::Key>,
) -> Result<Option<Request<R::Key>>, Memory>
    ensures { IfOk result (λ r. r ≡ request_of post.now) }
{
    match post {
        Post::Ask(request) => Ok(Some(copy_request(alloc, rules, request)?)),
        Post::Edit(_) => Ok(None),
        Post::Withdraw(_) => Ok(None),
        Post::End => Ok(None),
    }
}

/// The count of requests after `post`, where `number` were posted before.
pub(crate) fn counted<K>(number: u64, post: &Post<K>) -> u64
    requires { number + 1 < 2 ^ 64 }
    ensures { result ≡ number + count_of post.now }
{
    match post {
        Post::Ask(_) => number + 1,
        Post::Edit(_) => number,
        Post::Withdraw(_) => number,
        Post::End => number,
    }
}

/// Whether `receipt` is that of the request of `reply`.
pub(crate) fn is_receipt_of<R: Rules, M>(
    rules: &R,
    receipt: &Receipt<R::Key>,
    reply: &Reply<R::Key, R::Value, M>,
) -> bool
    ensures { IsTrue result ↔ IsReceiptOf receipt.now reply.now }
{
    match &receipt.request {
        None => false,
        Some(request) => {
            reply.number() == receipt.number && is_same_request(rules, request, reply.request())
        }
    }
}
