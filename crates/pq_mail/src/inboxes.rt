//! The inbox of a client: its posts, in the order of posting.
ghost use Rattle.std.specs.Prelude.{◌≡◌, ◌++◌, ◌∷◌, [], IfOk, OnErr, IfErr, IfSome, IfNone};
ghost use Rattle.pq_mail.specs.Posts.{asks, request_of};
ghost use Rattle.pq_mail.specs.Mailbox.{IsPrefixOf};

use crate::ends::{GetEnd, PutEnd, mailbox};
use crate::fault::{Memory, PostFault, PostRefused};
use crate::post::{Post, Receipt, copy_asked, counted};
use pq_core::Number;
use pq_rules::Rules;
use std::alloc::Global;
use std::marker::Model;
use std::sync::Wait;

/// The end of an inbox that posts. Contracts see the inbox's name and what was posted, in order.
#[derive(Drop)]
pub struct PostEnd<R: Rules> {
    alloc: Global,
    rules: R,
    asked: u64,
    end: PutEnd<Post<R::Key>>,
}

impl<R: Rules> Model for PostEnd<R> {
    ghost use Rattle.std.specs.Prelude.{◌≡◌};
    ghost use Rattle.pq_mail.specs.Mailbox.{Side};
    ghost use Rattle.pq_mail.specs.Posts.{asks};
    ghost use Rattle.pq_mail.specs.declared.post.Post.{Post};

    ghost Value = { Side (Post R.Key) };

    ghost view = { λ e. e.end };

    ghost invariant = { λ e. e.asked ≡ asks e.end.items };
}

/// The end of an inbox that hands its posts on. Contracts see the inbox's name and what was handed
/// on, in order.
#[derive(Drop)]
pub struct PorterEnd<K: Drop> {
    end: GetEnd<Post<K>>,
}

impl<K: Drop> Model for PorterEnd<K> {
    ghost use Rattle.pq_mail.specs.Mailbox.{Side};
    ghost use Rattle.pq_mail.specs.declared.post.Post.{Post};

    ghost Value = { Side (Post K) };

    ghost view = { λ e. e.end };
}

/// An empty inbox with room for 32 posts. `rules` copies the keys of requests.
pub fn inbox<R: Rules>(alloc: Global, rules: R) -> Result<(PostEnd<R>, PorterEnd<R::Key>), Memory>
    // `posted`, `carried`, `same`: Both ends of one mailbox, empty.
    ensures posted { IfOk result (λ r. r.0.items ≡ []) }
    ensures carried { IfOk result (λ r. r.1.items ≡ []) }
    ensures same { IfOk result (λ r. (r.0.table ≡ r.1.table) × (r.0.key ≡ r.1.key)) }
{
    let (put, got) = mailbox(alloc)?;
    let post = PostEnd {
        alloc,
        rules,
        asked: 0,
        end: put,
    };
    Ok((post, PorterEnd { end: got }))
}

impl<R: Rules> PostEnd<R> {
    /// Posts `post` after those posted before, and waits for room.
    ///
    /// The receipt has the number of requests posted before, and a copy of the request.
    ///
    /// # Errors
    ///
    /// In this order; the post comes back, and nothing was posted.
    ///
    /// - `Gone` where 2^64 - 1 requests were posted.
    /// - `Memory` where the request cannot be copied.
    /// - `Gone` where the porter end is gone.
    pub fn post<H: Wait>(
        &mut self,
        rt: &H,
        post: Post<R::Key>,
    ) -> Result<Receipt<R::Key>, PostRefused<R::Key>>
        // The post is the last one posted; the receipt has the number of requests posted before,
        // and the request if the post is one.
        ensures posted { IfOk result (λ receipt. (self.new.items ≡ self.old.items ++ post ∷ []) × (receipt.number ≡ asks self.old.items) × (receipt.request ≡ request_of post)) }
        // `refused`, `back`: A refusal posts nothing and hands the post back.
        ensures refused { OnErr result (self.new.items ≡ self.old.items) }
        ensures back { IfErr result (λ refused. refused.post ≡ post) }
        // An end stays one of its mailbox.
        ensures same { (self.new.table ≡ self.old.table) × (self.new.key ≡ self.old.key) }
    {
        let posted = self.post_quietly(rt, post);
        self.wake();
        posted
    }

    /// Wakes the end that hands posts on, if it waits.
    pub fn wake(&self) {
        self.end.wake();
    }

    /// Posts `post` as the call of that name does, but wakes nobody, unless it waits for room. The caller
    /// is to call `wake` after it.
    ///
    /// # Errors
    ///
    /// Those of `post`, in the same order.
    #[tactic(auto, using(crate::proofs::Asked::asks_after))]
    pub fn post_quietly<H: Wait>(
        &mut self,
        rt: &H,
        post: Post<R::Key>,
    ) -> Result<Receipt<R::Key>, PostRefused<R::Key>>
        // The post is the last one posted; the receipt has the number of requests posted before,
        // and the request if the post is one.
        ensures posted { IfOk result (λ receipt. (self.new.items ≡ self.old.items ++ post ∷ []) × (receipt.number ≡ asks self.old.items) × (receipt.request ≡ request_of post)) }
        // `refused`, `back`: A refusal posts nothing and hands the post back.
        ensures refused { OnErr result (self.new.items ≡ self.old.items) }
        ensures back { IfErr result (λ refused. refused.post ≡ post) }
        // An end stays one of its mailbox.
        ensures same { (self.new.table ≡ self.old.table) × (self.new.key ≡ self.old.key) }
    {
        let number = self.asked;
        if number == u64::MAX {
            let fault = PostFault::Gone;
            return Err(PostRefused { fault, post });
        }
        let after = counted(number, &post);
        match copy_asked(self.alloc, &self.rules, &post) {
            Err(_) => {
                let fault = PostFault::Memory;
                return Err(PostRefused { fault, post });
            }
            Ok(request) => match self.end.put_quietly(rt, post) {
                Ok(()) => {
                    self.asked = after;
                    let number = Number::new(number);
                    return Ok(Receipt { number, request });
                }
                Err(post) => {
                    let fault = PostFault::Gone;
                    return Err(PostRefused { fault, post });
                }
            },
        }
    }
}

impl<K: Drop> PorterEnd<K> {
    /// The next post, in the order of posting. It waits for one. `None` if no post is left and the
    /// end that posts is gone; then nothing was carried.
    pub fn next<H: Wait>(&mut self, rt: &H) -> Option<Post<K>>
        // `some`, `none`: The post is the next one carried; without one nothing was carried.
        ensures some { IfSome result (λ post. self.new.items ≡ self.old.items ++ post ∷ []) }
        ensures none { IfNone result (self.new.items ≡ self.old.items) }
        // An end stays one of its mailbox.
        ensures same { (self.new.table ≡ self.old.table) × (self.new.key ≡ self.old.key) }
    {
        self.end.get(rt)
    }
}

/// A law: what was carried of an inbox is a prefix of what was posted.
pub fn carried_is_prefix<R: Rules>(
    post: &mut PostEnd<R>,
    porter: PorterEnd<R::Key>,
) -> PorterEnd<R::Key>
    // Both ends are of one mailbox.
    requires same { (porter.table ≡ post.old.table) × (porter.key ≡ post.old.key) }
    // What was carried of an inbox is a prefix of what was posted.
    ensures prefix { IsPrefixOf porter.items post.old.items }
    // `posted`, `carried`: The end that posts is as it was, and the end that carries comes back.
    ensures posted { post.new ≡ post.old }
    ensures carried { result ≡ porter }
{
    let PorterEnd { end } = porter;
    let end = post.end.compare(end);
    PorterEnd { end }
}
