//! What a message of a client asks for: the item of the message.
//!
//! `Item::Ask` and `Item::Say` say of a request what `Want::Demand` and `Want::Fixed` say inside
//! it. The code that routes messages reads from the item whether the sources are needed. The code that
//! writes the response gets the request alone, and reads it from the want. `HasFittingWant` keeps
//! both in step.
//!
//! The type is generic over the key `K` of a query. `Session::on` makes it of `ProtoKey`.
use pq_core::{Change, Label, Request};

/// What a message asks for.
#[derive(Drop)]
pub enum Item<K> {
    /// A request that a query by the sources answers.
    Ask(Request<K>),
    /// A request, or a body that is not a message, that a fixed text answers: the whole body of the
    /// response.
    Say(Request<K>),
    /// An edit of the sources.
    Edit(Change),
    /// A withdrawal of the requests with this label, which is not `None`.
    Withdraw(Label),
    /// Nothing.
    Ignore,
    /// The end of the session, with this status.
    End(u8),
}
