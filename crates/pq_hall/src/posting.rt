//! What a post does to the store: one call of it. It takes no lock and waits for nobody.
//! `prepared_step` is `post_step` of an edit whose text was made before.
ghost use Rattle.std.specs.Prelude.{◌≡◌, ◌<◌, IfOk};
ghost use Rattle.pq_inputs.specs.Sources.{file_in};
ghost use Rattle.pq_inputs.specs.Refusal.{last_revision};
ghost use Rattle.pq_core.specs.Bodies.{body_view};
ghost use Rattle.pq_core.specs.Moves.{changed};
ghost use Rattle.pq_core.specs.Points.{point_now};
ghost use Rattle.pq_core.specs.Stores.{Goes};
ghost use Rattle.pq_core.specs.Starts.{IsCountedIn, Log};
ghost use Rattle.pq_hall.specs.Steps.{IsStampFor, IsAnswerTo, IsEdited, Posts, inputs_posted, log_posted, not_asked, not_edited, not_input};
ghost use Rattle.pq_mail.specs.declared.post.Post.{Post};
ghost use Rattle.pq_mail.specs.declared.post.Post.TheVariants.{Edit};

use crate::fault::HallFault;
use pq_core::{
    AcceptFault, AcceptRefused, Body, ClientId, EditFault, EditRefused, Number, Prepared, Stamp,
    Store,
};
use pq_inputs::{InputFault, Revision};
use pq_mail::Post;
use pq_rules::Rules;

/// What became of a post.
#[derive(Drop)]
pub enum Moved<K> {
    /// The request was accepted, and has this number.
    Accepted(Number),
    /// The edit was accepted, and made this revision.
    Edited(Revision),
    /// The withdrawal was made. This is whether a request waited or was in a run, and was withdrawn.
    Withdrawn(bool),
    /// The client posts nothing more. The store is as it was.
    Ended,
    /// The window of the client is full. The request comes back, to be posted again.
    Later(Post<K>),
}

/// Makes the call of `post` to `store`: `accept`, `edit`, `withdraw`, or none at the end of the posts.
/// An edit comes with the stamp of the revision that it makes.
///
/// # Errors
///
/// In this order. A want of memory is `Memory` alone, never within `Edit`.
///
/// - `Closed` where the client is not open.
/// - `Edit` where a range of the edit is bad, or the inputs refuse its text.
/// - `Memory`; while changes with ranges are made, before `Edit`.
pub fn post_step<R: Rules, M: Stamp>(
    store: &mut Store<R, M>,
    client: ClientId,
    post: Post<R::Key>,
    stamp: Option<M>,
) -> Result<Moved<R::Key>, HallFault>
    // `IsStampFor`: An edit comes with a stamp. It is of the next revision and the sources after
    // the change; at the last revision, where each edit is refused, it may be any stamp.
    requires { IsStampFor M.point store.old.inputs post stamp }
    // The rules stay.
    ensures rules { store.new.rules ≡ store.old.rules }
    // The inputs are changed by an edit that made a revision, and by nothing else.
    ensures inputs { store.new.inputs ≡ inputs_posted store.old.inputs post result }
    // The table of memos is the same.
    ensures places { store.new.places ≡ store.old.places }
    // `IsAnswerTo`: What is answered is of the kind of the post; `Later` hands the post back.
    ensures answer { IfOk result (λ moved. IsAnswerTo post moved) }
    // `Posts`: It is the call of the post: `accept` of a request, `edit` of an edit, `withdraw` of
    // a withdrawal, none at the end of the posts. The answer is that of the call: `Edited(r)` where
    // the edit made the revision r, `Later` with the request where the window is full, `Withdrawn`
    // with whether a request was withdrawn.
    ensures moved { Goes R.Key.cmp (R.machine store.old.rules) M.point store.old store.new (Posts client post result) }
    // A log of starts and lost keys that was counted is counted after the call. A withdrawal adds
    // the keys that its runs held to those lost, and no other post adds to the log.
    ensures counted { (log : Log R.Key) → IsCountedIn R.Key.cmp (R.machine store.old.rules) store.old log → IsCountedIn R.Key.cmp (R.machine store.old.rules) store.new (log_posted store.old client post result log) }
{
    match post {
        Post::Ask(request) => match store.accept(client, request) {
            Ok(number) => return Ok(Moved::Accepted(number)),
            Err(refused) => return not_asked(refused),
        },
        Post::Edit(change) => match stamp {
            Some(stamp) => match store.edit(client, change, stamp) {
                Ok(revision) => return Ok(Moved::Edited(revision)),
                Err(refused) => return not_edited(refused.fault),
            },
            None => unreachable!(),
        },
        Post::Withdraw(label) => match store.withdraw(client, &label) {
            Ok(some) => return Ok(Moved::Withdrawn(some)),
            Err(_) => return Err(HallFault::Closed),
        },
        Post::End => return Ok(Moved::Ended),
    }
}

/// Makes the edit of a text that was prepared: what `post_step` does with its change. The body of the
/// change comes back, so that a caller who holds a lock can drop it later.
///
/// # Errors
///
/// Those of `post_step`, in the same order.
pub fn prepared_step<R: Rules, M: Stamp>(
    store: &mut Store<R, M>,
    client: ClientId,
    prepared: Prepared,
    stamp: M,
) -> (Result<Moved<R::Key>, HallFault>, Body)
    // The file has the text from which the change was prepared.
    requires current { (file_in store.old.inputs.files prepared.change.file).text ≡ prepared.before }
    // The stamp that is handed in is of the next revision and the sources after the change. At the
    // last revision, where each edit is refused, it may be any stamp.
    requires stamp { store.old.inputs.revision < last_revision → M.point stamp ≡ point_now (changed store.old.inputs prepared.change) }
    // The rules stay.
    ensures rules { store.new.rules ≡ store.old.rules }
    // `inputs`, `answer`, `moved`, `counted`: What `post_step` says, of an edit whose text was
    // prepared: it is the call `edit_prepared`.
    ensures inputs { let post : Post R.Key = Edit prepared.change in
        store.new.inputs ≡ inputs_posted store.old.inputs post result.0 }
    // The table of memos is the same.
    ensures places { store.new.places ≡ store.old.places }
    ensures answer { IfOk result.0 (λ moved. IsEdited moved) }
    // The body of the change comes back.
    ensures body { body_view result.1 ≡ prepared.change.body }
    ensures moved { let post : Post R.Key = Edit prepared.change in
        Goes R.Key.cmp (R.machine store.old.rules) M.point store.old store.new (Posts client post result.0) }
    ensures counted { (log : Log R.Key) → IsCountedIn R.Key.cmp (R.machine store.old.rules) store.old log → IsCountedIn R.Key.cmp (R.machine store.old.rules) store.new log }
{
    match store.edit_prepared(client, prepared, stamp) {
        Ok((revision, body)) => return (Ok(Moved::Edited(revision)), body),
        Err(refused) => {
            let EditRefused { fault, change } = refused;
            return (not_edited(fault), change.body);
        }
    }
}

/// What a post comes to whose request was refused.
fn not_asked<K: Drop>(refused: AcceptRefused<K>) -> Result<Moved<K>, HallFault>
    ensures { result ≡ not_asked refused.fault refused.request }
{
    let AcceptRefused { fault, request } = refused;
    match fault {
        AcceptFault::NoClient => Err(HallFault::Closed),
        AcceptFault::Closed => Err(HallFault::Closed),
        AcceptFault::WindowFull => Ok(Moved::Later(Post::Ask(request))),
        AcceptFault::Memory => Err(HallFault::Memory),
    }
}

/// What a post comes to whose edit was refused for `fault`.
fn not_edited<K>(fault: EditFault) -> Result<Moved<K>, HallFault>
    ensures { result ≡ not_edited fault }
{
    match fault {
        EditFault::NoClient => Err(HallFault::Closed),
        EditFault::Closed => Err(HallFault::Closed),
        EditFault::BadRange => Err(HallFault::Edit(EditFault::BadRange)),
        EditFault::Input(fault) => not_input(fault),
    }
}

/// What a post comes to whose edit the inputs refused for `fault`.
fn not_input<K>(fault: InputFault) -> Result<Moved<K>, HallFault>
    ensures { result ≡ not_input fault }
{
    match fault {
        InputFault::TextTooLong => Err(HallFault::Edit(EditFault::Input(fault))),
        InputFault::TooManyFiles => Err(HallFault::Edit(EditFault::Input(fault))),
        InputFault::RevisionsUsedUp => Err(HallFault::Edit(EditFault::Input(fault))),
        InputFault::Memory => Err(HallFault::Memory),
    }
}
