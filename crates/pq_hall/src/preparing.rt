//! Edits whose text a porter makes before it takes the lock.
//!
//! A list of changes can take long to make. The porter copies the text of the file under the
//! store's lock, makes the text after the changes under no lock, and takes the lock again. Where
//! the file still has the text of the copy, the porter makes the edit; else it begins again. So
//! other clients wait for the copy, the comparison and the edit, each linear in the text of the
//! file. The porter drops the list of changes when the lock is free.
ghost use Rattle.std.specs.Prelude.{◌≡◌, IfOk, IfErr};
ghost use Rattle.pq_inputs.specs.Sources.{file_in};
ghost use Rattle.pq_hall.specs.aux.Kinds.{IsKindOf};
ghost use Rattle.pq_mail.specs.declared.post.Post.{Post};
ghost use Rattle.pq_mail.specs.declared.post.Post.TheVariants.{Edit};

use crate::carrying::Carried;
use crate::fault::HallFault;
use crate::hall::Hall;
use crate::mark::BoardName;
use crate::one_value::OneValue;
use crate::posting::{Moved, prepared_step};
use crate::state::{Client, State};
use pq_core::{Body, Change, Memory, Prepared};
use pq_mail::Post;
use pq_rules::Rules;
use std::alloc::Global;
use std::sync::Wait;

/// What a post came to under the lock, or the change where the file has another text than the one
/// from which it was prepared.
type Tried<R, J> = Result<Carried<R, J>, Change>;

/// The change of `post`, if `post` is an edit whose text is worth preparing; else `post`.
pub(crate) fn long_change<K>(post: Post<K>) -> Result<Change, Post<K>>
    ensures long { IfOk result (λ change. post ≡ Edit change) }
    ensures back { IfErr result (λ back. back ≡ post) }
{
    match post {
        Post::Edit(change) => {
            if change.is_long() {
                return Ok(change);
            }
            return Err(Post::Edit(change));
        }
        Post::Ask(request) => return Err(Post::Ask(request)),
        Post::Withdraw(label) => return Err(Post::Withdraw(label)),
        Post::End => return Err(Post::End),
    }
}

/// A copy of `text`.
fn copy_text(alloc: Global, text: Option<&str>) -> Result<Option<String>, Memory> {
    match text {
        Some(text) => Ok(Some(String::from_str(alloc, text)?)),
        None => Ok(None),
    }
}

impl<R: Rules + OneValue, J: BoardName, H: Wait + Copy + Drop> Hall<R, J, H> {
    /// Makes the edit of `change`, whose text it makes before it takes the lock.
    pub(crate) fn carry_long(
        &self,
        rt: &H,
        client: Client,
        change: Change,
    ) -> Result<Carried<R, J>, HallFault>
        ensures { let post : Post R.Key = Edit change in
            IfOk result (λ carried. IsKindOf carried.0 post) }
    {
        let mut change = change;
        for _ in rt.forever() {
            let prepared = self.prepare(rt, change)?;
            match self.edit_prepared(rt, client, prepared)? {
                Ok(carried) => return Ok(carried),
                Err(back) => change = back,
            }
        }
        unreachable!()
    }

    /// Makes the text after `change` of the text of its file, under no lock.
    fn prepare(&self, rt: &H, change: Change) -> Result<Prepared, HallFault>
        ensures { IfOk result (λ prepared. prepared.change ≡ change) }
    {
        let Ok(before) = self.text_before(rt, &change) else {
            return Err(HallFault::Memory);
        };
        match Prepared::of(self.alloc, change, before) {
            Ok(prepared) => Ok(prepared),
            Err(_) => Err(HallFault::Memory),
        }
    }

    /// A copy of the text of the file of `change`.
    fn text_before(&self, rt: &H, change: &Change) -> Result<Option<String>, Memory> {
        let state = self.state.lock(rt);
        copy_text(self.alloc, state.store.inputs().get(change.file.as_str()))
    }

    /// Makes the edit of `prepared` under the lock, if the file still has the text from which it
    /// was prepared; else the change comes back. The changes that were made are dropped when the
    /// lock is free.
    fn edit_prepared(
        &self,
        rt: &H,
        client: Client,
        prepared: Prepared,
    ) -> Result<Tried<R, J>, HallFault>
        ensures made { let post : Post R.Key = Edit prepared.change in
            IfOk result (λ tried. IfOk tried (λ carried. IsKindOf carried.0 post)) }
        ensures back { IfOk result (λ tried. IfErr tried (λ change. change ≡ prepared.change)) }
    {
        let (tried, _body) = self.edit_locked(rt, client, prepared);
        tried
    }

    /// What `edit_prepared` does under the lock. The body of a change that does not come back is
    /// beside the answer.
    fn edit_locked(
        &self,
        rt: &H,
        client: Client,
        prepared: Prepared,
    ) -> (Result<Tried<R, J>, HallFault>, Option<Body>)
        ensures made { let post : Post R.Key = Edit prepared.change in
            IfOk result.0 (λ tried. IfOk tried (λ carried. IsKindOf carried.0 post)) }
        ensures back { IfOk result.0 (λ tried. IfErr tried (λ change. change ≡ prepared.change)) }
    {
        let mut state = self.state.lock(rt);
        if !prepared.is_current(state.store.inputs()) {
            return (Ok(Err(prepared.into_change())), None);
        }
        let (stepped, body) = self.step_prepared(rt, &mut state, client, prepared);
        match stepped {
            Ok(moved) => {
                let after = self.carried(&mut state, client, false, false);
                return (Ok(Ok((moved, after))), Some(body));
            }
            Err(fault) => return (Err(fault), Some(body)),
        }
    }

    /// Makes the call of the store. The edit gets a mark before. The body of the change comes back.
    fn step_prepared(
        &self,
        rt: &H,
        state: &mut State<R, J>,
        client: Client,
        prepared: Prepared,
    ) -> (Result<Moved<R::Key>, HallFault>, Body)
        requires { (file_in state.old.store.inputs.files prepared.change.file).text ≡ prepared.before }
        ensures { let post : Post R.Key = Edit prepared.change in
            IfOk result.0 (λ moved. IsKindOf moved post) }
    {
        match self.board.push(rt, state.store.inputs(), prepared.change()) {
            Ok(mark) => return prepared_step(&mut state.store, client.id(), prepared, mark),
            Err(_) => return (Err(HallFault::Memory), prepared.into_change().body),
        }
    }
}
