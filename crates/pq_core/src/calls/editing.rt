//! Accepting edits of clients.
//!
//! An edit makes the text of the file, if it comes as changes with ranges, and sets it. Where a
//! caller has prepared the text (`Prepared`), the edit takes that text. No edit waits for a run. An
//! edit whose revision is a turn ends every run (`turning`).
ghost use Rattle.std.specs.Prelude.{◌≡◌, ◌<◌, ℕ, IfOk, OnOk, IfErr, IfSome, IfNone, Some, option_map, string_bytes};
ghost use Rattle.pq_inputs.specs.Refusal.{last_revision};
ghost use Rattle.pq_inputs.specs.Sources.{file_in};
ghost use Rattle.pq_core.specs.Bodies.{body_view};
ghost use Rattle.pq_core.specs.Changes.{ChangeView, set, ranged};
ghost use Rattle.pq_core.specs.Preparing.{bytes_made, revision_of};
ghost use Rattle.pq_core.specs.Points.{point_now};
ghost use Rattle.pq_core.specs.Moves.{Edits, IsRanged, changed, inputs_after, text_made};
ghost use Rattle.pq_core.specs.Stores.{Goes};
ghost use Rattle.pq_core.specs.Starts.{IsCountedIn, Log};
ghost use Rattle.pq_core.specs.aux.Rising.{found};
ghost use Rattle.pq_core.specs.Accounts.{AccountView};
ghost use Rattle.pq_core.specs.aux.Accepting.{MayNotEdit};
ghost use Rattle.pq_core.specs.aux.Runs.{RunView};
ghost use Rattle.pq_core.specs.aux.Turning.{Sets};

use crate::store::store::Store;
use crate::values::fault::{EditFault, EditRefused, Memory};
use crate::values::ids::ClientId;
use crate::values::prepared::{Prepared, text_made};
use crate::values::request::{Body, Change};
use crate::values::stamp::Stamp;
use pq_inputs::{Durability, InputFault, Revision, SetRefused};
use pq_memo::kept_is_sound;
use pq_names::Text;
use pq_rules::Rules;

/// A refusal with `body` in the place of the body of its change.
fn with_body(refused: EditRefused, body: Body) -> EditRefused
    ensures { result ≡ record { fault = refused.fault; change = record { file = refused.change.file; body = body_view body; durability = refused.change.durability } } }
{
    let EditRefused { fault, change } = refused;
    let Change {
        file,
        durability,
        ..
    } = change;
    let change = Change {
        file,
        body,
        durability,
    };
    EditRefused { fault, change }
}

impl<R: Rules, M: Stamp> Store<R, M> {
    ghost use Rattle.pq_core.specs.Stores.{held};

    /// The reason to refuse an edit of `client` whatever the change is.
    fn edit_refusal(&self, client: u64) -> Option<EditFault>
        ensures refused { IfSome result (λ fault. MayNotEdit (held self.now) client fault) }
        ensures may { IfNone result ((account : AccountView R.Key R.Value M) × (found self.now.accounts.items client ≡ Some account)) }
    {
        if client >= self.clients {
            return Some(EditFault::NoClient);
        }
        match self.accounts.get(client) {
            Some(_) => return None,
            None => return Some(EditFault::Closed),
        }
    }

    /// Makes the change of `client`, at the next revision, of which `stamp` is the stamp. It waits
    /// for no run.
    ///
    /// # Errors
    ///
    /// `NoClient`, `Closed`, `BadRange`, and those of `Inputs::set`, in this order; but an
    /// allocation failure while changes with ranges are made comes before the last two. The change
    /// comes back.
    pub fn edit(
        &mut self,
        client: ClientId,
        change: Change,
        stamp: M,
    ) -> Result<Revision, EditRefused>
        // The stamp that is handed in is of the next revision and the sources after the change. At
        // the last revision, where each edit is refused, it may be any stamp.
        requires { self.old.inputs.revision < last_revision → M.point stamp ≡ point_now (changed self.old.inputs change) }
        // `rules`, `inputs`: The rules stay. The inputs stay, but for an edit that is not refused,
        // which makes its change at the next revision.
        ensures rules { self.new.rules ≡ self.old.rules }
        ensures inputs { self.new.inputs ≡ inputs_after self.old.inputs change result }
        // The table of memos is the same.
        ensures places { self.new.places ≡ self.old.places }
        // A refusal hands back what was handed in.
        ensures back { IfErr result (λ refused. refused.change ≡ change) }
        // `Goes`: As the call of a core: the answer is a move of the store's ledger, in which a
        // reply is ready from its making until it is acknowledged as put. Each reply that became
        // ready is made, what was made is so still while it is ready, and nothing else is.
        ensures moved { Goes R.Key.cmp (R.machine self.old.rules) M.point self.old self.new (Edits client change result) }
        // A log that was counted is counted after the call, and nothing is added.
        ensures counted { (log : Log R.Key) → IsCountedIn R.Key.cmp (R.machine self.old.rules) self.old log → IsCountedIn R.Key.cmp (R.machine self.old.rules) self.new log }
    {
        if let Some(fault) = self.edit_refusal(client.number()) {
            return Err(EditRefused { fault, change });
        }
        let Change {
            file,
            body,
            durability,
        } = change;
        match body {
            Body::Set(text) => return self.edit_whole(client, file, text, durability, stamp),
            Body::Ranged(changes) => {
                let body = Body::Ranged(changes);
                let change = Change {
                    file,
                    body,
                    durability,
                };
                return self.edit_ranged(client, change, stamp);
            }
        }
    }

    /// Makes a change of `client` whose text was prepared, as `edit` does. The body of the change comes
    /// back, so that a caller who holds a lock can drop it later.
    ///
    /// # Errors
    ///
    /// Those of `edit`, in the same order.
    pub fn edit_prepared(
        &mut self,
        client: ClientId,
        prepared: Prepared,
        stamp: M,
    ) -> Result<(Revision, Body), EditRefused>
        // The file has the text from which the change was prepared.
        requires current { (file_in self.old.inputs.files prepared.change.file).text ≡ prepared.before }
        // The stamp that is handed in is of the next revision and the sources after the change. At
        // the last revision, where each edit is refused, it may be any stamp.
        requires stamp { self.old.inputs.revision < last_revision → M.point stamp ≡ point_now (changed self.old.inputs prepared.change) }
        // `rules`, `inputs`: The rules stay. The inputs stay, but for an edit that is not refused,
        // which makes its change at the next revision.
        ensures rules { self.new.rules ≡ self.old.rules }
        ensures inputs { self.new.inputs ≡ inputs_after self.old.inputs prepared.change result }
        // `places`, `back`, `moved`, `counted`: What `edit` says, of a change whose text was
        // prepared.
        ensures places { self.new.places ≡ self.old.places }
        // The body of the change comes back with the revision.
        ensures body { IfOk result (λ made. body_view made.1 ≡ prepared.change.body) }
        ensures back { IfErr result (λ refused. refused.change ≡ prepared.change) }
        ensures moved { Goes R.Key.cmp (R.machine self.old.rules) M.point self.old self.new (Edits client prepared.change (revision_of result)) }
        ensures counted { (log : Log R.Key) → IsCountedIn R.Key.cmp (R.machine self.old.rules) self.old log → IsCountedIn R.Key.cmp (R.machine self.old.rules) self.new log }
    {
        let Prepared { change, made, .. } = prepared;
        if let Some(fault) = self.edit_refusal(client.number()) {
            return Err(EditRefused { fault, change });
        }
        return self.edit_made(client, change, made, stamp);
    }

    /// Makes a change with ranges of the open client `client`.
    fn edit_ranged(
        &mut self,
        client: ClientId,
        change: Change,
        stamp: M,
    ) -> Result<Revision, EditRefused>
        requires stamp { self.old.inputs.revision < last_revision → M.point stamp ≡ point_now (changed self.old.inputs change) }
        requires ranged { IsRanged change.body }
        requires may { (account : AccountView R.Key R.Value M) × (found self.old.accounts.items client ≡ Some account) }
        ensures rules { self.new.rules ≡ self.old.rules }
        ensures inputs { self.new.inputs ≡ inputs_after self.old.inputs change result }
        ensures places { self.new.places ≡ self.old.places }
        ensures back { IfErr result (λ refused. refused.change ≡ change) }
        ensures moved { Goes R.Key.cmp (R.machine self.old.rules) M.point self.old self.new (Edits client change result) }
        ensures counted { (log : Log R.Key) → IsCountedIn R.Key.cmp (R.machine self.old.rules) self.old log → IsCountedIn R.Key.cmp (R.machine self.old.rules) self.new log }
    {
        match self.text_of(&change) {
            Ok(made) => match self.edit_made(client, change, made, stamp) {
                Ok((revision, _body)) => return Ok(revision),
                Err(refused) => return Err(refused),
            },
            Err(_) => {
                let fault = EditFault::Input(InputFault::Memory);
                return Err(EditRefused { fault, change });
            }
        }
    }

    /// The text after `change` of the text of its file, or `None` where a range is bad.
    fn text_of(&self, change: &Change) -> Result<Option<Option<String>>, Memory>
        ensures { IfOk result (λ made. bytes_made made ≡ text_made self.now.inputs.files change.now) }
    {
        let before = self.inputs.get(change.file.as_str());
        text_made(self.alloc, &change.body, before)
    }

    /// Makes a change of the open client `client`, of which `made` is the text. The body of the
    /// change comes back.
    fn edit_made(
        &mut self,
        client: ClientId,
        change: Change,
        made: Option<Option<String>>,
        stamp: M,
    ) -> Result<(Revision, Body), EditRefused>
        requires stamp { self.old.inputs.revision < last_revision → M.point stamp ≡ point_now (changed self.old.inputs change) }
        requires made { bytes_made made ≡ text_made self.old.inputs.files change }
        requires may { (account : AccountView R.Key R.Value M) × (found self.old.accounts.items client ≡ Some account) }
        ensures rules { self.new.rules ≡ self.old.rules }
        ensures inputs { self.new.inputs ≡ inputs_after self.old.inputs change result }
        ensures places { self.new.places ≡ self.old.places }
        ensures body { IfOk result (λ made. body_view made.1 ≡ change.body) }
        ensures back { IfErr result (λ refused. refused.change ≡ change) }
        ensures moved { Goes R.Key.cmp (R.machine self.old.rules) M.point self.old self.new (Edits client change (revision_of result)) }
        ensures counted { (log : Log R.Key) → IsCountedIn R.Key.cmp (R.machine self.old.rules) self.old log → IsCountedIn R.Key.cmp (R.machine self.old.rules) self.new log }
    {
        let Some(text) = made else {
            let fault = EditFault::BadRange;
            return Err(EditRefused { fault, change });
        };
        let Change {
            file,
            body,
            durability,
        } = change;
        match self.edit_whole(client, file, text, durability, stamp) {
            Ok(revision) => return Ok((revision, body)),
            Err(refused) => return Err(with_body(refused, body)),
        }
    }

    /// Sets `file` to `text`, or removes it where there is no text, for the open client `client`.
    /// Ends every run where the revision is a turn.
    fn edit_whole(
        &mut self,
        client: ClientId,
        file: Text,
        text: Option<String>,
        durability: Durability,
        stamp: M,
    ) -> Result<Revision, EditRefused>
        requires stamp { let change : ChangeView = record { file = file; body = set (option_map string_bytes text); durability = durability } in
            self.old.inputs.revision < last_revision → M.point stamp ≡ point_now (changed self.old.inputs change) }
        requires may { (account : AccountView R.Key R.Value M) × (found self.old.accounts.items client ≡ Some account) }
        ensures rules { self.new.rules ≡ self.old.rules }
        ensures inputs { let change : ChangeView = record { file = file; body = set (option_map string_bytes text); durability = durability } in
            self.new.inputs ≡ inputs_after self.old.inputs change result }
        ensures places { self.new.places ≡ self.old.places }
        ensures back { let change : ChangeView = record { file = file; body = set (option_map string_bytes text); durability = durability } in
            IfErr result (λ refused. refused.change ≡ change) }
        ensures moved { let change : ChangeView = record { file = file; body = set (option_map string_bytes text); durability = durability } in
            Goes R.Key.cmp (R.machine self.old.rules) M.point self.old self.new (Edits client change result) }
        ensures counted { (log : Log R.Key) → IsCountedIn R.Key.cmp (R.machine self.old.rules) self.old log → IsCountedIn R.Key.cmp (R.machine self.old.rules) self.new log }
    {
        match self.set_whole(client, file, text, durability, stamp) {
            Ok(revision) => {
                self.end_runs_at(revision);
                return Ok(revision);
            }
            Err(refused) => return Err(refused),
        }
    }

    /// Sets `file` to `text`, or removes it where there is no text, for the open client `client`.
    /// Every run is as it was, and was started before the revision that this makes.
    fn set_whole(
        &mut self,
        client: ClientId,
        file: Text,
        text: Option<String>,
        durability: Durability,
        stamp: M,
    ) -> Result<Revision, EditRefused>
        requires stamp { let change : ChangeView = record { file = file; body = set (option_map string_bytes text); durability = durability } in
            self.old.inputs.revision < last_revision → M.point stamp ≡ point_now (changed self.old.inputs change) }
        requires may { (account : AccountView R.Key R.Value M) × (found self.old.accounts.items client ≡ Some account) }
        ensures rules { self.new.rules ≡ self.old.rules }
        ensures inputs { let change : ChangeView = record { file = file; body = set (option_map string_bytes text); durability = durability } in
            self.new.inputs ≡ inputs_after self.old.inputs change result }
        ensures places { self.new.places ≡ self.old.places }
        ensures back { let change : ChangeView = record { file = file; body = set (option_map string_bytes text); durability = durability } in
            IfErr result (λ refused. refused.change ≡ change) }
        ensures moved { let change : ChangeView = record { file = file; body = set (option_map string_bytes text); durability = durability } in
            Goes R.Key.cmp (R.machine self.old.rules) M.point self.old self.new (Sets client change result) }
        ensures accounts { self.new.accounts ≡ self.old.accounts }
        ensures late { OnOk result ((r : ℕ) (run : RunView R.Key R.Part) → found self.new.runs.items r ≡ Some run → run.started < self.new.inputs.revision) }
        ensures counted { (log : Log R.Key) → IsCountedIn R.Key.cmp (R.machine self.old.rules) self.old log → IsCountedIn R.Key.cmp (R.machine self.old.rules) self.new log }
    {
        let _latest = self.inputs.now();
        kept_is_sound(&self.memos);
        match self.inputs.set(file.as_str(), text, durability) {
            Ok(revision) => {
                let _bounded = self.inputs.now();
                self.stamp = stamp;
                return Ok(revision);
            }
            Err(refused) => {
                let SetRefused { fault, text } = refused;
                let change = Change {
                    file,
                    body: Body::Set(text),
                    durability,
                };
                let fault = EditFault::Input(fault);
                return Err(EditRefused { fault, change });
            }
        }
    }
}
