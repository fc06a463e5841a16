//! Calls of a core that end with its store: opening, accepting, and the steps and ends of runs.
//!
//! The replies that a call of the store makes are passed on to their lanes in the same call.
ghost use Rattle.std.specs.Prelude.{◌≡◌, ◌<◌, [], IfOk, IfErr};
ghost use Rattle.pq_inputs.specs.Refusal.{last_revision};
ghost use Rattle.pq_memo.specs.Table.{memo_at};
ghost use Rattle.pq_memo.specs.Demand.{NoneLost};
ghost use Rattle.pq_core.specs.Points.{point_now};
ghost use Rattle.pq_core.specs.Ledger.{Ledger};
ghost use Rattle.pq_core.specs.Moves.{Reaches, Opens, Accepts, Edits, Starts, Looks, Gives, Starves, Withdraws, IsMade, IsRequestOf, changed, inputs_after};
ghost use Rattle.pq_core.specs.Cores.{StandsFor, HandsOut, HasCause};
ghost use Rattle.pq_core.specs.Stores.{NamesHolder};
ghost use Rattle.pq_core.specs.Starts.{IsCountedFor, Log, log_moved, log_starved, log_withdrawn};

use crate::lanes::cores::Core;
use crate::lanes::lane::{Lane, Places};
use crate::lanes::outbox::Outbox;
use crate::lanes::passing::pass_on_all;
use crate::runs::work::{Done, Work};
use crate::values::fault::{
    AcceptRefused, EditRefused, GiveRefused, LookFault, OpenFault, OpenRefused, WithdrawFault,
};
use crate::values::ids::{ClientId, Number};
use crate::values::label::Label;
use crate::values::moves::Move;
use crate::values::request::{Change, Request};
use crate::values::stamp::Stamp;
use pq_claims::RunId;
use pq_inputs::Revision;
use pq_rules::Rules;
use std::alloc::Global;

impl<R: Rules, M: Stamp, O: Outbox<R, M> + Drop> Core<R, M, O> {
    /// Opens a client, whose replies go to `outbox`.
    ///
    /// # Errors
    ///
    /// `TooManyClients` where `MAX_CLIENTS` clients are open or their numbers are used up, else
    /// `Memory`.
    pub fn open_client(&mut self, alloc: Global, outbox: O) -> Result<ClientId, OpenRefused<O>>
        // Nothing was put into the outbox that is handed in.
        requires { O.puts outbox ≡ [] }
        // `rules`, `inputs`: The rules stay. The inputs stay, but for an edit that is not refused,
        // which makes its change at the next revision.
        ensures rules { self.new.rules ≡ self.old.rules }
        ensures inputs { self.new.inputs ≡ self.old.inputs }
        // The table of memos is the same.
        ensures places { self.new.places ≡ self.old.places }
        // A refusal hands back what was handed in.
        ensures back { IfErr result (λ refused. refused.outbox ≡ outbox) }
        // `Opens`: The client gets the next number. It is refused where 64 are open or the numbers
        // are used up, and then where memory runs out. The outbox comes back.
        ensures moved { (l : Ledger R.Key R.Value M O) → StandsFor R.Key.cmp (R.machine self.old.rules) M.point O.puts self.old l
            → Reaches (Opens outbox result) l (StandsFor R.Key.cmp (R.machine self.old.rules) M.point O.puts self.new) }
        // A log that was counted is counted after the call, and nothing is added.
        ensures counted { (log : Log R.Key) → IsCountedFor R.Key.cmp (R.machine self.old.rules) self.old log → IsCountedFor R.Key.cmp (R.machine self.old.rules) self.new log }
    {
        let client = match self.store.next_client() {
            Some(client) => client,
            None => {
                let fault = OpenFault::TooManyClients;
                return Err(OpenRefused { fault, outbox });
            }
        };
        if self.lanes.reserve(1).is_err() {
            let fault = OpenFault::Memory;
            return Err(OpenRefused { fault, outbox });
        }
        match Places::new(alloc) {
            Err(_failure) => {
                let fault = OpenFault::Memory;
                return Err(OpenRefused { fault, outbox });
            }
            Ok(places) => match self.store.open_client() {
                Err(_refused) => {
                    let fault = OpenFault::Memory;
                    return Err(OpenRefused { fault, outbox });
                }
                Ok(_opened) => {
                    let lane = Lane::with_places(client, outbox, places);
                    self.lanes.push_reserved(client.number(), lane);
                    return Ok(client);
                }
            },
        }
    }

    /// Accepts `request` of `client`. The reply to a fixed text is ready at once.
    ///
    /// # Errors
    ///
    /// `NoClient`, `Closed`, `WindowFull`, `Memory`, in this order. The request comes back.
    pub fn accept(
        &mut self,
        client: ClientId,
        request: Request<R::Key>,
    ) -> Result<Number, AcceptRefused<R::Key>>
        // `rules`, `inputs`: The rules stay. The inputs stay, but for an edit that is not refused,
        // which makes its change at the next revision.
        ensures rules { self.new.rules ≡ self.old.rules }
        ensures inputs { self.new.inputs ≡ self.old.inputs }
        // The table of memos is the same.
        ensures places { self.new.places ≡ self.old.places }
        // A refusal hands back what was handed in.
        ensures back { IfErr result (λ refused. refused.request ≡ request) }
        // `Accepts`: The request gets the next number of its client, at the revision now: a demand
        // waits, and the reply to a fixed text is ready. It is refused for a client that never was,
        // a closed one, a full window of 32, in this order, and then where memory runs out. The
        // request comes back.
        ensures moved { (l : Ledger R.Key R.Value M O) → StandsFor R.Key.cmp (R.machine self.old.rules) M.point O.puts self.old l
            → Reaches (Accepts O.puts client request result) l (StandsFor R.Key.cmp (R.machine self.old.rules) M.point O.puts self.new) }
        // A log that was counted is counted after the call, and nothing is added.
        ensures counted { (log : Log R.Key) → IsCountedFor R.Key.cmp (R.machine self.old.rules) self.old log → IsCountedFor R.Key.cmp (R.machine self.old.rules) self.new log }
    {
        let answer = self.store.accept(client, request);
        pass_on_all(&mut self.store, &mut self.lanes);
        answer
    }

    /// Makes the change of `client`, at the next revision, of which `stamp` is the stamp. It waits for
    /// no run.
    ///
    /// # Errors
    ///
    /// `NoClient`, `Closed`, `BadRange`, and those of `Inputs::set`, in this order; but an
    /// allocation failure while changes with ranges are made comes before the last two. The change
    /// comes back.
    pub fn edit(
        &mut self,
        client: ClientId,
        change: Change,
        stamp: M,
    ) -> Result<Revision, EditRefused>
        // The stamp that is handed in is of the next revision and the sources after the change. At
        // the last revision, where each edit is refused, it may be any stamp.
        requires { self.old.inputs.revision < last_revision → M.point stamp ≡ point_now (changed self.old.inputs change) }
        // `rules`, `inputs`: The rules stay. The inputs stay, but for an edit that is not refused,
        // which makes its change at the next revision.
        ensures rules { self.new.rules ≡ self.old.rules }
        ensures inputs { self.new.inputs ≡ inputs_after self.old.inputs change result }
        // The table of memos is the same.
        ensures places { self.new.places ≡ self.old.places }
        // A refusal hands back what was handed in.
        ensures back { IfErr result (λ refused. refused.change ≡ change) }
        // `Edits`: The text of the file becomes what the change makes of it (`text_after`), at the
        // next revision. It is refused for a client that never was, a closed one, a bad range, and
        // what the inputs refuse of the text, in this order. An allocation failure while changes
        // with ranges are made comes before the last two. The change comes back. Where the revision
        // is a multiple of 1,024 (`is_turn`), every run is over in the same event (`Turns`). Its
        // request is ready as cancelled, or dropped where its client was closed. Requests that wait
        // stay.
        ensures moved { (l : Ledger R.Key R.Value M O) → StandsFor R.Key.cmp (R.machine self.old.rules) M.point O.puts self.old l
            → Reaches (Edits client change result) l (StandsFor R.Key.cmp (R.machine self.old.rules) M.point O.puts self.new) }
        // A log that was counted is counted after the call, and nothing is added.
        ensures counted { (log : Log R.Key) → IsCountedFor R.Key.cmp (R.machine self.old.rules) self.old log → IsCountedFor R.Key.cmp (R.machine self.old.rules) self.new log }
    {
        let answer = self.store.edit(client, change, stamp);
        pass_on_all(&mut self.store, &mut self.lanes);
        answer
    }

    /// Starts a run for the next client's first request, clients in turn, at the revision now. Returns
    /// `None` only where no request waits or the numbers of runs are used up. It takes no memory.
    pub fn start(&mut self) -> Option<RunId>
        // `rules`, `inputs`: The rules stay. The inputs stay, but for an edit that is not refused,
        // which makes its change at the next revision.
        ensures rules { self.new.rules ≡ self.old.rules }
        ensures inputs { self.new.inputs ≡ self.old.inputs }
        // The table of memos is the same.
        ensures places { self.new.places ≡ self.old.places }
        // `Starts`: A request that waits is in a run, at the revision now. There is no answer only
        // where no request waits or the numbers of runs are used up.
        ensures moved { (l : Ledger R.Key R.Value M O) → StandsFor R.Key.cmp (R.machine self.old.rules) M.point O.puts self.old l
            → Reaches (Starts result) l (StandsFor R.Key.cmp (R.machine self.old.rules) M.point O.puts self.new) }
        // A log that was counted is counted after the call, and nothing is added.
        ensures counted { (log : Log R.Key) → IsCountedFor R.Key.cmp (R.machine self.old.rules) self.old log → IsCountedFor R.Key.cmp (R.machine self.old.rules) self.new log }
    {
        let answer = self.store.start();
        pass_on_all(&mut self.store, &mut self.lanes);
        answer
    }

    /// The client and the number of the request of `run`, if it exists.
    pub fn request_of(&self, run: RunId) -> Option<(ClientId, Number)>
        // The client and the number of the request of the run; no answer exactly where the run does
        // not exist.
        ensures { (l : Ledger R.Key R.Value M O) → StandsFor R.Key.cmp (R.machine self.now.rules) M.point O.puts self.now l → IsRequestOf l run result }
    {
        self.store.request_of(run)
    }

    /// Takes one step of `run`.
    ///
    /// # Errors
    ///
    /// `NoRun`, `Memory`, in this order.
    pub fn look(&mut self, alloc: Global, run: RunId) -> Result<Move<Work<R, M>>, LookFault>
        // `rules`, `inputs`: The rules stay. The inputs stay, but for an edit that is not refused,
        // which makes its change at the next revision.
        ensures rules { self.new.rules ≡ self.old.rules }
        ensures inputs { self.new.inputs ≡ self.old.inputs }
        // Each key that had a memo has one. Its changed revision is the same if the answers are
        // equal.
        ensures none_lost { NoneLost (memo_at R.Key.cmp self.old.places) (memo_at R.Key.cmp self.new.places) }
        // `Looks`: A run is stopped exactly where an edit was accepted since its start or its
        // client was closed. While its work is out it is blocked by itself. Else it hands work out,
        // goes on, answers with the value of its key at the sources now and the stamp of the
        // revision now, or is blocked by another run, which started no later. `Memory` comes only
        // for a run that is current.
        ensures moved { (l : Ledger R.Key R.Value M O) → StandsFor R.Key.cmp (R.machine self.old.rules) M.point O.puts self.old l
            → Reaches (Looks R.Key.cmp (R.machine self.old.rules) M.point self.old.rules run result) l (StandsFor R.Key.cmp (R.machine self.old.rules) M.point O.puts self.new) }
        // Work that is handed out is of the rules of the core, or of the store. It names the run
        // and the revision now, and is over the sources now.
        ensures handed { IfOk result (HandsOut self.old run) }
        // `NamesHolder`: A run that is blocked by another waits for a key that this other holds.
        ensures holder { IfOk result (NamesHolder self.new.claims run) }
        // Handed-out work names a cause exactly where its rule starts, and the table gives that
        // cause then.
        ensures cause { IfOk result (HasCause R.Key.cmp (R.machine self.old.rules) self.old) }
        // If a log was counted before the call, it is counted after it, with what the call adds.
        // Work that starts a rule adds a start of its key at the revision now. A run that is
        // stopped adds each key that it held to those lost, at the revision of its start. Every
        // other answer adds nothing.
        ensures counted { (log : Log R.Key) → IsCountedFor R.Key.cmp (R.machine self.old.rules) self.old log → IsCountedFor R.Key.cmp (R.machine self.old.rules) self.new (log_moved self.old run result log) }
    {
        let answer = self.store.look(alloc, run);
        pass_on_all(&mut self.store, &mut self.lanes);
        answer
    }

    /// Takes the result of the work of `run`. A result that was started at the revision now is one
    /// of the core's rules at the sources now.
    ///
    /// # Errors
    ///
    /// `NotThisRun`, `Memory`, in this order. The result comes back.
    pub fn give(
        &mut self,
        alloc: Global,
        run: RunId,
        done: Done<R, M>,
    ) -> Result<Move<Work<R, M>>, GiveRefused<Done<R, M>>>
        // `IsMade`: A result that was started at the revision now is of the rules of the core, or
        // of the store, and over the sources now.
        requires { IsMade self.old.rules self.old.inputs done }
        // `rules`, `inputs`: The rules stay. The inputs stay, but for an edit that is not refused,
        // which makes its change at the next revision.
        ensures rules { self.new.rules ≡ self.old.rules }
        ensures inputs { self.new.inputs ≡ self.old.inputs }
        // Each key that had a memo has one. Its changed revision is the same if the answers are
        // equal.
        ensures none_lost { NoneLost (memo_at R.Key.cmp self.old.places) (memo_at R.Key.cmp self.new.places) }
        // A refusal hands back what was handed in.
        ensures back { IfErr result (λ refused. refused.done ≡ done) }
        // `Gives`: A result is refused exactly where it is of no work of the run that is out. The
        // run is stopped exactly where it was overtaken, and else takes the result.
        ensures moved { (l : Ledger R.Key R.Value M O) → StandsFor R.Key.cmp (R.machine self.old.rules) M.point O.puts self.old l
            → Reaches (Gives run done result) l (StandsFor R.Key.cmp (R.machine self.old.rules) M.point O.puts self.new) }
        // If a log was counted before the call, it is counted after it, with what the call adds.
        // Work that starts a rule adds a start of its key at the revision now. A run that is
        // stopped adds each key that it held to those lost, at the revision of its start. Every
        // other answer adds nothing.
        ensures counted { (log : Log R.Key) → IsCountedFor R.Key.cmp (R.machine self.old.rules) self.old log → IsCountedFor R.Key.cmp (R.machine self.old.rules) self.new (log_moved self.old run result log) }
    {
        let answer = self.store.give(alloc, run, done);
        pass_on_all(&mut self.store, &mut self.lanes);
        answer
    }

    /// Ends `run` because an allocation failed. Returns whether it was a run. It takes no memory.
    pub fn starve(&mut self, run: RunId) -> bool
        // `rules`, `inputs`: The rules stay. The inputs stay, but for an edit that is not refused,
        // which makes its change at the next revision.
        ensures rules { self.new.rules ≡ self.old.rules }
        ensures inputs { self.new.inputs ≡ self.old.inputs }
        // The table of memos is the same.
        ensures places { self.new.places ≡ self.old.places }
        // `Starves`: The run, if it exists, ends as starved.
        ensures moved { (l : Ledger R.Key R.Value M O) → StandsFor R.Key.cmp (R.machine self.old.rules) M.point O.puts self.old l
            → Reaches (Starves run result) l (StandsFor R.Key.cmp (R.machine self.old.rules) M.point O.puts self.new) }
        // If a log was counted before the call, it is counted after it, and a run that is starved
        // or withdrawn adds each key that it held to those lost.
        ensures counted { (log : Log R.Key) → IsCountedFor R.Key.cmp (R.machine self.old.rules) self.old log → IsCountedFor R.Key.cmp (R.machine self.old.rules) self.new (log_starved self.old run result log) }
    {
        let was_run = self.store.starve(run);
        pass_on_all(&mut self.store, &mut self.lanes);
        was_run
    }

    /// Withdraws each request of `client` with the label `label` that waits or is in a run. Returns
    /// whether there was one. Each of them is ready afterwards, and its reply says so; a run that it
    /// was in is over. It takes no memory. (LSP 3.17, "Cancellation Support".)
    ///
    /// # Errors
    ///
    /// `NoClient`, `Closed`, in this order.
    pub fn withdraw(&mut self, client: ClientId, label: &Label) -> Result<bool, WithdrawFault>
        // `rules`, `inputs`: The rules stay. The inputs stay, but for an edit that is not refused,
        // which makes its change at the next revision.
        ensures rules { self.new.rules ≡ self.old.rules }
        ensures inputs { self.new.inputs ≡ self.old.inputs }
        // The table of memos is the same.
        ensures places { self.new.places ≡ self.old.places }
        // `Withdraws`: Each request of the client with the label that waits or is in a run is ready
        // as withdrawn, at the revision now, and no other request changes; the answer is whether
        // there was one. It is refused for a client that never was, and for a closed one.
        ensures moved { (l : Ledger R.Key R.Value M O) → StandsFor R.Key.cmp (R.machine self.old.rules) M.point O.puts self.old l
            → Reaches (Withdraws client label.now result) l (StandsFor R.Key.cmp (R.machine self.old.rules) M.point O.puts self.new) }
        // If a log was counted before the call, it is counted after it, and a run that is starved
        // or withdrawn adds each key that it held to those lost.
        ensures counted { (log : Log R.Key) → IsCountedFor R.Key.cmp (R.machine self.old.rules) self.old log → IsCountedFor R.Key.cmp (R.machine self.old.rules) self.new (log_withdrawn self.old client label.now result log) }
    {
        let answer = self.store.withdraw(client, label);
        pass_on_all(&mut self.store, &mut self.lanes);
        answer
    }
}
