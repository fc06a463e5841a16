//! One event: the call of a core, and what is kept of it.
ghost use Rattle.std.specs.Prelude.{ℕ, IfOk};
ghost use Rattle.pq_core.specs.Cores.{StandsFor};
ghost use Rattle.pq_play.specs.World.{World, replies_of, own_point};
ghost use Rattle.pq_play.specs.aux.Running.{done_of};
ghost use Rattle.pq_play.specs.aux.Playing.{Stood, Carries};
ghost use Rattle.pq_play.specs.declared.event.Event.TheVariants.{Open, Accept, Edit, Withdraw, Start, Step, Give, Starve, Release, Take, Close};

use crate::answered::{accept_answered, edit_answered, look_answered, open_answered};
use crate::dones::{Dones, keep_move, take_done};
use crate::event::Event;
use crate::seat::{Seat, keep_outbox, keep_request, take_left};
use pq_core::{
    Change, ClientId, Core, GiveFault, Label, ListOutbox, Memory, PlainStamp, Request, RunId,
    copy_change, copy_request,
};
use pq_rules::Rules;
use std::alloc::Global;

/// A core with plain stamps, whose outboxes are lists.
pub(crate) type ListCore<R> = Core<
    R,
    PlainStamp,
    ListOutbox<<R as Rules>::Key, <R as Rules>::Value, PlainStamp>,
>;

/// What is kept while events are played: of each client its requests, and its outbox after its
/// close; of each run whose work is out the result, which stays where a turn or a withdrawal ends the
/// run.
#[derive(Drop)]
pub(crate) struct Sheet<R: Rules> {
    pub(crate) seats: Vec<Seat<R::Key, R::Value>>,
    pub(crate) dones: Dones<R>,
}

/// Opens a client with an outbox for `room` replies.
fn open<R: Rules>(
    alloc: Global,
    rules: &R,
    core: &mut ListCore<R>,
    sheet: &mut Sheet<R>,
    room: usize,
) -> Result<(), Memory>
    ensures { IfOk result (λ _. Carries room R.Key.cmp (R.machine rules.now) rules.now Open core.old.rules (StandsFor R.Key.cmp (R.machine rules.now) own_point replies_of core.old) sheet.old.seats.items (done_of sheet.old.dones) core.new.rules (StandsFor R.Key.cmp (R.machine rules.now) own_point replies_of core.new) sheet.new.seats.items (done_of sheet.new.dones)) }
{
    let outbox = ListOutbox::new(alloc, room)?;
    let answer = core.open_client(alloc, outbox);
    if !open_answered(&answer) {
        return Err(Memory);
    }
    match answer {
        Ok(_client) => {
            sheet.seats.push(Seat::new(alloc))?;
            return Ok(());
        }
        Err(_refused) => return Ok(()),
    }
}

/// Posts a copy of `request`, and keeps another where it is accepted.
fn accept<R: Rules>(
    alloc: Global,
    rules: &R,
    core: &mut ListCore<R>,
    sheet: &mut Sheet<R>,
    client: ClientId,
    request: &Request<R::Key>,
) -> Result<(), Memory>
    requires { (w : World R.Key R.Value) × Stood R.Key.cmp (R.machine rules.now) rules.now core.old.rules (StandsFor R.Key.cmp (R.machine rules.now) own_point replies_of core.old) w sheet.old.seats.items (done_of sheet.old.dones) }
    ensures { IfOk result (λ _. (room : ℕ) → Carries room R.Key.cmp (R.machine rules.now) rules.now (Accept client request.now) core.old.rules (StandsFor R.Key.cmp (R.machine rules.now) own_point replies_of core.old) sheet.old.seats.items (done_of sheet.old.dones) core.new.rules (StandsFor R.Key.cmp (R.machine rules.now) own_point replies_of core.new) sheet.new.seats.items (done_of sheet.new.dones)) }
{
    let given = copy_request(alloc, rules, request)?;
    let answer = core.accept(client, given);
    if !accept_answered(&answer) {
        return Err(Memory);
    }
    match answer {
        Ok(_number) => return keep_request(alloc, rules, &mut sheet.seats, client, request),
        Err(_refused) => return Ok(()),
    }
}

/// Makes a copy of `change`.
fn edit<R: Rules>(
    alloc: Global,
    rules: &R,
    core: &mut ListCore<R>,
    sheet: &mut Sheet<R>,
    client: ClientId,
    change: &Change,
) -> Result<(), Memory>
    ensures { IfOk result (λ _. (room : ℕ) → Carries room R.Key.cmp (R.machine rules.now) rules.now (Edit client change.now) core.old.rules (StandsFor R.Key.cmp (R.machine rules.now) own_point replies_of core.old) sheet.old.seats.items (done_of sheet.old.dones) core.new.rules (StandsFor R.Key.cmp (R.machine rules.now) own_point replies_of core.new) sheet.new.seats.items (done_of sheet.new.dones)) }
{
    let given = copy_change(alloc, change)?;
    let stamp = PlainStamp::after(alloc, core.inputs(), &given)?;
    let answer = core.edit(client, given, stamp);
    if !edit_answered(&answer) {
        return Err(Memory);
    }
    Ok(())
}

/// Withdraws the requests of `client` with `label`. The result that is kept for a run that is over
/// stays, and is given to no run.
fn withdraw<R: Rules>(
    rules: &R,
    core: &mut ListCore<R>,
    sheet: &mut Sheet<R>,
    client: ClientId,
    label: &Label,
)
    ensures { (room : ℕ) → Carries room R.Key.cmp (R.machine rules.now) rules.now (Withdraw client label.now) core.old.rules (StandsFor R.Key.cmp (R.machine rules.now) own_point replies_of core.old) sheet.old.seats.items (done_of sheet.old.dones) core.new.rules (StandsFor R.Key.cmp (R.machine rules.now) own_point replies_of core.new) sheet.new.seats.items (done_of sheet.new.dones) }
{
    let _answer = core.withdraw(client, label);
}

/// Starts a request that waits.
fn start<R: Rules>(rules: &R, core: &mut ListCore<R>, sheet: &mut Sheet<R>)
    ensures { (room : ℕ) → Carries room R.Key.cmp (R.machine rules.now) rules.now Start core.old.rules (StandsFor R.Key.cmp (R.machine rules.now) own_point replies_of core.old) sheet.old.seats.items (done_of sheet.old.dones) core.new.rules (StandsFor R.Key.cmp (R.machine rules.now) own_point replies_of core.new) sheet.new.seats.items (done_of sheet.new.dones) }
{
    let _run = core.start();
}

/// Takes a step of `run`. Work that it hands out is carried out, and its result is kept.
fn step<R: Rules>(
    alloc: Global,
    rules: &R,
    core: &mut ListCore<R>,
    sheet: &mut Sheet<R>,
    run: RunId,
) -> Result<(), Memory>
    ensures { IfOk result (λ _. (room : ℕ) → Carries room R.Key.cmp (R.machine rules.now) rules.now (Step run) core.old.rules (StandsFor R.Key.cmp (R.machine rules.now) own_point replies_of core.old) sheet.old.seats.items (done_of sheet.old.dones) core.new.rules (StandsFor R.Key.cmp (R.machine rules.now) own_point replies_of core.new) sheet.new.seats.items (done_of sheet.new.dones)) }
{
    let answer = core.look(alloc, run);
    if !look_answered(&answer) {
        return Err(Memory);
    }
    match answer {
        Ok(step) => return keep_move(alloc, &mut sheet.dones, run, step),
        Err(_fault) => return Ok(()),
    }
}

/// Gives the result that is kept for `run`, if there is one. Where the run exists, it is that of its
/// work that is out; where the run is over, the result is given to nobody.
fn give<R: Rules>(
    alloc: Global,
    rules: &R,
    core: &mut ListCore<R>,
    sheet: &mut Sheet<R>,
    run: RunId,
) -> Result<(), Memory>
    requires { (w : World R.Key R.Value) × Stood R.Key.cmp (R.machine rules.now) rules.now core.old.rules (StandsFor R.Key.cmp (R.machine rules.now) own_point replies_of core.old) w sheet.old.seats.items (done_of sheet.old.dones) }
    ensures { IfOk result (λ _. (room : ℕ) → Carries room R.Key.cmp (R.machine rules.now) rules.now (Give run) core.old.rules (StandsFor R.Key.cmp (R.machine rules.now) own_point replies_of core.old) sheet.old.seats.items (done_of sheet.old.dones) core.new.rules (StandsFor R.Key.cmp (R.machine rules.now) own_point replies_of core.new) sheet.new.seats.items (done_of sheet.new.dones)) }
{
    match take_done(&mut sheet.dones, run) {
        Some(done) => match core.give(alloc, run, done) {
            Ok(_step) => return Ok(()),
            Err(refused) => match refused.fault {
                GiveFault::NotThisRun => return Ok(()),
                GiveFault::Memory => return Err(Memory),
            },
        },
        None => return Ok(()),
    }
}

/// Starves `run`. Of a run that is over nothing is kept.
fn starve<R: Rules>(rules: &R, core: &mut ListCore<R>, sheet: &mut Sheet<R>, run: RunId)
    ensures { (room : ℕ) → Carries room R.Key.cmp (R.machine rules.now) rules.now (Starve run) core.old.rules (StandsFor R.Key.cmp (R.machine rules.now) own_point replies_of core.old) sheet.old.seats.items (done_of sheet.old.dones) core.new.rules (StandsFor R.Key.cmp (R.machine rules.now) own_point replies_of core.new) sheet.new.seats.items (done_of sheet.new.dones) }
{
    let _was_run = core.starve(run);
    let _done = take_done(&mut sheet.dones, run);
}

/// Puts the next reply to `client` into its outbox.
fn release<R: Rules>(rules: &R, core: &mut ListCore<R>, sheet: &mut Sheet<R>, client: ClientId)
    ensures { (room : ℕ) → Carries room R.Key.cmp (R.machine rules.now) rules.now (Release client) core.old.rules (StandsFor R.Key.cmp (R.machine rules.now) own_point replies_of core.old) sheet.old.seats.items (done_of sheet.old.dones) core.new.rules (StandsFor R.Key.cmp (R.machine rules.now) own_point replies_of core.new) sheet.new.seats.items (done_of sheet.new.dones) }
{
    let _released = core.release(client);
}

/// Takes the next reply to `client`: out of its outbox in the core, or out of the one that is kept.
fn take<R: Rules>(
    rules: &R,
    core: &mut ListCore<R>,
    sheet: &mut Sheet<R>,
    client: ClientId,
) -> Result<(), Memory>
    ensures { IfOk result (λ _. (room : ℕ) → Carries room R.Key.cmp (R.machine rules.now) rules.now (Take client) core.old.rules (StandsFor R.Key.cmp (R.machine rules.now) own_point replies_of core.old) sheet.old.seats.items (done_of sheet.old.dones) core.new.rules (StandsFor R.Key.cmp (R.machine rules.now) own_point replies_of core.new) sheet.new.seats.items (done_of sheet.new.dones)) }
{
    let out = core.take(client)?;
    if out {
        return Ok(());
    }
    let left = take_left::<R>(&mut sheet.seats, client)?;
    if left {
        return Ok(());
    }
    Ok(())
}

/// Closes `client`, and keeps its outbox.
pub(crate) fn close<R: Rules>(
    rules: &R,
    core: &mut ListCore<R>,
    sheet: &mut Sheet<R>,
    client: ClientId,
)
    requires { (w : World R.Key R.Value) × Stood R.Key.cmp (R.machine rules.now) rules.now core.old.rules (StandsFor R.Key.cmp (R.machine rules.now) own_point replies_of core.old) w sheet.old.seats.items (done_of sheet.old.dones) }
    ensures { (room : ℕ) → Carries room R.Key.cmp (R.machine rules.now) rules.now (Close client) core.old.rules (StandsFor R.Key.cmp (R.machine rules.now) own_point replies_of core.old) sheet.old.seats.items (done_of sheet.old.dones) core.new.rules (StandsFor R.Key.cmp (R.machine rules.now) own_point replies_of core.new) sheet.new.seats.items (done_of sheet.new.dones) }
{
    match core.close_client(client) {
        Some(outbox) => keep_outbox(&mut sheet.seats, client, outbox),
        None => {}
    }
}

/// Carries one event out.
pub(crate) fn carry<R: Rules>(
    alloc: Global,
    rules: &R,
    core: &mut ListCore<R>,
    sheet: &mut Sheet<R>,
    room: usize,
    event: &Event<R::Key>,
) -> Result<(), Memory>
    requires { (w : World R.Key R.Value) × Stood R.Key.cmp (R.machine rules.now) rules.now core.old.rules (StandsFor R.Key.cmp (R.machine rules.now) own_point replies_of core.old) w sheet.old.seats.items (done_of sheet.old.dones) }
    ensures { IfOk result (λ _. Carries room R.Key.cmp (R.machine rules.now) rules.now event.now core.old.rules (StandsFor R.Key.cmp (R.machine rules.now) own_point replies_of core.old) sheet.old.seats.items (done_of sheet.old.dones) core.new.rules (StandsFor R.Key.cmp (R.machine rules.now) own_point replies_of core.new) sheet.new.seats.items (done_of sheet.new.dones)) }
{
    match event {
        Event::Open => open(alloc, rules, core, sheet, room),
        Event::Accept(client, request) => accept(alloc, rules, core, sheet, *client, request),
        Event::Edit(client, change) => edit(alloc, rules, core, sheet, *client, change),
        Event::Withdraw(client, label) => {
            withdraw(rules, core, sheet, *client, label);
            Ok(())
        }
        Event::Start => {
            start(rules, core, sheet);
            Ok(())
        }
        Event::Step(run) => step(alloc, rules, core, sheet, *run),
        Event::Give(run) => give(alloc, rules, core, sheet, *run),
        Event::Starve(run) => {
            starve(rules, core, sheet, *run);
            Ok(())
        }
        Event::Release(client) => {
            release(rules, core, sheet, *client);
            Ok(())
        }
        Event::Take(client) => take(rules, core, sheet, *client),
        Event::Close(client) => {
            close(rules, core, sheet, *client);
            Ok(())
        }
    }
}
