//! pq_hall: the marks of a core's revisions, call by call.
//!
//! A script has a line `CALL => ANSWER` for each call, over a core that starts at revision 2, with one
//! open client, 0. `edit CLIENT NAME=TEXT` pushes an entry and makes the edit with its mark. `mark N`
//! answers the index of the mark of revision N, or `none`. `same N M` says whether the marks of two
//! revisions are of one entry.
ghost use Rattle.std.specs.Prelude.{◌≡◌};

use crate::checks::{check_page, check_row_count, check_that, split_row};
use crate::lines::{change_of, number_of};
use pq_core::{Change, ClientId, Core, EditRefused, ListOutbox};
use pq_hall::{Board, BoardName, Mark, NewBoard};
use pq_inputs::{Inputs, Revision};
use pq_rules::{Sums, SumsKey, SumsValue};
use std::marker::Brand;
use std::process::Abort;
use std::sync::Wait;
use test_support::{Page, is_sendable, is_set, joined};

/// A core whose stamps are marks of `J`.
type Marked<J> = Core<Sums, Mark<J>, ListOutbox<SumsKey, SumsValue, Mark<J>>>;

/// Writes an edit that was made, as its revision, or why not.
fn add_edited(page: &mut Page, answer: Result<Revision, EditRefused>) {
    match answer {
        Ok(revision) => page.wide(revision.number()),
        Err(refused) => match format!(in page.alloc; "{}", refused.fault) {
            Ok(text) => page.add(text.as_str()),
            Err(_) => page.cut(),
        },
    }
}

/// Pushes the entry of an edit, makes the edit with its mark, and writes what it answered.
fn add_edit<J: BoardName, H: Wait>(
    rt: &H,
    page: &mut Page,
    board: &Board<J>,
    core: &mut Marked<J>,
    client: ClientId,
    change: Change,
) {
    match board.push(rt, core.inputs(), &change) {
        Ok(mark) => add_edited(page, core.edit(client, change, mark)),
        Err(_) => page.cut(),
    }
}

/// The mark of a revision of the core.
fn mark_of<J: BoardName>(
    board: &Board<J>,
    core: &Marked<J>,
    revision: Revision,
) -> Option<Mark<J>> {
    board.mark(revision, core.stamp())
}

/// Writes the index of a mark.
fn add_index<J: BoardName>(page: &mut Page, mark: Option<Mark<J>>) {
    match mark {
        Some(mark) => page.number(mark.index()),
        None => page.add("none"),
    }
}

/// Writes whether two marks are of one entry.
fn add_same<J: BoardName>(
    page: &mut Page,
    board: &Board<J>,
    a: Option<Mark<J>>,
    b: Option<Mark<J>>,
) {
    match (a, b) {
        (Some(a), Some(b)) => page.add(if board.is_same(&a, &b) { "yes" } else { "no" }),
        _ => page.add("none"),
    }
}

/// The revision that `word` numbers, from the first one on.
fn revision_of(rt: &impl Abort, first: Revision, word: &str) -> Revision {
    let mut revision = first;
    for _ in 0..number_of(rt, word) {
        if revision.number() < u64::MAX {
            revision = revision.next();
        }
    }
    revision
}

/// Makes the call of a line, and writes its answer.
fn answer<J: BoardName>(
    rt: &(impl Abort + AllocGlobal + Wait),
    page: &mut Page,
    board: &Board<J>,
    core: &mut Marked<J>,
    first: Revision,
    call: &str,
) {
    let (word, rest) = split_row(rt, call, " ");
    match word {
        "mark" => add_index(page, mark_of(board, core, revision_of(rt, first, rest))),
        "same" => {
            let (a, b) = split_row(rt, rest, " ");
            let a = mark_of(board, core, revision_of(rt, first, a));
            let b = mark_of(board, core, revision_of(rt, first, b));
            add_same(page, board, a, b);
        }
        _ => {
            let (client, change) = split_row(rt, rest, " ");
            add_edit(
                rt,
                page,
                board,
                core,
                ClientId::new(number_of(rt, client)),
                change_of(rt, change),
            );
        }
    }
}

/// Runs the script `rows` over a vector of marks. The rows are owned: a call that picks a name passes
/// no `&str`.
fn check_marks<J: BoardName>(rt: &(impl Abort + AllocGlobal + Wait), new: NewBoard, rows: String)
    requires { new ≡ J.vector }
{
    let alloc = rt.alloc();
    let mut inputs = Inputs::new(alloc).expect(rt, "memory");
    let first = inputs.now();
    check_that(rt, is_set(&mut inputs, "a", joined(alloc, "b", "")), "a");
    check_that(rt, is_set(&mut inputs, "b", joined(alloc, "c", "")), "b");
    let (board, mark) = new.named::<J>(rt, &inputs).expect(rt, "memory");
    let mut core: Marked<J> = Core::new(alloc, Sums, inputs, mark);
    let outbox = ListOutbox::new(alloc, 4).expect(rt, "memory");
    check_that(rt, core.open_client(alloc, outbox).is_ok(), "open");
    for row in rows.lines() {
        let (call, want) = split_row(rt, row, " => ");
        let mut page = Page::new(alloc);
        answer(rt, &mut page, &board, &mut core, first, call);
        check_page(rt, &page, want, row);
    }
}

/// Runs the script `rows` of `count` lines over a new vector of marks.
fn check_rows(rt: &(impl Abort + AllocGlobal + Wait), count: usize, rows: &str) {
    check_row_count(rt, count, rows);
    let rows = String::from_str(rt.alloc(), rows).expect(rt, "memory");
    let new = NewBoard::new(rt.alloc()).expect(rt, "memory");
    check_marks::<Brand>(rt, new, rows);
}

// The revision at the start has a mark, and the next one has none until an edit makes it. After a
// refused edit the next one has none, though its entry was pushed.
#[test]
fn marks_of_revisions(rt: HostRuntime) {
    check_rows(
        &rt,
        16,
        "mark 2 => 0
mark 3 => none
mark 1 => none
mark 0 => none
edit 0 c=x => 3
mark 3 => 1
mark 2 => 0
mark 4 => none
edit 1 c=y => no such client
mark 4 => none
mark 3 => 1
edit 0 c=z => 4
mark 4 => 3
mark 5 => none
mark 3 => 1
mark 2 => 0",
    );
}

// Of several entries of one revision the last is its mark, also when later revisions were made.
#[test]
fn after_refused_edits(rt: HostRuntime) {
    check_rows(
        &rt,
        13,
        "edit 1 c=x => no such client
edit 1 c=y => no such client
mark 2 => 0
mark 3 => none
edit 0 c=z => 3
mark 3 => 3
edit 1 c=x => no such client
mark 3 => 3
edit 0 c=w => 4
edit 0 c=v => 5
mark 3 => 3
mark 4 => 5
mark 5 => 6",
    );
}

// Two marks of one revision are of one entry, and those of two revisions are not.
#[test]
fn same_entry(rt: HostRuntime) {
    check_rows(
        &rt,
        7,
        "same 2 2 => yes
edit 0 c=x => 3
same 2 2 => yes
same 3 3 => yes
same 2 3 => no
same 3 2 => no
same 3 4 => none",
    );
}

// Marks go to other threads.
#[test]
fn marks_are_sent(rt: HostRuntime) {
    check_that(&rt, is_sendable::<Mark<Brand>>(), "marks");
}
