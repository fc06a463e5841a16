//! Inboxes: posts, receipts, and what is carried.
use crate::checks::{check_number, check_page, check_row_count, check_that, split_row};
use crate::lines::{add_label, add_request, change_of, label_of, request_of};
use pq_mail::{PorterEnd, Post, PostEnd, PostFault, PostRefused, Receipt, inbox};
use pq_rules::{Sums, SumsKey};
use std::process::Abort;
use std::sync::Wait;
use std::sync::atomic::{AtomicUsize, Ordering};
use std::thread;
use std::time::{Clock, Duration, Instant};
use test_support::Page;

/// The two ends of an inbox; each is there until it is given up.
#[derive(Drop)]
struct Ends {
    post: Option<PostEnd<Sums>>,
    porter: Option<PorterEnd<SumsKey>>,
}

/// A new inbox over sums.
fn both_ends(rt: &(impl Abort + AllocGlobal)) -> Ends {
    let (post, porter) = inbox(rt.alloc(), Sums).expect(rt, "memory");
    Ends {
        post: Some(post),
        porter: Some(porter),
    }
}

/// The post that `text` writes: `ask REQUEST`, `withdraw LABEL`, `edit CHANGE` or `end`.
fn post_of(rt: &(impl Abort + AllocGlobal), text: &str) -> Post<SumsKey> {
    match text.split_once(" ") {
        Some(("ask", request)) => Post::Ask(request_of(rt, request)),
        Some(("withdraw", label)) => Post::Withdraw(label_of(rt, label)),
        Some((_, change)) => Post::Edit(change_of(rt, change)),
        None => Post::End,
    }
}

/// Writes a post: `ask REQUEST`, `withdraw LABEL`, `edit FILE` or `end`.
fn add_post(page: &mut Page, post: &Post<SumsKey>) {
    match post {
        Post::Ask(request) => {
            page.add("ask ");
            add_request(page, request);
        }
        Post::Edit(change) => {
            page.add("edit ");
            page.add(change.file.as_str());
        }
        Post::Withdraw(label) => {
            page.add("withdraw ");
            add_label(page, label);
        }
        Post::End => page.add("end"),
    }
}

/// Writes a receipt: `receipt NUMBER REQUEST`, or `receipt NUMBER` for a post without a reply.
fn add_receipt(page: &mut Page, receipt: &Receipt<SumsKey>) {
    page.add("receipt ");
    page.wide(receipt.number.number());
    if let Some(request) = &receipt.request {
        page.add(" ");
        add_request(page, request);
    }
}

/// Writes why a post was refused, and the post that came back.
fn add_refused(page: &mut Page, refused: &PostRefused<SumsKey>) {
    match refused.fault {
        PostFault::Gone => page.add("gone "),
        PostFault::Memory => page.cut(),
    }
    add_post(page, &refused.post);
}

/// Posts, and writes the receipt.
fn add_posted<H: Wait>(
    page: &mut Page,
    rt: &H,
    end: &mut Option<PostEnd<Sums>>,
    post: Post<SumsKey>,
) {
    match end {
        None => page.add("no end"),
        Some(end) => match end.post(rt, post) {
            Ok(receipt) => add_receipt(page, &receipt),
            Err(refused) => add_refused(page, &refused),
        },
    }
}

/// Takes the next post, and writes it, or `none`.
fn add_next<H: Wait>(page: &mut Page, rt: &H, end: &mut Option<PorterEnd<SumsKey>>) {
    match end {
        None => page.add("no end"),
        Some(end) => match end.next(rt) {
            Some(post) => add_post(page, &post),
            None => page.add("none"),
        },
    }
}

/// Makes the call of a line, and writes its answer.
fn answer(rt: &(impl Abort + AllocGlobal + Wait), page: &mut Page, ends: &mut Ends, call: &str) {
    match call {
        "next" => add_next(page, rt, &mut ends.porter),
        "drop porter" => ends.porter = None,
        "drop post" => ends.post = None,
        _ => add_posted(page, rt, &mut ends.post, post_of(rt, call)),
    }
}

/// Runs the script `rows` of `count` lines over a new inbox.
fn check_rows(rt: &(impl Abort + AllocGlobal + Wait), count: usize, rows: &str) {
    check_row_count(rt, count, rows);
    let mut ends = both_ends(rt);
    for row in rows.lines() {
        let (call, want) = split_row(rt, row, " => ");
        let mut page = Page::new(rt.alloc());
        answer(rt, &mut page, &mut ends, call);
        check_page(rt, &page, want, row);
    }
}

// A receipt has the count of requests posted before; edits, withdrawals and ends are not counted.
#[test]
fn receipts(rt: HostRuntime) {
    check_rows(
        &rt,
        16,
        "ask 1 say a => receipt 0 1 say a
edit f=1 => receipt 1
ask 2 Sum f => receipt 1 2 Sum f
withdraw 2 => receipt 2
ask none say a => receipt 2 none say a
end => receipt 3
next => ask 1 say a
next => edit f
next => ask 2 Sum f
next => withdraw 2
ask 3 say b => receipt 3 3 say b
next => ask none say a
next => end
next => ask 3 say b
drop post => 
next => none",
    );
}

// Where nobody carries posts, a post comes back, and later ones do too.
#[test]
fn nobody_carries(rt: HostRuntime) {
    check_rows(
        &rt,
        6,
        "ask 1 say a => receipt 0 1 say a
drop porter => 
ask 2 say b => gone ask 2 say b
edit f=1 => gone edit f
end => gone end
next => no end",
    );
}

/// Posts `count` ends, and returns how many were accepted.
fn post_many<H: Wait>(rt: &H, end: &mut PostEnd<Sums>, count: usize) -> usize {
    let mut posted = 0usize;
    for _ in 0..count {
        if end.post(rt, Post::End).is_ok() {
            posted = posted.saturating_add(1);
        }
    }
    posted
}

/// Takes `count` posts, and returns how many came.
fn carry_many<H: Wait>(rt: &H, end: &mut PorterEnd<SumsKey>, count: usize) -> usize {
    let mut carried = 0usize;
    for _ in 0..count {
        if end.next(rt).is_some() {
            carried = carried.saturating_add(1);
        }
    }
    carried
}

// A thread that posts waits for room, so a thousand posts pass an inbox of 32 places.
#[test]
fn posts_wait_for_room(rt: HostRuntime) {
    let (mut post, mut porter) = inbox(rt.alloc(), Sums).expect(&rt, "memory");
    let (posted, carried) = thread::join(
        &rt,
        || post_many(&rt, &mut post, 1000),
        || carry_many(&rt, &mut porter, 1000),
    );
    check_number(&rt, posted, 1000, "posted");
    check_number(&rt, carried, 1000, "carried");
}

/// Takes posts until none comes, and counts them in `taken`.
fn carry_all<H: Wait>(rt: &H, end: &mut PorterEnd<SumsKey>, taken: &AtomicUsize) {
    for _ in 0..u64::MAX {
        if end.next(rt).is_none() {
            return;
        }
        let _ = taken.fetch_add(1, Ordering::SeqCst);
    }
}

/// The turns for which a thread looks without a rest whether its post was taken.
const TURNS: u32 = 100_000;

/// The rests after which a post counts as missed: ten seconds.
const RESTS: u32 = 100_000;

/// Looks until `taken` counts `count` posts, without a rest at first: so the next post comes while the
/// other thread goes to sleep. Returns whether it did in time.
fn is_taken(rt: &impl Clock, taken: &AtomicUsize, count: usize) -> bool {
    for _ in 0..TURNS {
        if taken.load(Ordering::SeqCst) == count {
            return true;
        }
    }
    for _ in 0..RESTS {
        if taken.load(Ordering::SeqCst) == count {
            return true;
        }
        thread::sleep(rt, Duration::from_micros(100));
    }
    false
}

/// The milliseconds for which a thread rests, so that the other one sleeps.
const REST: u64 = 20;

/// Rests, so that the thread that takes posts sleeps.
fn rest(rt: &impl Clock) {
    thread::sleep(rt, Duration::from_millis(REST));
}

/// Posts `count` ends quietly, and returns whether all were accepted.
fn post_quietly<H: Wait>(rt: &H, end: &mut PostEnd<Sums>, count: usize) -> bool {
    for _ in 0..count {
        if end.post_quietly(rt, Post::End).is_err() {
            return false;
        }
    }
    true
}

/// Posts to a thread that sleeps before each of these: a post; 33 quiet ones, of which the last has no
/// room; a quiet one with a wake after it. Gives the end up while that thread sleeps. Returns whether
/// each was taken in time.
fn post_to_a_sleeper<H: Clock + Wait>(rt: &H, end: PostEnd<Sums>, taken: &AtomicUsize) -> bool {
    let mut end = end;
    rest(rt);
    if end.post(rt, Post::End).is_err() || !is_taken(rt, taken, 1) {
        return false;
    }
    rest(rt);
    if !post_quietly(rt, &mut end, 33) || !is_taken(rt, taken, 34) {
        return false;
    }
    rest(rt);
    let is_accepted = post_quietly(rt, &mut end, 1);
    end.wake();
    if !is_accepted || !is_taken(rt, taken, 35) {
        return false;
    }
    rest(rt);
    true
}

// A thread that waits for a post is woken by a post, by the first quiet post that has no room, by a
// wake, and by the end of the posts.
#[test]
fn a_sleeper_is_woken(rt: HostRuntime) {
    let (post, mut porter) = inbox(rt.alloc(), Sums).expect(&rt, "memory");
    let taken = AtomicUsize::new(0);
    let (are_taken, _) = thread::join(
        &rt,
        || post_to_a_sleeper(&rt, post, &taken),
        || carry_all(&rt, &mut porter, &taken),
    );
    check_that(&rt, are_taken, "a post woke nobody");
}

/// The most seconds for which posts are made in turn. A round that misses a post is rare.
const SECONDS: u64 = 3;

/// Whether the time since `start` is over, or cannot be told.
fn is_over(rt: &impl Clock, start: Instant) -> bool {
    match Instant::now(rt) {
        Ok(now) => now.duration_since(start) >= Duration::from_secs(SECONDS),
        Err(_) => true,
    }
}

/// Posts ends, each as soon as the one before it was taken, at most `count`, and gives the end up.
/// Returns whether each was taken in time.
fn post_in_turn<H: Clock + Wait>(
    rt: &H,
    end: PostEnd<Sums>,
    taken: &AtomicUsize,
    count: usize,
) -> bool {
    let mut end = end;
    let Ok(start) = Instant::now(rt) else {
        return false;
    };
    for posted in 0..count {
        if end.post(rt, Post::End).is_err() {
            return false;
        }
        if !is_taken(rt, taken, posted.saturating_add(1)) {
            return false;
        }
        if is_over(rt, start) {
            return true;
        }
    }
    true
}

// Each post comes just as the thread that takes posts looks once more and goes to sleep. None is missed.
#[test]
fn no_post_is_missed(rt: HostRuntime) {
    let (post, mut porter) = inbox(rt.alloc(), Sums).expect(&rt, "memory");
    let taken = AtomicUsize::new(0);
    let (are_taken, _) = thread::join(
        &rt,
        || post_in_turn(&rt, post, &taken, 200_000),
        || carry_all(&rt, &mut porter, &taken),
    );
    check_that(&rt, are_taken, "a post was missed");
}
