//! Random scripts over four files, rings among them. Each demand is checked as `check_demand` does.
use super::check_script;
use crate::checks::text_of;
use std::process::Abort;
use test_support::{Page, Random};

/// The name of a file.
fn name(random: &mut Random) -> &'static str {
    match random.below(4) {
        0 => "a",
        1 => "b",
        2 => "c",
        _ => "d",
    }
}

/// Adds the text of a file to a line: up to two names of files, with a blank before each.
fn add_text(line: &mut Page, random: &mut Random) {
    line.add("=");
    for _ in 0..random.below(3) {
        line.add(" ");
        line.add(name(random));
    }
}

/// Adds an edit. One file in eight becomes absent.
fn add_edit(line: &mut Page, random: &mut Random) {
    line.add(match random.below(4) {
        0 => "high ",
        1 => "medium ",
        _ => "low ",
    });
    line.add(name(random));
    if random.below(8) > 0 {
        add_text(line, random);
    }
}

/// Adds a demand.
fn add_demand(line: &mut Page, random: &mut Random) {
    line.add(if random.below(4) == 0 {
        "Total "
    } else {
        "Sum "
    });
    line.add(name(random));
}

/// Adds a script of 4 to 15 events, each an edit or a demand.
fn add_script(script: &mut Page, random: &mut Random) {
    for _ in 0..random.below(12).wrapping_add(4) {
        if random.below(2) == 0 {
            add_edit(script, random);
        } else {
            add_demand(script, random);
        }
        script.add("\n");
    }
}

/// Checks 2,000 scripts, which the state `state` begins.
fn check_scripts(rt: &(impl Abort + AllocGlobal), state: usize) {
    let mut random = Random::new(state);
    for _ in 0..2_000u32 {
        let mut script = Page::new(rt.alloc());
        add_script(&mut script, &mut random);
        check_script(rt, text_of(rt, &script));
    }
}

#[test]
fn first_random_scripts(rt: HostRuntime) {
    check_scripts(&rt, 1);
}

#[test]
fn second_random_scripts(rt: HostRuntime) {
    check_scripts(&rt, 2);
}

#[test]
fn third_random_scripts(rt: HostRuntime) {
    check_scripts(&rt, 3);
}

#[test]
fn fourth_random_scripts(rt: HostRuntime) {
    check_scripts(&rt, 4);
}

#[test]
fn fifth_random_scripts(rt: HostRuntime) {
    check_scripts(&rt, 5);
}
