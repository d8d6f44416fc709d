// Document 02, request 6: case 12 with removal 3; a sheet that pays removals alone, where maintaining has one too; a sheet on which one
// replacement is dearer than two without removal and cheaper with it; and chains of the paper's case study.

use crate::show::answer;
use std::io;
use test_sheets::plans::Plan;
use test_sheets::removals;

// Of the ends only the last, in year T, pays no removal.
fn case_12(rt: &impl Print) -> io::Result<()> {
    let s = removals::case_12().0;
    let least = Plan::of(0, 0, &[2, 4]);
    let longer = Plan::of(0, 0, &[3, 4]);
    let yearly = Plan::of(0, 0, &[1, 2, 3, 4]);
    answer(rt, "case 12 removed, replace 2 4", &s, least.bytes())?;
    answer(rt, "case 12 removed, replace 3 4", &s, longer.bytes())?;
    answer(rt, "case 12 removed, replace 1 2 3 4", &s, yearly.bytes())
}

fn alone(rt: &impl Print) -> io::Result<()> {
    let s = removals::alone().0;
    let every = Plan::of(1, 2, &[3, 4]);
    let skipped = Plan::of(1, 1, &[2, 3, 4]);
    let kept = Plan::of(2, 4, &[]);
    answer(
        rt,
        "removals alone, maintain 1, renovate 2, replace 3 4",
        &s,
        every.bytes(),
    )?;
    answer(
        rt,
        "removals alone, maintain 1, replace 2 3 4",
        &s,
        skipped.bytes(),
    )?;
    answer(
        rt,
        "removals alone, maintain 2, renovate 4",
        &s,
        kept.bytes(),
    )
}

fn overhauled(rt: &impl Print) -> io::Result<()> {
    let without = removals::overhauled(0).0;
    let with = removals::overhauled(6).0;
    let twice = Plan::of(0, 0, &[1, 2]);
    let once = Plan::of(0, 0, &[2]);
    answer(rt, "overhauled, replace 1 2", &without, twice.bytes())?;
    answer(rt, "overhauled, replace 2", &without, once.bytes())?;
    answer(
        rt,
        "overhauled, removal 6, replace 1 2",
        &with,
        twice.bytes(),
    )?;
    answer(rt, "overhauled, removal 6, replace 2", &with, once.bytes())
}

fn case_study(rt: &impl Print) -> io::Result<()> {
    let s = removals::case_study().0;
    let least = Plan::of(0, 0, &[60, 120, 180, 240, 300]);
    let classic = Plan::of(5, 35, &[95, 155, 215, 275, 300]);
    answer(
        rt,
        "paper removed, replace 60 120 180 240 300",
        &s,
        least.bytes(),
    )?;
    answer(
        rt,
        "paper removed, maintain 5, renovate 35, replace 95 155 215 275 300",
        &s,
        classic.bytes(),
    )
}

pub fn all(rt: &impl Print) -> io::Result<()> {
    case_12(rt)?;
    alone(rt)?;
    overhauled(rt)?;
    case_study(rt)
}
