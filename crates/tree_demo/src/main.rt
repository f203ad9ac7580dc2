// Trees of marks in lent slots: built leaf by leaf, taken apart at every place, put together again, drained and released.
#![tactic(auto)]

use building::{build, labels_in_order};
use concat::joins::concat;
use counting::{chain_length, levels, new_records, slots_in_use};
use measures::Measure;
use measures::mark_totals::{MarkRow, MarkTotals};
use measures::probes::MarkFrom;
use release::release;
use slots::arena::lay_out;
use slots::reading::row_at;
use slots::records::{Digit, Link, Record, Side, Tree, Unsound};
use split::descent::split;
use std::io;
use tree::ends::pop;

mod building;
mod counting;

pub type MarkRecord = Record<MarkRow, MarkTotals>;

// All slots that are watched.
const SLOTS: usize = 8316;

// What was seen while a tree was taken apart at each place and put together again.
#[derive(Clone, Copy)]
pub struct Seen {
    pub tree: Tree,
    // places at which the wrong element was found
    pub wrong: u32,
    // the most new leaves and nodes after one concatenation, and the levels of its result
    pub new: usize,
    pub levels: u32,
}

// Splits at the element with this number, and concatenates what is left of it, the element and what is right of it.
fn split_and_concat(
    slots: &mut [MarkRecord],
    free: &mut Link,
    tree: Tree,
    number: u16,
) -> Result<Option<Tree>, Unsound> {
    let mut place = MarkTotals::empty();
    let probe = MarkFrom {
        at: u32::from(number) + 1,
    };
    let Some(halves) = split::<MarkRow, MarkTotals, MarkFrom>(
        slots, free, tree, &probe, &mut place,
    )?
    else {
        return Ok(None);
    };
    let row = row_at(slots, halves.at)?;
    if row.label != number || place.count != u32::from(number) {
        return Ok(None);
    }
    let part = Some(Digit::One(halves.at));
    let whole = concat::<MarkRow, MarkTotals>(slots, free, halves.left, part, halves.right)?;
    Ok(Some(whole))
}

fn at_every_place(
    slots: &mut [MarkRecord],
    before: &mut [MarkRecord],
    free: &mut Link,
    tree: Tree,
    size: u16,
) -> Result<Seen, Unsound> {
    let mut seen = Seen {
        tree,
        wrong: 0,
        new: 0,
        levels: 0,
    };
    for number in 0..size {
        if before.len() == slots.len() {
            before.copy_from_slice(slots);
        }
        match split_and_concat(slots, free, seen.tree, number)? {
            Some(whole) => seen.tree = whole,
            None => seen.wrong = seen.wrong.saturating_add(1),
        }
        let new = new_records(before, slots);
        if new > seen.new {
            seen.new = new;
            seen.levels = levels(slots, seen.tree);
        }
    }
    Ok(seen)
}

// Takes elements off at the front and at the back in turn, and puts their slots back; how many there were.
fn drain(slots: &mut [MarkRecord], free: &mut Link, mut tree: Tree) -> Result<usize, Unsound> {
    for turn in 0..SLOTS {
        let side = if turn % 2 == 0 {
            Side::Front
        } else {
            Side::Back
        };
        let Some(popped) = pop::<MarkRow, MarkTotals>(slots, free, side, tree)? else {
            return Ok(turn);
        };
        release(slots, free, Tree::Single(popped.slot))?;
        tree = popped.rest;
    }
    Ok(SLOTS)
}

// How a tree of one size fared.
#[derive(Clone, Copy)]
pub struct Outcome {
    pub seen: Seen,
    pub in_order: bool,
    pub used: usize,
    pub drained: usize,
    pub free: usize,
}

fn exercise(
    slots: &mut [MarkRecord],
    before: &mut [MarkRecord],
    size: u16,
) -> Result<Outcome, Unsound> {
    let mut free = lay_out(slots);
    let built = build(slots, &mut free, size)?;
    let seen = at_every_place(slots, before, &mut free, built, size)?;
    let in_order = labels_in_order(slots, seen.tree, size)?;
    let used = slots_in_use(slots);
    let drained = drain(slots, &mut free, seen.tree)?;
    let free = chain_length(slots, free);
    Ok(Outcome {
        seen,
        in_order,
        used,
        drained,
        free,
    })
}

fn tell(rt: &HostRuntime, size: u16, outcome: Outcome) -> io::Result<()> {
    let order = if outcome.in_order && outcome.seen.wrong == 0 {
        "same rows"
    } else {
        "other rows"
    };
    println!(rt;
        "{size} elements: {order}, {} slots in use, at most {} new at {} levels, {} drained, {} free",
        outcome.used, outcome.seen.new, outcome.seen.levels, outcome.drained, outcome.free
    )
}

fn main(rt: HostRuntime) -> anyhow::Result<()> {
    let heap = rt.alloc();
    let mut slots = vec![in heap; Record::Free(None); SLOTS]?;
    let mut before = vec![in heap; Record::Free(None); SLOTS]?;
    let sizes = [
        1, 2, 3, 4, 5, 6, 7, 8, 9, 10, 12, 16, 21, 30, 33, 62, 100, 255, 510, 1000, 2046, 4094,
    ];
    for size in sizes {
        match exercise(slots.as_mut_slice(), before.as_mut_slice(), size) {
            Ok(outcome) => tell(&rt, size, outcome)?,
            Err(_) => println!(rt; "{size} elements: unsound")?,
        }
    }
    Ok(())
}
