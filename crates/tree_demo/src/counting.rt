// What can be counted in slots.
use crate::MarkRecord;
use measures::Measure;
use measures::mark_totals::MarkTotals;
use slots::reading::{read, spine_at};
use slots::records::{Link, Record, Tree};

// How many slots the chain has; one that does not end counts as all.
pub(crate) fn chain_length(slots: &[MarkRecord], free: Link) -> usize {
    let mut next = free;
    for count in 0..slots.len() {
        let Some(i) = next else {
            return count;
        };
        let Record::Free(link) = read(slots, i) else {
            return count;
        };
        next = link;
    }
    slots.len()
}

pub(crate) fn slots_in_use(slots: &[MarkRecord]) -> usize {
    slots
        .iter()
        .filter(|slot| !matches!(slot, Record::Free(_)))
        .count()
}

// How many levels a tree has, up to 16.
pub(crate) fn levels(slots: &[MarkRecord], tree: Tree) -> u32 {
    let mut below = tree;
    for count in 0..16 {
        let Tree::Deep(i) = below else {
            return count;
        };
        let Ok(level) = spine_at(slots, i) else {
            return count;
        };
        below = level.middle;
    }
    16
}

// Whether a leaf or node lies here that the slot did not hold before.
fn is_new(old: &MarkRecord, new: &MarkRecord) -> bool {
    match new {
        Record::Free(_) => false,
        Record::Level { .. } => false,
        Record::Leaf { row, value } => match old {
            Record::Leaf { row: r, value: v } => !(row.label == r.label
                && MarkTotals::same(value, v)),
            _ => true,
        },
        Record::Node2 { a, b, value } => match old {
            Record::Node2 {
                a: x,
                b: y,
                value: v,
            } => !(*a == *x && *b == *y && MarkTotals::same(value, v)),
            _ => true,
        },
        Record::Node3 { a, b, c, value } => match old {
            Record::Node3 {
                a: x,
                b: y,
                c: z,
                value: v,
            } => !(*a == *x && *b == *y && *c == *z && MarkTotals::same(value, v)),
            _ => true,
        },
    }
}

// The leaves and nodes that were not there before. A loop, since `filter` and `count` over the pairs take a third more of the
// program's time.
pub(crate) fn new_records(before: &[MarkRecord], after: &[MarkRecord]) -> usize {
    let mut count = 0usize;
    for (old, new) in before.iter().zip(after) {
        if is_new(old, new) {
            count = count.saturating_add(1);
        }
    }
    count
}
