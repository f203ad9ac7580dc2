// Trees of marks one offset apart, whose labels are their numbers.
use crate::MarkRecord;
use concat::joins::extend;
use measures::Measure;
use measures::mark_totals::{MarkRow, MarkTotals};
use measures::probes::MarkFrom;
use seek::search::search;
use slots::arena::put_leaf;
use slots::reading::row_at;
use slots::records::{Digit, Link, Side, Tree, Unsound};

fn push(
    slots: &mut [MarkRecord],
    free: &mut Link,
    side: Side,
    tree: Tree,
    label: u16,
) -> Result<Tree, Unsound> {
    let row = MarkRow { gap: 1, label };
    let i = put_leaf(slots, free, row, MarkTotals::one(row))?;
    extend::<MarkRow, MarkTotals>(slots, free, side, tree, Some(Digit::One(i)))
}

// So many marks, put in from the middle outwards: first at the back, then at the front.
pub(crate) fn build(slots: &mut [MarkRecord], free: &mut Link, size: u16) -> Result<Tree, Unsound> {
    let mut tree = Tree::Empty;
    for label in size / 2..size {
        tree = push(slots, free, Side::Back, tree, label)?;
    }
    for label in (0..size / 2).rev() {
        tree = push(slots, free, Side::Front, tree, label)?;
    }
    Ok(tree)
}

// Whether the search finds each mark by its offset, and none past the last.
pub(crate) fn labels_in_order(
    slots: &[MarkRecord],
    tree: Tree,
    size: u16,
) -> Result<bool, Unsound> {
    for label in 0..=size {
        let mut place = MarkTotals::empty();
        let probe = MarkFrom {
            at: u32::from(label) + 1,
        };
        let found = match search::<MarkRow, MarkTotals, MarkFrom>(
            slots, tree, &probe, &mut place,
        )? {
            Some(i) => Some(row_at(slots, i)?.label),
            None => None,
        };
        if found != (label < size).then_some(label) {
            return Ok(false);
        }
    }
    Ok(true)
}
