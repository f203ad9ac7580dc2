// One mark more.
ghost use Rattle.mark_moves.specs.Moved.{MarkPut};

use crate::parting::{part_marks, set_mark};
use concat::joins::concat;
use measures::Measure;
use measures::mark_totals::{MarkRow, MarkTotals};
use pieces::head::MarkRecord;
use slots::arena::put_leaf;
use slots::records::{Digit, Link, Tree, Unsound};

// A mark at the offset `at`, after those that are there.
pub fn put_mark(
    slots: &mut [MarkRecord],
    free: &mut Link,
    marks: Tree,
    at: u32,
    label: u16,
) -> Result<Tree, Unsound>
    ensures { MarkPut slots.old slots.new free.old free.new marks at label result }
{
    let mut place = MarkTotals::empty();
    let found = part_marks(slots, free, marks, at.saturating_add(1), &mut place)?;
    let row = MarkRow {
        gap: at.saturating_sub(place.gaps),
        label,
    };
    let i = put_leaf(slots, free, row, MarkTotals::one(row))?;
    match found {
        None => concat::<MarkRow, MarkTotals>(slots, free, marks, Some(Digit::One(i)), Tree::Empty),
        Some(halves) => {
            let next = MarkRow {
                gap: halves.row.gap.saturating_sub(row.gap),
                label: halves.row.label,
            };
            set_mark(slots, halves.at, next)?;
            let part = Some(Digit::Two(i, halves.at));
            concat::<MarkRow, MarkTotals>(slots, free, halves.left, part, halves.right)
        }
    }
}
