// The marks when bytes come into the text.
ghost use Rattle.mark_moves.specs.Moved.{MarksGrown};

use crate::parting::{join_moved, part_marks};
use measures::Measure;
use measures::mark_totals::MarkTotals;
use pieces::head::MarkRecord;
use slots::records::{Link, Tree, Unsound};

// `by` bytes more at the offset `at`: the marks there and after it move on.
pub fn grow_marks(
    slots: &mut [MarkRecord],
    free: &mut Link,
    marks: Tree,
    at: u32,
    by: u32,
) -> Result<Tree, Unsound>
    ensures { MarksGrown slots.old slots.new free.old free.new marks at by result }
{
    let mut place = MarkTotals::empty();
    let found = part_marks(slots, free, marks, at, &mut place)?;
    match found {
        None => Ok(marks),
        Some(halves) => {
            let gap = halves.row.gap.saturating_add(by);
            join_moved(slots, free, halves, gap)
        }
    }
}
