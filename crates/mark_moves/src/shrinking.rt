// The marks when bytes leave the text.
ghost use Rattle.mark_moves.specs.Moved.{MarksShrunk};
ghost use Rattle.mark_moves.specs.Dropping.{MarksDropped};

use crate::parting::{MarkHalves, join_moved, part_marks};
use measures::Measure;
use measures::mark_totals::MarkTotals;
use pieces::head::MarkRecord;
use release::release;
use slots::arena::give_slot;
use slots::records::{Link, Tree, Unsound};

// The bytes between two offsets are gone: marks up to `from` stay, those strictly between go, the others move back.
pub fn shrink_marks(
    slots: &mut [MarkRecord],
    free: &mut Link,
    marks: Tree,
    from: u32,
    to: u32,
) -> Result<Tree, Unsound>
    ensures { MarksShrunk slots.old slots.new free.old free.new marks from to result }
{
    let mut place = MarkTotals::empty();
    let found = part_marks(slots, free, marks, from.saturating_add(1), &mut place)?;
    match found {
        None => Ok(marks),
        Some(halves) => {
            let base = place.gaps.saturating_add(to.saturating_sub(from));
            let offset = place.gaps.saturating_add(halves.row.gap);
            if offset >= to {
                return join_moved(slots, free, halves, offset.saturating_sub(base));
            }
            give_slot(slots, free, halves.at)?;
            MarkTotals::add(&mut place, halves.row);
            drop_marks(slots, free, halves.left, halves.right, &mut place, to, base)
        }
    }
}

// Of the marks in the second tree those before the offset `to` go; the others follow those in the first, the gap of
// their first one counted from `base` on. The place has the value of the marks before the second tree.
pub fn drop_marks(
    slots: &mut [MarkRecord],
    free: &mut Link,
    left: Tree,
    rest: Tree,
    place: &mut MarkTotals,
    to: u32,
    base: u32,
) -> Result<Tree, Unsound>
    ensures { MarksDropped slots.old slots.new free.old free.new left rest place.old to base result }
{
    let Some(next) = part_marks(slots, free, rest, to, place)? else {
        release(slots, free, rest)?;
        return Ok(left);
    };
    release(slots, free, next.left)?;
    let offset = place.gaps.saturating_add(next.row.gap);
    let halves = MarkHalves { left, ..next };
    join_moved(slots, free, halves, offset.saturating_sub(base))
}
