// How many marks there are.
ghost use Rattle.mark_moves.specs.Moved.{MarksCounted};

use measures::mark_totals::{MarkRow, MarkTotals};
use pieces::head::MarkRecord;
use slots::records::{Tree, Unsound};
use slots::values::tree_value;

// From the value at the root.
pub fn count_marks(slots: &[MarkRecord], marks: Tree) -> Result<u32, Unsound>
    ensures { MarksCounted slots.now marks result }
{
    let value = tree_value::<MarkRow, MarkTotals>(slots, marks)?;
    Ok(value.count)
}
