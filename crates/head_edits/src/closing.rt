// The marks when bytes leave the text.
ghost use Rattle.head_edits.specs.Closing.{MarksClosed};

use mark_moves::counting::count_marks;
use mark_moves::shrinking::shrink_marks;
use pieces::head::MarkRecord;
use slots::records::{Link, Tree, Unsound};

// The marks that are left, and how many they are.
#[derive(Clone, Copy)]
pub struct MarksLeft {
    pub tree: Tree,
    pub count: u32,
}

pub fn close_marks(
    slots: &mut [MarkRecord],
    free: &mut Link,
    marks: Tree,
    from: u32,
    to: u32,
) -> Result<MarksLeft, Unsound>
    ensures { MarksClosed slots.old slots.new free.old free.new marks from to result }
{
    let tree = shrink_marks(slots, free, marks, from, to)?;
    let count = count_marks(slots, tree)?;
    Ok(MarksLeft { tree, count })
}
