// What is left on both sides becomes one tree.
ghost use Rattle.excisions.specs.Ends.{Closed};

use concat::joins::concat;
use edits::inserting::append_one;
use measures::Measure;
use pieces::head::{TextMeasure, TextRecord};
use pieces::rows::PieceRow;
use slots::records::{Digit, Link, Tree, Unsound};

// The tree of the first, then at most one slot of each part, then the second.
pub fn close_up<A: Measure<Item = u8>>(
    slots: &mut [TextRecord<A::Value>],
    free: &mut Link,
    left: Tree,
    front: Option<Digit>,
    back: Option<Digit>,
    right: Tree,
) -> Result<Tree, Unsound>
    ensures { Closed A.Measure.means slots.old slots.new free.old free.new left front back right result }
{
    let part = append_one(front, back)?;
    concat::<PieceRow, TextMeasure<A>>(slots, free, left, part, right)
}
