// Where the parts of a text end, read from where they begin.
ghost use Rattle.opens.specs.Walks.{SlotEnds, DigitEnds, TreeEnds};

use crate::parts::{Start, part_from};
use pieces::head::TextRecord;
use slots::records::{Digit, Side, Tree, Unsound};
use slots::values::value_at;

pub fn slot_end<V: Copy>(slots: &[TextRecord<V>], i: u16, start: Start) -> Result<Start, Unsound>
    ensures { SlotEnds slots.now i start result }
{
    let value = value_at(slots, i)?;
    Ok(part_from(&value, start).end)
}

pub fn digit_end<V: Copy>(
    slots: &[TextRecord<V>],
    digit: Digit,
    start: Start,
) -> Result<Start, Unsound>
    ensures { DigitEnds slots.now digit start result }
{
    let first = digit.peel(Side::Front);
    let next = slot_end(slots, first.slot, start)?;
    match first.rest {
        None => Ok(next),
        Some(rest) => digit_end(slots, rest, next),
    }
}

pub fn tree_end<V: Copy>(
    slots: &[TextRecord<V>],
    tree: Tree,
    start: Start,
) -> Result<Start, Unsound>
    ensures { TreeEnds slots.now tree start result }
{
    match tree {
        Tree::Empty => Ok(start),
        Tree::Single(i) | Tree::Deep(i) => slot_end(slots, i, start),
    }
}
