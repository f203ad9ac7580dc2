// Taking the marks' tree apart at a mark, and putting it together with that mark moved.
ghost use Rattle.std.specs.Prelude.{[], ◌∷◌};
ghost use Rattle.measures.specs.MarkTotals.{totals_of_marks};
ghost use Rattle.slots.specs.Post.{Wrote};
ghost use Rattle.slots.specs.declared.records.Record.TheVariants.{Leaf};
ghost use Rattle.mark_moves.specs.Parting.{MarksParted, MovedJoined};

use concat::joins::concat;
use measures::Measure;
use measures::mark_totals::{MarkRow, MarkTotals};
use measures::probes::MarkFrom;
use pieces::head::MarkRecord;
use slots::arena::write_slot;
use slots::reading::row_at;
use slots::records::{Digit, Link, Record, Tree, Unsound};
use split::descent::split;

// The marks before one, its slot and row, and the marks after it.
#[derive(Clone, Copy)]
pub struct MarkHalves {
    pub left: Tree,
    pub at: u16,
    pub row: MarkRow,
    pub right: Tree,
}

// At the first mark with offset `at` or a later one. The place has the value of the marks before the tree, and then of
// those before the mark found; where there is none, nothing changes but the place.
pub fn part_marks(
    slots: &mut [MarkRecord],
    free: &mut Link,
    marks: Tree,
    at: u32,
    place: &mut MarkTotals,
) -> Result<Option<MarkHalves>, Unsound>
    ensures { MarksParted slots.old slots.new free.old free.new marks at place.old place.new result }
{
    let probe = MarkFrom { at };
    let found = split::<MarkRow, MarkTotals, MarkFrom>(slots, free, marks, &probe, place)?;
    let Some(halves) = found else {
        return Ok(None);
    };
    let row = row_at(slots, halves.at)?;
    Ok(Some(MarkHalves {
        left: halves.left,
        at: halves.at,
        row,
        right: halves.right,
    }))
}

// Gives the leaf in slot i another row.
pub fn set_mark(slots: &mut [MarkRecord], i: u16, row: MarkRow) -> Result<(), Unsound>
    ensures { Wrote slots.old slots.new i (Leaf row (totals_of_marks (row ∷ []))) result }
{
    let value = MarkTotals::one(row);
    write_slot(slots, i, Record::Leaf { row, value })
}

// One tree again, the mark between the halves with another gap.
pub fn join_moved(
    slots: &mut [MarkRecord],
    free: &mut Link,
    halves: MarkHalves,
    gap: u32,
) -> Result<Tree, Unsound>
    ensures { MovedJoined slots.old slots.new free.old free.new halves gap result }
{
    let row = MarkRow {
        gap,
        label: halves.row.label,
    };
    set_mark(slots, halves.at, row)?;
    let part = Some(Digit::One(halves.at));
    concat::<MarkRow, MarkTotals>(slots, free, halves.left, part, halves.right)
}
