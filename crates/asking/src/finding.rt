// The row of an element that a probe finds.
ghost use Rattle.asking.specs.Rows.{RowFound, RowSought};

use measures::{Measure, Probe};
use seek::after::seek_after;
use seek::search::search;
use slots::reading::row_at;
use slots::records::{Record, Tree, Unsound};

// Of the first element up to and with which the probe is yes, read on from the value in the place, where the value
// before it is left: of all, if there is no such element.
pub fn find_row<R: Copy, M: Measure, P: Probe<M>>(
    slots: &[Record<R, M::Value>],
    tree: Tree,
    probe: &P,
    place: &mut M::Value,
) -> Result<Option<R>, Unsound>
    ensures { RowFound M.Item.Weigh.weight M.Measure.means (P.Probe.says probe.now) slots.now tree place.old place.new result }
{
    let found = search::<R, M, P>(slots, tree, probe, place)?;
    found.map(|i| row_at(slots, i)).transpose()
}

// The same among the elements after the first up to and with which `from` is yes of the tree from its start.
pub fn find_row_after<R: Copy, M: Measure, F: Probe<M>, P: Probe<M>>(
    slots: &[Record<R, M::Value>],
    tree: Tree,
    from: &F,
    until: &P,
    place: &mut M::Value,
) -> Result<Option<R>, Unsound>
    ensures { RowSought M.Item.Weigh.weight M.Measure.means (F.Probe.says from.now) (P.Probe.says until.now) slots.now tree place.old place.new result }
{
    let found = seek_after::<R, M, F, P>(slots, tree, from, until, place)?;
    found.map(|i| row_at(slots, i)).transpose()
}
