// The split by a probe.
ghost use Rattle.std.specs.Prelude.{◌≡◌};
ghost use Rattle.split.specs.Post.{Reopened, Splits, SplitAt};

use crate::halves::{Halves, edge, rejoin};
use measures::{Measure, Probe};
use seek::digits::{Cut, pick, reaches, reaches_tree};
use slots::reading::spine_at;
use slots::records::{LEVELS, Link, Record, Side, Tree, Unsound};
use tree::build::take_node;

// Gives up the node at n, where the probe turns yes, and cuts its parts.
pub fn reopen<R: Copy, M: Measure, P: Probe<M>>(
    slots: &mut [Record<R, M::Value>],
    free: &mut Link,
    n: u16,
    probe: &P,
    place: &mut M::Value,
) -> Result<Cut, Unsound>
    ensures { Reopened M.Item.Weigh.weight M.Measure.means (P.Probe.says probe.now) slots.old slots.new free.old free.new n place.old place.new result }
{
    let parts = take_node(slots, free, n)?;
    pick::<R, M, P>(slots, parts, probe, place)?.ok_or(Unsound)
}

// Fuel bounds the levels.
pub fn split_down<R: Copy, M: Measure, P: Probe<M>>(
    slots: &mut [Record<R, M::Value>],
    free: &mut Link,
    fuel: u8,
    tree: Tree,
    probe: &P,
    place: &mut M::Value,
) -> Result<Option<Halves>, Unsound>
    ensures { Splits M.Item.Weigh.weight M.Measure.means (P.Probe.says probe.now) slots.old slots.new free.old free.new fuel tree place.old place.new result }
{
    match tree {
        Tree::Empty => Ok(None),
        Tree::Single(x) => {
            if reaches::<R, M, P>(slots, x, probe, place)? {
                return Ok(Some(Halves::new(Side::Front, Tree::Empty, x, Tree::Empty)));
            }
            Ok(None)
        }
        Tree::Deep(i) => {
            let level = spine_at(slots, i)?;
            if let Some(cut) = pick::<R, M, P>(slots, level.front, probe, place)? {
                return edge::<R, M>(slots, free, fuel, Side::Front, i, level, cut);
            }
            if !reaches_tree::<R, M, P>(slots, level.middle, probe, place)? {
                return match pick::<R, M, P>(slots, level.back, probe, place)? {
                    Some(last) => edge::<R, M>(slots, free, fuel, Side::Back, i, level, last),
                    None => Ok(None),
                };
            }
            if fuel == 0 {
                return Err(Unsound);
            }
            let middle = split_down::<R, M, P>(
                slots,
                free,
                fuel - 1,
                level.middle,
                probe,
                place,
            )?.ok_or(Unsound)?;
            let inner = reopen::<R, M, P>(slots, free, middle.at, probe, place)?;
            rejoin::<R, M>(slots, free, fuel, i, level, middle, inner)
        }
    }
}

// The first element up to and with which the probe is yes, read on from the value in the place, and the trees of the
// elements before and after it. The value before it is left in the place. If there is no such element, nothing changes
// but the place, which has the value of all then.
pub fn split<R: Copy, M: Measure, P: Probe<M>>(
    slots: &mut [Record<R, M::Value>],
    free: &mut Link,
    tree: Tree,
    probe: &P,
    place: &mut M::Value,
) -> Result<Option<Halves>, Unsound>
    ensures { SplitAt M.Item.Weigh.weight M.Measure.means (P.Probe.says probe.now) slots.old slots.new free.old free.new tree place.old place.new result }
{
    split_down::<R, M, P>(slots, free, LEVELS, tree, probe, place)
}
