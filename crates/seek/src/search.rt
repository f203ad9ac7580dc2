// The first element up to and with which a probe is yes.
ghost use Rattle.std.specs.Prelude.{◌≡◌};
ghost use Rattle.seek.specs.Post.{TwigSearched, DigitSearched, TreeSearched, Searched};

use crate::digits::{pick, reaches_tree};
use measures::{Measure, Probe};
use slots::reading::{parts_at, spine_at};
use slots::records::{Digit, LEVELS, Record, Tree, Unsound};

// The leaf below slot i, which is `height` nodes up, where the probe turns yes.
pub fn search_twig<R: Copy, M: Measure, P: Probe<M>>(
    slots: &[Record<R, M::Value>],
    height: u8,
    i: u16,
    probe: &P,
    place: &mut M::Value,
) -> Result<u16, Unsound>
    ensures { TwigSearched M.Item.Weigh.weight M.Measure.means (P.Probe.says probe.now) slots.now height i place.old place.new result }
{
    if height == 0 {
        return Ok(i);
    }
    let parts = parts_at(slots, i)?;
    let cut = pick::<R, M, P>(slots, parts, probe, place)?.ok_or(Unsound)?;
    search_twig::<R, M, P>(slots, height - 1, cut.at, probe, place)
}

pub fn search_digit<R: Copy, M: Measure, P: Probe<M>>(
    slots: &[Record<R, M::Value>],
    height: u8,
    digit: Digit,
    probe: &P,
    place: &mut M::Value,
) -> Result<Option<u16>, Unsound>
    ensures { DigitSearched M.Item.Weigh.weight M.Measure.means (P.Probe.says probe.now) slots.now height digit place.old place.new result }
{
    let Some(cut) = pick::<R, M, P>(slots, digit, probe, place)? else {
        return Ok(None);
    };
    let leaf = search_twig::<R, M, P>(slots, height, cut.at, probe, place)?;
    Ok(Some(leaf))
}

// In a tree whose slots are `height` nodes up.
pub fn search_tree<R: Copy, M: Measure, P: Probe<M>>(
    slots: &[Record<R, M::Value>],
    height: u8,
    tree: Tree,
    probe: &P,
    place: &mut M::Value,
) -> Result<Option<u16>, Unsound>
    ensures { TreeSearched M.Item.Weigh.weight M.Measure.means (P.Probe.says probe.now) slots.now height tree place.old place.new result }
{
    match tree {
        Tree::Empty => Ok(None),
        Tree::Single(i) => search_digit::<R, M, P>(slots, height, Digit::One(i), probe, place),
        Tree::Deep(i) => {
            let level = spine_at(slots, i)?;
            let found = search_digit::<R, M, P>(slots, height, level.front, probe, place)?;
            if found.is_some() {
                return Ok(found);
            }
            if !reaches_tree::<R, M, P>(slots, level.middle, probe, place)? {
                return search_digit::<R, M, P>(slots, height, level.back, probe, place);
            }
            if height >= LEVELS {
                return Err(Unsound);
            }
            search_tree::<R, M, P>(slots, height + 1, level.middle, probe, place)
        }
    }
}

// The first element of the tree up to and with which the probe is yes, read on from the value in the place,
// where the value before it is left: of all, if there is no such element.
pub fn search<R: Copy, M: Measure, P: Probe<M>>(
    slots: &[Record<R, M::Value>],
    tree: Tree,
    probe: &P,
    place: &mut M::Value,
) -> Result<Option<u16>, Unsound>
    ensures { Searched M.Item.Weigh.weight M.Measure.means (P.Probe.says probe.now) slots.now tree place.old place.new result }
{
    search_tree::<R, M, P>(slots, 0, tree, probe, place)
}
