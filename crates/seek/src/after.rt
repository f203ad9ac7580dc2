// The search among the elements after one that another probe finds.
ghost use Rattle.std.specs.Prelude.{◌≡◌, Ok};
ghost use Rattle.seek.specs.Beyond.{DigitThen, TreeThen, TwigAfter, DigitAfter, TreeAfter, SoughtAfter};

use crate::digits::{pick, reaches_tree};
use crate::search::{search_digit, search_tree};
use measures::{Measure, Probe};
use slots::reading::{parts_at, spine_at};
use slots::records::{Digit, LEVELS, Record, Tree, Unsound};

// Goes on with a digit, if there is one and nothing was found before.
fn then_digit<R: Copy, M: Measure, P: Probe<M>>(
    slots: &[Record<R, M::Value>],
    height: u8,
    found: Option<u16>,
    digit: Option<Digit>,
    until: &P,
    place: &mut M::Value,
) -> Result<Option<u16>, Unsound>
    ensures { DigitThen M.Item.Weigh.weight M.Measure.means (P.Probe.says until.now) slots.now height (Ok found) digit place.old place.new result }
{
    if found.is_some() {
        return Ok(found);
    }
    match digit {
        Some(digit) => search_digit::<R, M, P>(slots, height, digit, until, place),
        None => Ok(None),
    }
}

fn then_tree<R: Copy, M: Measure, P: Probe<M>>(
    slots: &[Record<R, M::Value>],
    height: u8,
    found: Option<u16>,
    tree: Tree,
    until: &P,
    place: &mut M::Value,
) -> Result<Option<u16>, Unsound>
    ensures { TreeThen M.Item.Weigh.weight M.Measure.means (P.Probe.says until.now) slots.now height (Ok found) tree place.old place.new result }
{
    if found.is_some() {
        return Ok(found);
    }
    search_tree::<R, M, P>(slots, height, tree, until, place)
}

// Below slot i, which is `height` nodes up and where the first probe turns yes.
fn after_twig<R: Copy, M: Measure, F: Probe<M>, P: Probe<M>>(
    slots: &[Record<R, M::Value>],
    height: u8,
    i: u16,
    from: &F,
    start: &mut M::Value,
    until: &P,
    place: &mut M::Value,
) -> Result<Option<u16>, Unsound>
    ensures { TwigAfter M.Item.Weigh.weight M.Measure.means (F.Probe.says from.now) (P.Probe.says until.now) slots.now height i start.old place.old place.new result }
{
    if height == 0 {
        return Ok(None);
    }
    let parts = parts_at(slots, i)?;
    let cut = pick::<R, M, F>(slots, parts, from, start)?.ok_or(Unsound)?;
    let found = after_twig::<R, M, F, P>(slots, height - 1, cut.at, from, start, until, place)?;
    then_digit::<R, M, P>(slots, height - 1, found, cut.right, until, place)
}

fn after_digit<R: Copy, M: Measure, F: Probe<M>, P: Probe<M>>(
    slots: &[Record<R, M::Value>],
    height: u8,
    digit: Digit,
    from: &F,
    start: &mut M::Value,
    until: &P,
    place: &mut M::Value,
) -> Result<Option<u16>, Unsound>
    ensures { DigitAfter M.Item.Weigh.weight M.Measure.means (F.Probe.says from.now) (P.Probe.says until.now) slots.now height digit start.old place.old place.new result }
{
    let Some(cut) = pick::<R, M, F>(slots, digit, from, start)? else {
        return Ok(None);
    };
    let found = after_twig::<R, M, F, P>(slots, height, cut.at, from, start, until, place)?;
    then_digit::<R, M, P>(slots, height, found, cut.right, until, place)
}

// In a tree whose slots are `height` nodes up.
fn after_tree<R: Copy, M: Measure, F: Probe<M>, P: Probe<M>>(
    slots: &[Record<R, M::Value>],
    height: u8,
    tree: Tree,
    from: &F,
    start: &mut M::Value,
    until: &P,
    place: &mut M::Value,
) -> Result<Option<u16>, Unsound>
    ensures { TreeAfter M.Item.Weigh.weight M.Measure.means (F.Probe.says from.now) (P.Probe.says until.now) slots.now height tree start.old place.old place.new result }
{
    match tree {
        Tree::Empty => Ok(None),
        Tree::Single(i) => {
            after_digit::<R, M, F, P>(slots, height, Digit::One(i), from, start, until, place)
        }
        Tree::Deep(i) => {
            let level = spine_at(slots, i)?;
            if height >= LEVELS {
                return Err(Unsound);
            }
            if let Some(cut) = pick::<R, M, F>(slots, level.front, from, start)? {
                let x = after_twig::<R, M, F, P>(slots, height, cut.at, from, start, until, place)?;
                let y = then_digit::<R, M, P>(slots, height, x, cut.right, until, place)?;
                let z = then_tree::<R, M, P>(slots, height + 1, y, level.middle, until, place)?;
                return then_digit::<R, M, P>(slots, height, z, Some(level.back), until, place);
            }
            if !reaches_tree::<R, M, F>(slots, level.middle, from, start)? {
                return after_digit::<R, M, F, P>(
                    slots, height, level.back, from, start, until, place,
                );
            }
            let x = after_tree::<R, M, F, P>(
                slots,
                height + 1,
                level.middle,
                from,
                start,
                until,
                place,
            )?;
            then_digit::<R, M, P>(slots, height, x, Some(level.back), until, place)
        }
    }
}

// As the search, but only among the elements after the first up to and with which `from` is yes of the tree from its
// start. The place is not moved if there is no such element.
pub fn seek_after<R: Copy, M: Measure, F: Probe<M>, P: Probe<M>>(
    slots: &[Record<R, M::Value>],
    tree: Tree,
    from: &F,
    until: &P,
    place: &mut M::Value,
) -> Result<Option<u16>, Unsound>
    ensures { SoughtAfter M.Item.Weigh.weight M.Measure.means (F.Probe.says from.now) (P.Probe.says until.now) slots.now tree place.old place.new result }
{
    let mut start = M::empty();
    after_tree::<R, M, F, P>(slots, 0, tree, from, &mut start, until, place)
}
