// Where a probe turns yes among the slots of a digit.
ghost use Rattle.std.specs.Prelude.{◌≡◌, Ok};
ghost use Rattle.seek.specs.Post.{Passed, TreePassed, Tried, Picked};

use measures::{Measure, Probe};
use slots::records::{Digit, Record, Tree, Unsound};
use slots::values::join_on;

// A digit taken apart at one of its slots.
#[derive(Clone, Copy)]
pub struct Cut {
    pub left: Option<Digit>,
    pub at: u16,
    pub right: Option<Digit>,
}

impl Cut {
    pub fn new(left: Option<Digit>, at: u16, right: Option<Digit>) -> Self
        ensures { result ≡ record { left = left; at = at; right = right } }
    {
        Cut { left, at, right }
    }
}

// Whether the probe is yes once what lies in the slot is added; if not, the place moves past it.
pub fn reaches<R: Copy, M: Measure, P: Probe<M>>(
    slots: &[Record<R, M::Value>],
    i: u16,
    probe: &P,
    place: &mut M::Value,
) -> Result<bool, Unsound>
    ensures { Passed M.Item.Weigh.weight M.Measure.means (P.Probe.says probe.now) slots.now i place.old place.new result }
{
    let all = join_on::<R, M>(slots, place, i)?;
    if probe.holds(&all) {
        return Ok(true);
    }
    *place = all;
    Ok(false)
}

// The same of a tree. An empty one is passed, whatever the probe says.
pub fn reaches_tree<R: Copy, M: Measure, P: Probe<M>>(
    slots: &[Record<R, M::Value>],
    tree: Tree,
    probe: &P,
    place: &mut M::Value,
) -> Result<bool, Unsound>
    ensures { TreePassed M.Item.Weigh.weight M.Measure.means (P.Probe.says probe.now) slots.now tree place.old place.new result }
{
    match tree {
        Tree::Empty => Ok(false),
        Tree::Single(i) | Tree::Deep(i) => reaches::<R, M, P>(slots, i, probe, place),
    }
}

// Tries the slot of the cut, where none before it was taken.
fn attempt<R: Copy, M: Measure, P: Probe<M>>(
    slots: &[Record<R, M::Value>],
    taken: Option<Cut>,
    cut: Cut,
    probe: &P,
    place: &mut M::Value,
) -> Result<Option<Cut>, Unsound>
    ensures { Tried M.Item.Weigh.weight M.Measure.means (P.Probe.says probe.now) slots.now (Ok taken) cut place.old place.new result }
{
    if taken.is_some() {
        return Ok(taken);
    }
    if reaches::<R, M, P>(slots, cut.at, probe, place)? {
        return Ok(Some(cut));
    }
    Ok(None)
}

// The first slot of the digit up to and with which the probe is yes.
pub fn pick<R: Copy, M: Measure, P: Probe<M>>(
    slots: &[Record<R, M::Value>],
    digit: Digit,
    probe: &P,
    place: &mut M::Value,
) -> Result<Option<Cut>, Unsound>
    ensures { Picked M.Item.Weigh.weight M.Measure.means (P.Probe.says probe.now) slots.now digit place.old place.new result }
{
    match digit {
        Digit::One(a) => {
            let only = Cut::new(None, a, None);
            attempt::<R, M, P>(slots, None, only, probe, place)
        }
        Digit::Two(a, b) => {
            let first = Cut::new(None, a, Some(Digit::One(b)));
            let second = Cut::new(Some(Digit::One(a)), b, None);
            let x = attempt::<R, M, P>(slots, None, first, probe, place)?;
            attempt::<R, M, P>(slots, x, second, probe, place)
        }
        Digit::Three(a, b, c) => {
            let first = Cut::new(None, a, Some(Digit::Two(b, c)));
            let second = Cut::new(Some(Digit::One(a)), b, Some(Digit::One(c)));
            let third = Cut::new(Some(Digit::Two(a, b)), c, None);
            let x = attempt::<R, M, P>(slots, None, first, probe, place)?;
            let y = attempt::<R, M, P>(slots, x, second, probe, place)?;
            attempt::<R, M, P>(slots, y, third, probe, place)
        }
        Digit::Four(a, b, c, d) => {
            let first = Cut::new(None, a, Some(Digit::Three(b, c, d)));
            let second = Cut::new(Some(Digit::One(a)), b, Some(Digit::Two(c, d)));
            let third = Cut::new(Some(Digit::Two(a, b)), c, Some(Digit::One(d)));
            let fourth = Cut::new(Some(Digit::Three(a, b, c)), d, None);
            let x = attempt::<R, M, P>(slots, None, first, probe, place)?;
            let y = attempt::<R, M, P>(slots, x, second, probe, place)?;
            let z = attempt::<R, M, P>(slots, y, third, probe, place)?;
            attempt::<R, M, P>(slots, z, fourth, probe, place)
        }
    }
}
