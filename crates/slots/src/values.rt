// The values of what lies in slots, joined from front to back.
ghost use Rattle.std.specs.Prelude.{◌≡◌, Ok, Err, MatchResult, slice_index_or};
ghost use Rattle.slots.specs.Ghost.{none};
ghost use Rattle.slots.specs.Values.{value_in, JoinedOk};
ghost use Rattle.slots.specs.Post.{DigitValued, PartValued, TreeValued, LevelValued};

use crate::records::{Digit, Record, Tree, Unsound};
use measures::Measure;

// The value in a slot, where it lies.
pub fn value_ref<R: Copy, V: Copy>(slots: &[Record<R, V>], i: u16) -> Result<&V, Unsound>
    ensures { MatchResult result (λ v. value_in (slice_index_or slots.now i none) ≡ Ok v.now) (λ e. value_in (slice_index_or slots.now i none) ≡ Err e) }
{
    match slots.get(i as usize) {
        Some(
            Record::Leaf { value, .. }
            | Record::Node2 { value, .. }
            | Record::Node3 { value, .. }
            | Record::Level { value, .. },
        ) => Ok(value),
        _ => Err(Unsound),
    }
}

pub fn value_at<R: Copy, V: Copy>(slots: &[Record<R, V>], i: u16) -> Result<V, Unsound>
    ensures { result ≡ value_in (slice_index_or slots.now i none) }
{
    Ok(*value_ref(slots, i)?)
}

// Joins the value in a slot on, without a copy of it.
pub fn join_on<R: Copy, M: Measure>(
    slots: &[Record<R, M::Value>],
    before: &M::Value,
    i: u16,
) -> Result<M::Value, Unsound>
    ensures { JoinedOk M.Item.Weigh.weight M.Measure.means (Ok before.now) (value_in (slice_index_or slots.now i none)) result }
{
    Ok(M::join(before, value_ref(slots, i)?))
}

pub fn digit_value<R: Copy, M: Measure>(
    slots: &[Record<R, M::Value>],
    digit: Digit,
) -> Result<M::Value, Unsound>
    ensures { DigitValued M.Item.Weigh.weight M.Measure.means slots.now digit result }
{
    match digit {
        Digit::One(a) => value_at(slots, a),
        Digit::Two(a, b) => join_on::<R, M>(slots, value_ref(slots, a)?, b),
        Digit::Three(a, b, c) => {
            let two = join_on::<R, M>(slots, value_ref(slots, a)?, b)?;
            join_on::<R, M>(slots, &two, c)
        }
        Digit::Four(a, b, c, d) => {
            let two = join_on::<R, M>(slots, value_ref(slots, a)?, b)?;
            let three = join_on::<R, M>(slots, &two, c)?;
            join_on::<R, M>(slots, &three, d)
        }
    }
}

pub fn part_value<R: Copy, M: Measure>(
    slots: &[Record<R, M::Value>],
    part: Option<Digit>,
) -> Result<M::Value, Unsound>
    ensures { PartValued M.Item.Weigh.weight M.Measure.means slots.now part result }
{
    match part {
        None => Ok(M::empty()),
        Some(digit) => digit_value::<R, M>(slots, digit),
    }
}

pub fn tree_value<R: Copy, M: Measure>(
    slots: &[Record<R, M::Value>],
    tree: Tree,
) -> Result<M::Value, Unsound>
    ensures { TreeValued M.Item.Weigh.weight M.Measure.means slots.now tree result }
{
    match tree {
        Tree::Empty => Ok(M::empty()),
        Tree::Single(i) | Tree::Deep(i) => value_at(slots, i),
    }
}

pub fn level_value<R: Copy, M: Measure>(
    slots: &[Record<R, M::Value>],
    front: Digit,
    middle: Tree,
    back: Digit,
) -> Result<M::Value, Unsound>
    ensures { LevelValued M.Item.Weigh.weight M.Measure.means slots.now front middle back result }
{
    let first = digit_value::<R, M>(slots, front)?;
    let some = M::join(&first, &tree_value::<R, M>(slots, middle)?);
    Ok(M::join(&some, &digit_value::<R, M>(slots, back)?))
}
