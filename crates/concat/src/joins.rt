// Two trees and what lies between them become one.
ghost use Rattle.std.specs.Prelude.{◌≡◌};
ghost use Rattle.concat.specs.Post.{JoinedBetween, Extended, ExtendedPast, Melted, Extends, Concat};

use crate::bundles::bundle;
use measures::Measure;
use slots::arena::Arena;
use slots::records::{Digit, LEVELS, Link, Record, Side, Tree, Unsound};
use slots::values::{digit_value, join_on, value_at};
use tree::build::put_level;
use tree::ends::push_down;

// The value of slot i, then of the part, then of slot j.
pub fn join_between<R: Copy, M: Measure>(
    slots: &[Record<R, M::Value>],
    i: u16,
    part: Option<Digit>,
    j: u16,
) -> Result<M::Value, Unsound>
    ensures { JoinedBetween M.Item.Weigh.weight M.Measure.means slots.now i part j result }
{
    let first = value_at(slots, i)?;
    match part {
        None => join_on::<R, M>(slots, &first, j),
        Some(digit) => {
            let left = M::join(&first, &digit_value::<R, M>(slots, digit)?);
            join_on::<R, M>(slots, &left, j)
        }
    }
}

// Up to four slots more at that side.
pub fn extend_down<R: Copy, M: Measure>(
    arena: &mut Arena<R, M>,
    fuel: u8,
    side: Side,
    tree: Tree,
    part: Option<Digit>,
) -> Result<Tree, Unsound>
    ensures same { arena.new.slots.ghost_name ≡ arena.old.slots.ghost_name }
    ensures extended { Extended M.Item.Weigh.weight M.Measure.means arena.old.slots.now arena.new.slots.now arena.old.free arena.new.free fuel side tree part result }
{
    match part {
        None => Ok(tree),
        Some(digit) => {
            let near = digit.peel(side.flip());
            let more = push_down(arena, fuel, side, tree, near.slot)?;
            extend_down(arena, fuel, side, more, near.rest)
        }
    }
}

// Up to four slots more, and one beyond them.
pub fn extend_past<R: Copy, M: Measure>(
    arena: &mut Arena<R, M>,
    fuel: u8,
    side: Side,
    tree: Tree,
    part: Option<Digit>,
    x: u16,
) -> Result<Tree, Unsound>
    ensures same { arena.new.slots.ghost_name ≡ arena.old.slots.ghost_name }
    ensures extended { ExtendedPast M.Item.Weigh.weight M.Measure.means arena.old.slots.now arena.new.slots.now arena.old.free arena.new.free fuel side tree part x result }
{
    let more = extend_down(arena, fuel, side, tree, part)?;
    push_down(arena, fuel, side, more, x)
}

// By a shared arena, since the slots of one that is lent to be written are not lent to be read.
fn join_between_in<R: Copy, M: Measure>(
    arena: &Arena<R, M>,
    i: u16,
    part: Option<Digit>,
    j: u16,
) -> Result<M::Value, Unsound>
    ensures { JoinedBetween M.Item.Weigh.weight M.Measure.means arena.now.slots.now i part j result }
{
    join_between::<R, M>(arena.slots, i, part, j)
}

pub fn concat_down<R: Copy, M: Measure>(
    arena: &mut Arena<R, M>,
    fuel: u8,
    left: Tree,
    part: Option<Digit>,
    right: Tree,
) -> Result<Tree, Unsound>
    ensures same { arena.new.slots.ghost_name ≡ arena.old.slots.ghost_name }
    ensures melted { Melted M.Item.Weigh.weight M.Measure.means arena.old.slots.now arena.new.slots.now arena.old.free arena.new.free fuel left part right result }
{
    match (left, right) {
        (Tree::Empty, _) => extend_down(arena, fuel, Side::Front, right, part),
        (Tree::Single(x), _) => extend_past(arena, fuel, Side::Front, right, part, x),
        (_, Tree::Empty) => extend_down(arena, fuel, Side::Back, left, part),
        (_, Tree::Single(y)) => extend_past(arena, fuel, Side::Back, left, part, y),
        (Tree::Deep(i), Tree::Deep(j)) => {
            if fuel == 0 {
                return Err(Unsound);
            }
            let l = arena.spine_at(i)?;
            let r = arena.spine_at(j)?;
            let value = join_between_in(arena, i, part, j);
            let nodes = bundle(arena, l.back, part, r.front)?;
            let middle = concat_down(arena, fuel - 1, l.middle, nodes, r.middle)?;
            arena.give(j)?;
            put_level(arena.slots, Side::Front, i, l.front, middle, r.back, value)
        }
    }
}

// Up to four slots more at that side of a tree.
pub fn extend<R: Copy, M: Measure>(
    slots: &mut [Record<R, M::Value>],
    free: &mut Link,
    side: Side,
    tree: Tree,
    part: Option<Digit>,
) -> Result<Tree, Unsound>
    ensures { Extends M.Item.Weigh.weight M.Measure.means slots.old slots.new free.old free.new side tree part result }
{
    let mut arena: Arena<R, M> = Arena { slots, free: *free };
    let made = extend_down(&mut arena, LEVELS, side, tree, part);
    *free = arena.free;
    made
}

// The tree of the first, then up to four slots, then the second.
pub fn concat<R: Copy, M: Measure>(
    slots: &mut [Record<R, M::Value>],
    free: &mut Link,
    left: Tree,
    part: Option<Digit>,
    right: Tree,
) -> Result<Tree, Unsound>
    ensures { Concat M.Item.Weigh.weight M.Measure.means slots.old slots.new free.old free.new left part right result }
{
    let mut arena: Arena<R, M> = Arena { slots, free: *free };
    let made = concat_down(&mut arena, LEVELS, left, part, right);
    *free = arena.free;
    made
}
