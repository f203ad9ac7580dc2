// Nodes and levels written into slots.
ghost use Rattle.std.specs.Prelude.{◌≡◌};
ghost use Rattle.slots.specs.Sides.{pick as picked};
ghost use Rattle.tree.specs.Post.{JoinedEnds, LevelPut, NodePut, NodeTaken, Settled, Replanted, Planted};

use measures::Measure;
use slots::arena::{Arena, give_slot, write_slot};
use slots::reading::parts_at;
use slots::records::{Digit, Link, Record, Side, Tree, Unsound};
use slots::values::{join_on, level_value, value_at};

// The value of slot x, joined at that side to the value of slot i.
pub fn join_ends<R: Copy, M: Measure>(
    slots: &[Record<R, M::Value>],
    side: Side,
    x: u16,
    i: u16,
) -> Result<M::Value, Unsound>
    ensures { JoinedEnds M.Item.Weigh.weight M.Measure.means slots.now side x i result }
{
    match side {
        Side::Front => join_on::<R, M>(slots, &value_at(slots, x)?, i),
        Side::Back => join_on::<R, M>(slots, &value_at(slots, i)?, x),
    }
}

// A level in slot i, whose digit on that side is near.
pub fn put_level<R: Copy, V: Copy>(
    slots: &mut [Record<R, V>],
    side: Side,
    i: u16,
    near: Digit,
    middle: Tree,
    far: Digit,
    value: Result<V, Unsound>,
) -> Result<Tree, Unsound>
    ensures { LevelPut slots.old slots.new i (picked side near far) middle (picked side far near) value result }
{
    let value = value?;
    let level = Record::Level {
        front: side.pick(near, far),
        middle,
        back: side.pick(far, near),
        value,
    };
    write_slot(slots, i, level)?;
    Ok(Tree::Deep(i))
}

// A node of two or three slots, in the first slot of the chain.
pub fn put_node<R: Copy, M: Measure>(arena: &mut Arena<R, M>, parts: Digit) -> Result<u16, Unsound>
    ensures same { arena.new.slots.ghost_name ≡ arena.old.slots.ghost_name }
    ensures put { NodePut M.Item.Weigh.weight M.Measure.means arena.old.slots.now arena.new.slots.now arena.old.free arena.new.free parts result }
{
    let value = arena.digit_value(parts)?;
    let node = parts.node(value)?;
    let i = arena.take()?;
    write_slot(arena.slots, i, node)?;
    Ok(i)
}

// The slots below the node at n, which is free then.
pub fn take_node<R: Copy, V: Copy>(
    slots: &mut [Record<R, V>],
    free: &mut Link,
    n: u16,
) -> Result<Digit, Unsound>
    ensures { NodeTaken slots.old slots.new free.old free.new n result }
{
    let parts = parts_at(slots, n)?;
    give_slot(slots, free, n)?;
    Ok(parts)
}

// A level in slot i, with the value of all its parts.
pub fn settle<R: Copy, M: Measure>(
    slots: &mut [Record<R, M::Value>],
    side: Side,
    i: u16,
    near: Digit,
    middle: Tree,
    far: Digit,
) -> Result<Tree, Unsound>
    ensures { Settled M.Item.Weigh.weight M.Measure.means slots.old slots.new side i near middle far result }
{
    let value = level_value::<R, M>(slots, side.pick(near, far), middle, side.pick(far, near));
    put_level(slots, side, i, near, middle, far, value)
}

// The tree of a digit's slots, in slot i; one slot alone needs no level, and i is given back.
pub fn replant<R: Copy, M: Measure>(
    arena: &mut Arena<R, M>,
    i: u16,
    digit: Digit,
) -> Result<Tree, Unsound>
    ensures same { arena.new.slots.ghost_name ≡ arena.old.slots.ghost_name }
    ensures grown { Replanted M.Item.Weigh.weight M.Measure.means arena.old.slots.now arena.new.slots.now arena.old.free arena.new.free i digit result }
{
    match digit {
        Digit::One(a) => {
            arena.give(i)?;
            Ok(Tree::Single(a))
        }
        Digit::Two(a, b) => settle::<R, M>(
            arena.slots,
            Side::Front,
            i,
            Digit::One(a),
            Tree::Empty,
            Digit::One(b),
        ),
        Digit::Three(a, b, c) => settle::<R, M>(
            arena.slots,
            Side::Front,
            i,
            Digit::Two(a, b),
            Tree::Empty,
            Digit::One(c),
        ),
        Digit::Four(a, b, c, d) => settle::<R, M>(
            arena.slots,
            Side::Front,
            i,
            Digit::Two(a, b),
            Tree::Empty,
            Digit::Two(c, d),
        ),
    }
}

// The tree of up to four slots.
pub fn plant<R: Copy, M: Measure>(
    arena: &mut Arena<R, M>,
    part: Option<Digit>,
) -> Result<Tree, Unsound>
    ensures same { arena.new.slots.ghost_name ≡ arena.old.slots.ghost_name }
    ensures planted { Planted M.Item.Weigh.weight M.Measure.means arena.old.slots.now arena.new.slots.now arena.old.free arena.new.free part result }
{
    match part {
        None => Ok(Tree::Empty),
        Some(digit) => {
            let i = arena.take()?;
            replant(arena, i, digit)
        }
    }
}
