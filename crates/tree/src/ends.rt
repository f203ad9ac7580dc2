// Pushing and popping at either side.
ghost use Rattle.std.specs.Prelude.{◌≡◌};
ghost use Rattle.tree.specs.Post.{JoinedEnds, Pushed, Refilled, Deepened, Pops, PopsFirst};

use crate::build::{join_ends, put_level, put_node, replant, settle, take_node};
use measures::Measure;
use slots::arena::Arena;
use slots::records::{Digit, Grown, LEVELS, Link, Record, Side, Tree, Unsound};

// A tree without its first slot at one side.
#[derive(Clone, Copy)]
pub struct Popped {
    pub slot: u16,
    pub rest: Tree,
}

// By a shared arena, since the slots of one that is lent to be written are not lent to be read.
fn join_ends_in<R: Copy, M: Measure>(
    arena: &Arena<R, M>,
    side: Side,
    x: u16,
    i: u16,
) -> Result<M::Value, Unsound>
    ensures { JoinedEnds M.Item.Weigh.weight M.Measure.means arena.now.slots.now side x i result }
{
    join_ends::<R, M>(arena.slots, side, x, i)
}

// One slot more at that side; fuel bounds the levels.
pub fn push_down<R: Copy, M: Measure>(
    arena: &mut Arena<R, M>,
    fuel: u8,
    side: Side,
    tree: Tree,
    x: u16,
) -> Result<Tree, Unsound>
    ensures same { arena.new.slots.ghost_name ≡ arena.old.slots.ghost_name }
    ensures pushed { Pushed M.Item.Weigh.weight M.Measure.means arena.old.slots.now arena.new.slots.now arena.old.free arena.new.free fuel side tree x result }
{
    match tree {
        Tree::Empty => Ok(Tree::Single(x)),
        Tree::Single(y) => {
            let value = join_ends_in(arena, side, x, y);
            let i = arena.take()?;
            put_level(
                arena.slots,
                side,
                i,
                Digit::One(x),
                Tree::Empty,
                Digit::One(y),
                value,
            )
        }
        Tree::Deep(i) => {
            let level = arena.spine_at(i)?;
            let near = side.pick(level.front, level.back);
            let far = side.flip().pick(level.front, level.back);
            let value = join_ends_in(arena, side, x, i);
            match near.grow(side, x) {
                Grown::Room(digit) => {
                    put_level(arena.slots, side, i, digit, level.middle, far, value)
                }
                Grown::Over { keep, parts } => {
                    if fuel == 0 {
                        return Err(Unsound);
                    }
                    let n = put_node(arena, parts)?;
                    let middle = push_down(arena, fuel - 1, side, level.middle, n)?;
                    put_level(arena.slots, side, i, keep, middle, far, value)
                }
            }
        }
    }
}

// A level in slot i, whose digit on that side is the parts of the node at n.
pub fn refill<R: Copy, M: Measure>(
    arena: &mut Arena<R, M>,
    side: Side,
    i: u16,
    n: u16,
    middle: Tree,
    far: Digit,
) -> Result<Tree, Unsound>
    ensures same { arena.new.slots.ghost_name ≡ arena.old.slots.ghost_name }
    ensures refilled { Refilled M.Item.Weigh.weight M.Measure.means arena.old.slots.now arena.new.slots.now arena.old.free arena.new.free side i n middle far result }
{
    let near = take_node(arena.slots, &mut arena.free, n)?;
    settle::<R, M>(arena.slots, side, i, near, middle, far)
}

// A level in slot i, whose digit on that side may be missing: it then takes a node out of the middle.
pub fn deep<R: Copy, M: Measure>(
    arena: &mut Arena<R, M>,
    fuel: u8,
    side: Side,
    i: u16,
    near: Option<Digit>,
    middle: Tree,
    far: Digit,
) -> Result<Tree, Unsound>
    ensures same { arena.new.slots.ghost_name ≡ arena.old.slots.ghost_name }
    ensures deepened { Deepened M.Item.Weigh.weight M.Measure.means arena.old.slots.now arena.new.slots.now arena.old.free arena.new.free fuel side i near middle far result }
{
    if let Some(digit) = near {
        return settle::<R, M>(arena.slots, side, i, digit, middle, far);
    }
    match middle {
        Tree::Empty => replant(arena, i, far),
        Tree::Single(n) => refill(arena, side, i, n, Tree::Empty, far),
        Tree::Deep(j) => {
            if fuel == 0 {
                return Err(Unsound);
            }
            let level = arena.spine_at(j)?;
            let first = side.pick(level.front, level.back).peel(side);
            let other = side.flip().pick(level.front, level.back);
            let rest = deep(arena, fuel - 1, side, j, first.rest, level.middle, other)?;
            refill(arena, side, i, first.slot, rest, far)
        }
    }
}

// One slot less at that side.
pub fn pop_down<R: Copy, M: Measure>(
    arena: &mut Arena<R, M>,
    fuel: u8,
    side: Side,
    tree: Tree,
) -> Result<Option<Popped>, Unsound>
    ensures same { arena.new.slots.ghost_name ≡ arena.old.slots.ghost_name }
    ensures pops { Pops M.Item.Weigh.weight M.Measure.means arena.old.slots.now arena.new.slots.now arena.old.free arena.new.free fuel side tree result }
{
    match tree {
        Tree::Empty => Ok(None),
        Tree::Single(slot) => Ok(Some(Popped {
            slot,
            rest: Tree::Empty,
        })),
        Tree::Deep(i) => {
            let level = arena.spine_at(i)?;
            let first = side.pick(level.front, level.back).peel(side);
            let other = side.flip().pick(level.front, level.back);
            let rest = deep(arena, fuel, side, i, first.rest, level.middle, other)?;
            Ok(Some(Popped {
                slot: first.slot,
                rest,
            }))
        }
    }
}

// The first slot at that side, and the tree without it.
pub fn pop<R: Copy, M: Measure>(
    slots: &mut [Record<R, M::Value>],
    free: &mut Link,
    side: Side,
    tree: Tree,
) -> Result<Option<Popped>, Unsound>
    ensures { PopsFirst M.Item.Weigh.weight M.Measure.means slots.old slots.new free.old free.new side tree result }
{
    let mut arena: Arena<R, M> = Arena { slots, free: *free };
    let popped = pop_down(&mut arena, LEVELS, side, tree);
    *free = arena.free;
    popped
}
