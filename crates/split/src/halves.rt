// Two trees out of what is left of a level.
ghost use Rattle.std.specs.Prelude.{◌≡◌};
ghost use Rattle.split.specs.Post.{halves, Edged, Rejoined};

use measures::Measure;
use seek::digits::Cut;
use slots::arena::Arena;
use slots::records::{Link, Record, Side, Spine, Tree, Unsound};
use tree::build::plant;
use tree::ends::deep;

// Two trees and the slot between them.
#[derive(Clone, Copy)]
pub struct Halves {
    pub left: Tree,
    pub at: u16,
    pub right: Tree,
}

impl Halves {
    // The outer tree is the one at that side.
    pub fn new(side: Side, outer: Tree, at: u16, inner: Tree) -> Self
        ensures { result ≡ halves side outer at inner }
    {
        Halves {
            left: side.pick(outer, inner),
            at,
            right: side.pick(inner, outer),
        }
    }
}

// In an arena, so that its first free slot is handed back on refusal too.
fn edge_in<R: Copy, M: Measure>(
    arena: &mut Arena<R, M>,
    fuel: u8,
    side: Side,
    i: u16,
    level: Spine,
    cut: Cut,
) -> Result<Option<Halves>, Unsound>
    ensures same { arena.new.slots.ghost_name ≡ arena.old.slots.ghost_name }
    ensures edged { Edged M.Item.Weigh.weight M.Measure.means arena.old.slots.now arena.new.slots.now arena.old.free arena.new.free fuel side i level cut result }
{
    let far = side.pick(level.back, level.front);
    let near = side.flip().pick(cut.left, cut.right);
    let inner = deep(arena, fuel, side, i, near, level.middle, far)?;
    let outer = plant(arena, side.pick(cut.left, cut.right))?;
    Ok(Some(Halves::new(side, outer, cut.at, inner)))
}

// From a level in slot i whose digit at that side is cut: the outer part is a tree of its own, the inner one keeps the
// level.
pub fn edge<R: Copy, M: Measure>(
    slots: &mut [Record<R, M::Value>],
    free: &mut Link,
    fuel: u8,
    side: Side,
    i: u16,
    level: Spine,
    cut: Cut,
) -> Result<Option<Halves>, Unsound>
    ensures { Edged M.Item.Weigh.weight M.Measure.means slots.old slots.new free.old free.new fuel side i level cut result }
{
    let mut arena: Arena<R, M> = Arena { slots, free: *free };
    let made = edge_in(&mut arena, fuel, side, i, level, cut);
    *free = arena.free;
    made
}

// In an arena, as `edge_in`.
fn rejoin_in<R: Copy, M: Measure>(
    arena: &mut Arena<R, M>,
    fuel: u8,
    i: u16,
    level: Spine,
    middle: Halves,
    cut: Cut,
) -> Result<Option<Halves>, Unsound>
    ensures same { arena.new.slots.ghost_name ≡ arena.old.slots.ghost_name }
    ensures rejoined { Rejoined M.Item.Weigh.weight M.Measure.means arena.old.slots.now arena.new.slots.now arena.old.free arena.new.free fuel i level middle cut result }
{
    let left = deep(
        arena,
        fuel,
        Side::Back,
        i,
        cut.left,
        middle.left,
        level.front,
    )?;
    let j = arena.take()?;
    let right = deep(
        arena,
        fuel,
        Side::Front,
        j,
        cut.right,
        middle.right,
        level.back,
    )?;
    Ok(Some(Halves {
        left,
        at: cut.at,
        right,
    }))
}

// From a level in slot i whose middle is in halves, and the node between them is cut.
pub fn rejoin<R: Copy, M: Measure>(
    slots: &mut [Record<R, M::Value>],
    free: &mut Link,
    fuel: u8,
    i: u16,
    level: Spine,
    middle: Halves,
    cut: Cut,
) -> Result<Option<Halves>, Unsound>
    ensures { Rejoined M.Item.Weigh.weight M.Measure.means slots.old slots.new free.old free.new fuel i level middle cut result }
{
    let mut arena: Arena<R, M> = Arena { slots, free: *free };
    let made = rejoin_in(&mut arena, fuel, i, level, middle, cut);
    *free = arena.free;
    made
}
