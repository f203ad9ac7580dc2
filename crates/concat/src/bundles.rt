// Slots in a row, grouped into nodes of two and three without a buffer.
ghost use Rattle.std.specs.Prelude.{◌≡◌};
ghost use Rattle.concat.specs.Post.{added, FedOne, FedPart, Finished, Bundled};

use measures::Measure;
use slots::arena::Arena;
use slots::records::{Digit, Grown, Side, Unsound};
use tree::build::put_node;

// A row that is being grouped: the nodes made so far, then the slots left.
#[derive(Clone, Copy)]
pub struct Batch {
    pub made: Option<Digit>,
    pub rest: Digit,
}

// One slot more behind up to three.
pub fn append(part: Option<Digit>, x: u16) -> Result<Option<Digit>, Unsound>
    ensures { result ≡ added part x }
{
    match part.map(|digit| digit.grow(Side::Back, x)) {
        None => Ok(Some(Digit::One(x))),
        Some(Grown::Room(more)) => Ok(Some(more)),
        Some(Grown::Over { .. }) => Err(Unsound),
    }
}

// One slot more: where there are four already, the first three leave as a node.
pub fn feed<R: Copy, M: Measure>(
    arena: &mut Arena<R, M>,
    batch: Batch,
    x: u16,
) -> Result<Batch, Unsound>
    ensures same { arena.new.slots.ghost_name ≡ arena.old.slots.ghost_name }
    ensures fed { FedOne M.Item.Weigh.weight M.Measure.means arena.old.slots.now arena.new.slots.now arena.old.free arena.new.free batch x result }
{
    match batch.rest.grow(Side::Back, x) {
        Grown::Room(rest) => Ok(Batch {
            made: batch.made,
            rest,
        }),
        Grown::Over { keep, parts } => {
            let n = put_node(arena, parts)?;
            let made = append(batch.made, n)?;
            Ok(Batch { made, rest: keep })
        }
    }
}

pub fn feed_part<R: Copy, M: Measure>(
    arena: &mut Arena<R, M>,
    batch: Batch,
    part: Option<Digit>,
) -> Result<Batch, Unsound>
    ensures same { arena.new.slots.ghost_name ≡ arena.old.slots.ghost_name }
    ensures fed { FedPart M.Item.Weigh.weight M.Measure.means arena.old.slots.now arena.new.slots.now arena.old.free arena.new.free batch part result }
{
    match part {
        None => Ok(batch),
        Some(digit) => {
            let first = digit.peel(Side::Front);
            let more = feed(arena, batch, first.slot)?;
            feed_part(arena, more, first.rest)
        }
    }
}

// The slots left become one or two nodes.
pub fn finish<R: Copy, M: Measure>(
    arena: &mut Arena<R, M>,
    batch: Batch,
) -> Result<Option<Digit>, Unsound>
    ensures same { arena.new.slots.ghost_name ≡ arena.old.slots.ghost_name }
    ensures finished { Finished M.Item.Weigh.weight M.Measure.means arena.old.slots.now arena.new.slots.now arena.old.free arena.new.free batch result }
{
    match batch.rest {
        Digit::Four(a, b, c, d) => {
            let n = put_node(arena, Digit::Two(a, b))?;
            let made = append(batch.made, n)?;
            let m = put_node(arena, Digit::Two(c, d))?;
            append(made, m)
        }
        rest => {
            let n = put_node(arena, rest)?;
            append(batch.made, n)
        }
    }
}

// The nodes of the back digit of one level, a part, and the front digit of another.
pub fn bundle<R: Copy, M: Measure>(
    arena: &mut Arena<R, M>,
    back: Digit,
    part: Option<Digit>,
    front: Digit,
) -> Result<Option<Digit>, Unsound>
    ensures same { arena.new.slots.ghost_name ≡ arena.old.slots.ghost_name }
    ensures bundled { Bundled M.Item.Weigh.weight M.Measure.means arena.old.slots.now arena.new.slots.now arena.old.free arena.new.free back part front result }
{
    let none = Batch {
        made: None,
        rest: back,
    };
    let some = feed_part(arena, none, part)?;
    let all = feed_part(arena, some, Some(front))?;
    finish(arena, all)
}
