// All slots of a tree go back to the chain, and its leaves are counted.
#![tactic(auto)]

ghost use Rattle.std.specs.Prelude.{◌≡◌};
ghost use Rattle.release.specs.Post.{counted, PartReleased, TreeReleased, Released};

use slots::arena::give_slot;
use slots::reading::{below_at, spine_at};
use slots::records::{Digit, LEVELS, Link, Record, Side, Tree, Unsound};

// How many leaves a twig has, those below it being counted: it is one where nothing lies below.
pub fn leaves(below: Option<Digit>, under: u32) -> u32
    ensures { result ≡ counted below under }
{
    below.map_or(1, |_| under)
}

// Gives back the slots of up to four twigs, which are less than fuel high, and tells how many leaves they had; the count stops at
// the largest u32.
// A slot is read only to be freed, and a free one ends it all: whatever memory holds, no slot is freed twice.
pub fn release_part<R: Copy, V: Copy>(
    slots: &mut [Record<R, V>],
    free: &mut Link,
    fuel: u8,
    part: Option<Digit>,
) -> Result<u32, Unsound>
    ensures { PartReleased slots.old slots.new free.old free.new fuel part result }
{
    let Some(digit) = part else {
        return Ok(0);
    };
    if fuel == 0 {
        return Err(Unsound);
    }
    let first = digit.peel(Side::Front);
    let below = below_at(slots, first.slot)?;
    give_slot(slots, free, first.slot)?;
    let under = release_part(slots, free, fuel - 1, below)?;
    let others = release_part(slots, free, fuel, first.rest)?;
    Ok(leaves(below, under).saturating_add(others))
}

pub fn release_down<R: Copy, V: Copy>(
    slots: &mut [Record<R, V>],
    free: &mut Link,
    fuel: u8,
    tree: Tree,
) -> Result<u32, Unsound>
    ensures { TreeReleased slots.old slots.new free.old free.new fuel tree result }
{
    match tree {
        Tree::Empty => Ok(0),
        Tree::Single(i) => release_part(slots, free, LEVELS, Some(Digit::One(i))),
        Tree::Deep(i) => {
            if fuel == 0 {
                return Err(Unsound);
            }
            let level = spine_at(slots, i)?;
            give_slot(slots, free, i)?;
            let front = release_part(slots, free, LEVELS, Some(level.front))?;
            let middle = release_down(slots, free, fuel - 1, level.middle)?;
            let back = release_part(slots, free, LEVELS, Some(level.back))?;
            Ok(front.saturating_add(middle).saturating_add(back))
        }
    }
}

pub fn release<R: Copy, V: Copy>(
    slots: &mut [Record<R, V>],
    free: &mut Link,
    tree: Tree,
) -> Result<u32, Unsound>
    ensures { Released slots.old slots.new free.old free.new tree result }
{
    release_down(slots, free, LEVELS, tree)
}
