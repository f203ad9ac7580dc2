// What lies in a slot of a lent slice. Any slot number is met with a result.
ghost use Rattle.std.specs.Prelude.{◌≡◌, ◌<◌, ◌≤◌, Err, length, slice_index_or};
ghost use Rattle.slots.specs.Words.{unsound};
ghost use Rattle.slots.specs.Ghost.{none};
ghost use Rattle.slots.specs.Values.{row_in, parts_in, below_in, spine_in, next_in};

use crate::records::{Digit, Link, Record, Spine, Unsound};

// The record at i, or a free one where there is no slot.
pub fn read<R: Copy, V: Copy>(slots: &[Record<R, V>], i: u16) -> Record<R, V>
    ensures { result ≡ slice_index_or slots.now i none }
{
    match slots.get(i as usize) {
        Some(found) => *found,
        None => Record::Free(None),
    }
}

// The slot after a free one.
pub fn next_at<R: Copy, V: Copy>(slots: &[Record<R, V>], i: u16) -> Result<Link, Unsound>
    ensures found { i < length slots.now → result ≡ next_in (slice_index_or slots.now i none) }
    ensures past { length slots.now ≤ i → result ≡ Err unsound }
{
    match slots.get(i as usize) {
        Some(Record::Free(next)) => Ok(*next),
        _ => Err(Unsound),
    }
}

pub fn row_at<R: Copy, V: Copy>(slots: &[Record<R, V>], i: u16) -> Result<R, Unsound>
    ensures { result ≡ row_in (slice_index_or slots.now i none) }
{
    match slots.get(i as usize) {
        Some(Record::Leaf { row, .. }) => Ok(*row),
        _ => Err(Unsound),
    }
}

// The slots below a node.
pub fn parts_at<R: Copy, V: Copy>(slots: &[Record<R, V>], i: u16) -> Result<Digit, Unsound>
    ensures { result ≡ parts_in (slice_index_or slots.now i none) }
{
    match slots.get(i as usize) {
        Some(Record::Node2 { a, b, .. }) => Ok(Digit::Two(*a, *b)),
        Some(Record::Node3 { a, b, c, .. }) => Ok(Digit::Three(*a, *b, *c)),
        _ => Err(Unsound),
    }
}

// Nothing below a leaf, the slots below a node.
pub fn below_at<R: Copy, V: Copy>(slots: &[Record<R, V>], i: u16) -> Result<Option<Digit>, Unsound>
    ensures { result ≡ below_in (slice_index_or slots.now i none) }
{
    match slots.get(i as usize) {
        Some(Record::Leaf { .. }) => Ok(None),
        _ => Ok(Some(parts_at(slots, i)?)),
    }
}

pub fn spine_at<R: Copy, V: Copy>(slots: &[Record<R, V>], i: u16) -> Result<Spine, Unsound>
    ensures { result ≡ spine_in (slice_index_or slots.now i none) }
{
    match slots.get(i as usize) {
        Some(
            Record::Level {
                front,
                middle,
                back,
                ..
            },
        ) => Ok(Spine {
            front: *front,
            middle: *middle,
            back: *back,
        }),
        _ => Err(Unsound),
    }
}
