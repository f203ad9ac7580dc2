// What is asked before an edit, in order. A refusal comes before anything is touched, and no byte is read.
ghost use Rattle.std.specs.Prelude.{◌≡◌, length};
ghost use Rattle.pieces.specs.Asked.{result_of};
ghost use Rattle.plain.specs.Lists.{first_no};
ghost use Rattle.edits.specs.Doors.{insert_asked, paste_asked, cut_asked, delete_asked, mark_asked, SizeTold, HalvesTold, SpotTold, both_inside_of, OneTold, DoorTold, insert_door_of, paste_door_of, cut_door_of, delete_door_of};

use crate::edges::{Edge, edge_at};
use measures::Measure;
use pieces::head::{TextMeasure, TextRecord};
use pieces::limits::limit;
use pieces::rows::PieceRow;
use plain::faults::TextFault;
use slots::records::{Tree, Unsound};
use slots::values::tree_value;

// How many bytes the text has.
pub fn size_of<A: Measure<Item = u8>>(
    slots: &[TextRecord<A::Value>],
    text: Tree,
) -> Result<u32, Unsound>
    ensures { SizeTold A.Measure.means slots.now text result }
{
    let all = tree_value::<PieceRow, TextMeasure<A>>(slots, text)?;
    Ok(all.left.left.bytes)
}

// Whether the offset is strictly inside a piece, which an edit there halves.
pub fn halves<A: Measure<Item = u8>>(
    slots: &[TextRecord<A::Value>],
    text: Tree,
    p: u32,
) -> Result<bool, Unsound>
    ensures { HalvesTold A.Measure.means slots.now text p result }
{
    let edge = edge_at::<A>(slots, text, p)?;
    Ok(edge.is_some_and(|edge| edge.start < p))
}

pub fn decide_insert(
    count: usize,
    at: u32,
    size: u32,
    all: u32,
    most: u32,
) -> Result<u32, TextFault>
    ensures { result ≡ result_of (first_no (insert_asked count at size all most)) all }
{
    if !(1..=256).contains(&count) {
        return Err(TextFault::Length);
    }
    decide_paste(at, size, all, most)
}

pub fn decide_paste(at: u32, size: u32, all: u32, most: u32) -> Result<u32, TextFault>
    ensures { result ≡ result_of (first_no (paste_asked at size all most)) all }
{
    if at > size {
        return Err(TextFault::Offset);
    }
    if all > most {
        return Err(TextFault::Pieces);
    }
    Ok(all)
}

pub fn decide_cut(from: u32, to: u32, size: u32, all: u32, most: u32) -> Result<u32, TextFault>
    ensures { result ≡ result_of (first_no (cut_asked from to size all most)) all }
{
    if from >= to {
        return Err(TextFault::Offset);
    }
    decide_paste(to, size, all, most)
}

pub fn decide_mark(at: u32, size: u32, count: u32, most: u32) -> Result<(), TextFault>
    ensures { result ≡ result_of (first_no (mark_asked at size count most)) tt }
{
    if at > size {
        return Err(TextFault::Offset);
    }
    if count >= most {
        return Err(TextFault::Marks);
    }
    Ok(())
}

pub fn decide_delete(
    from: u32,
    to: u32,
    size: u32,
    one: bool,
    pieces: u32,
    most: u32,
) -> Result<(), TextFault>
    ensures { result ≡ result_of (first_no (delete_asked from to size one pieces most)) tt }
{
    if from >= to || to > size {
        return Err(TextFault::Offset);
    }
    if one && pieces >= most {
        return Err(TextFault::Pieces);
    }
    Ok(())
}

// The size of the text, and whether an edit at an offset halves a piece.
#[derive(Clone, Copy)]
pub struct Spot {
    pub size: u32,
    pub halves: bool,
}

pub fn spot_at<A: Measure<Item = u8>>(
    slots: &[TextRecord<A::Value>],
    text: Tree,
    p: u32,
) -> Result<Spot, TextFault>
    ensures { SpotTold A.Measure.means slots.now text p result }
{
    Ok(Spot {
        size: size_of::<A>(slots, text)?,
        halves: halves::<A>(slots, text, p)?,
    })
}

fn both_inside(first: Option<Edge>, second: Option<Edge>, from: u32) -> bool
    ensures { result ≡ both_inside_of first second from }
{
    match (first, second) {
        (Some(a), Some(b)) => a.start < from && a.start == b.start,
        _ => false,
    }
}

// Whether both offsets are strictly inside one piece, the first being the lesser and inside the text.
pub fn in_one_piece<A: Measure<Item = u8>>(
    slots: &[TextRecord<A::Value>],
    text: Tree,
    from: u32,
    to: u32,
) -> Result<bool, TextFault>
    ensures { OneTold A.Measure.means slots.now text from to result }
{
    let first = edge_at::<A>(slots, text, from)?;
    let second = edge_at::<A>(slots, text, to)?;
    Ok(both_inside(first, second, from))
}

// How many pieces there are after an insert of so many bytes.
pub fn insert_door<A: Measure<Item = u8>>(
    slots: &[TextRecord<A::Value>],
    text: Tree,
    pieces: u32,
    at: u32,
    count: usize,
) -> Result<u32, TextFault>
    ensures { DoorTold A.Measure.means slots.now text pieces (insert_door_of count at (length slots.now)) result }
{
    let spot = spot_at::<A>(slots, text, at)?;
    let all = pieces
        .saturating_add(u32::from(spot.halves))
        .saturating_add(1);
    decide_insert(count, at, spot.size, all, limit(slots.len()))
}

pub fn paste_door<A: Measure<Item = u8>>(
    slots: &[TextRecord<A::Value>],
    text: Tree,
    pieces: u32,
    at: u32,
) -> Result<u32, TextFault>
    ensures { DoorTold A.Measure.means slots.now text pieces (paste_door_of at (length slots.now)) result }
{
    let spot = spot_at::<A>(slots, text, at)?;
    let all = pieces.saturating_add(u32::from(spot.halves));
    decide_paste(at, spot.size, all, limit(slots.len()))
}

pub fn cut_door<A: Measure<Item = u8>>(
    slots: &[TextRecord<A::Value>],
    text: Tree,
    pieces: u32,
    from: u32,
    to: u32,
) -> Result<u32, TextFault>
    ensures { DoorTold A.Measure.means slots.now text pieces (cut_door_of from to (length slots.now)) result }
{
    let first = spot_at::<A>(slots, text, from)?;
    let second = spot_at::<A>(slots, text, to)?;
    let all = pieces
        .saturating_add(u32::from(first.halves))
        .saturating_add(u32::from(second.halves));
    decide_cut(from, to, first.size, all, limit(slots.len()))
}

pub fn delete_door<A: Measure<Item = u8>>(
    slots: &[TextRecord<A::Value>],
    text: Tree,
    pieces: u32,
    from: u32,
    to: u32,
) -> Result<(), TextFault>
    ensures { DoorTold A.Measure.means slots.now text pieces (delete_door_of from to (length slots.now)) result }
{
    let spot = spot_at::<A>(slots, text, to)?;
    let one = in_one_piece::<A>(slots, text, from, to)?;
    decide_delete(from, to, spot.size, one, pieces, limit(slots.len()))
}
