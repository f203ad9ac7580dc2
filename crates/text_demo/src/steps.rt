// The edits, each told with how many bytes it read and what it left.
use crate::looking::{Look, Slot, look_at, tell};
use measures::longest_line::LongestLine;
use pieces::head::MarkRecord;
use std::io;
use stores::Store;
use text::{Held, Refused, Whole};

pub(crate) fn insert<S: Store>(
    rt: &HostRuntime,
    text: &mut Whole,
    slots: &mut [Slot],
    marks: &mut [MarkRecord],
    store: &mut S,
    at: u32,
    bytes: &[u8],
) -> io::Result<()> {
    let before = store.count();
    let done = text.insert::<S, LongestLine>(slots, marks, store, at, bytes);
    let reads = store.count().saturating_sub(before);
    print!(rt; "insert {} at {at}, {reads} read, ", bytes.len())?;
    tell(rt, look_at(text.view(), slots, marks, store, done))
}

pub(crate) fn delete<S: Store>(
    rt: &HostRuntime,
    text: &mut Whole,
    slots: &mut [Slot],
    marks: &mut [MarkRecord],
    store: &mut S,
    from: u32,
    to: u32,
) -> io::Result<()> {
    let before = store.count();
    let done = text.delete::<S, LongestLine>(slots, marks, store, from, to);
    let reads = store.count().saturating_sub(before);
    print!(rt; "delete {from} to {to}, {reads} read, ")?;
    tell(rt, look_at(text.view(), slots, marks, store, done))
}

pub(crate) fn mark<S: Store>(
    rt: &HostRuntime,
    text: &mut Whole,
    slots: &[Slot],
    marks: &mut [MarkRecord],
    store: &mut S,
    at: u32,
    label: u16,
) -> io::Result<()> {
    let done = text.mark::<LongestLine>(slots, marks, at, label);
    print!(rt; "mark {at} with {label}, ")?;
    tell(rt, look_at(text.view(), slots, marks, store, done))
}

// A refused paste hands the held text back, and then what was cut is discarded.
fn paste_or_discard<S: Store>(
    held: Held,
    slots: &mut [Slot],
    marks: &mut [MarkRecord],
    store: &mut S,
    at: u32,
) -> (Whole, Look) {
    match held.paste::<S, LongestLine>(slots, marks, store, at) {
        Ok(whole) => {
            let seen = look_at(whole.view(), slots, marks, store, Ok(()));
            (whole, seen)
        }
        Err(Refused { text, fault }) => {
            let whole = text.discard::<LongestLine>(slots);
            let seen = look_at(whole.view(), slots, marks, store, Err(fault));
            (whole, seen)
        }
    }
}

pub(crate) fn cut_and_paste<S: Store>(
    rt: &HostRuntime,
    text: Whole,
    slots: &mut [Slot],
    marks: &mut [MarkRecord],
    store: &mut S,
    from: u32,
    to: u32,
    at: u32,
) -> io::Result<Whole> {
    let before = store.count();
    match text.cut::<S, LongestLine>(slots, marks, store, from, to) {
        Ok(held) => {
            let reads = store.count().saturating_sub(before);
            let seen = look_at(held.view(), slots, marks, store, Ok(()));
            let (text, after) = paste_or_discard(held, slots, marks, store, at);
            print!(rt; "cut {from} to {to}, {reads} read, ")?;
            tell(rt, seen)?;
            print!(rt; "paste at {at}, ")?;
            tell(rt, after)?;
            Ok(text)
        }
        Err(Refused { text, fault }) => {
            print!(rt; "cut {from} to {to}, ")?;
            tell(rt, look_at(text.view(), slots, marks, store, Err(fault)))?;
            Ok(text)
        }
    }
}

// Single bytes at offset 1 until the limit of pieces is met.
pub(crate) fn fill_pieces<S: Store>(
    rt: &HostRuntime,
    mut text: Whole,
    slots: &mut [Slot],
    marks: &mut [MarkRecord],
    store: &mut S,
) -> io::Result<Whole> {
    for _ in 0..40 {
        match text.insert::<S, LongestLine>(slots, marks, store, 1, b"+") {
            Ok(()) => {}
            Err(fault) => {
                print!(rt; "bytes at 1 until refused, ")?;
                tell(rt, look_at(text.view(), slots, marks, store, Err(fault)))?;
                return Ok(text);
            }
        }
    }
    Ok(text)
}

// Room for pieces is made by a delete, and the store filled until it has no room.
pub(crate) fn fill_store<S: Store>(
    rt: &HostRuntime,
    mut text: Whole,
    slots: &mut [Slot],
    marks: &mut [MarkRecord],
    store: &mut S,
) -> io::Result<Whole> {
    delete(rt, &mut text, slots, marks, store, 2, 12)?;
    let bytes = [0x2Eu8; 256];
    for _ in 0..8 {
        match text.insert::<S, LongestLine>(slots, marks, store, 0, &bytes) {
            Ok(()) => {}
            Err(fault) => {
                print!(rt; "256 bytes at 0 until refused, ")?;
                tell(rt, look_at(text.view(), slots, marks, store, Err(fault)))?;
                return Ok(text);
            }
        }
    }
    Ok(text)
}
