// A fixed list of edits on 168 slots in each slice, over an original joined before a buffer; after each, what the text and its
// memory have come to.
#![tactic(auto)]

use looking::Slot;
use measures::longest_line::LongestLine;
use pieces::head::MarkRecord;
use slots::records::{Link, Record};
use std::io;
use steps::{cut_and_paste, delete, fill_pieces, fill_store, insert, mark};
use stores::Store;
use stores::buffer::Buffer;
use stores::joined::join;
use stores::original::Original;
use text::Whole;

mod looking;
mod steps;

const SLOTS: usize = 168;

const ORIGINAL: &[u8; 47] = b"if lock(5) until open[2] # a note\nwait \"x\" end\n";

fn edit<S: Store>(
    rt: &HostRuntime,
    mut text: Whole,
    slots: &mut [Slot],
    marks: &mut [MarkRecord],
    store: &mut S,
) -> io::Result<Whole> {
    insert(rt, &mut text, slots, marks, store, 8, b"1")?;
    insert(rt, &mut text, slots, marks, store, 8, b"")?;
    insert(rt, &mut text, slots, marks, store, 49, b"!")?;
    mark(rt, &mut text, slots, marks, store, 8, 7)?;
    mark(rt, &mut text, slots, marks, store, 30, 9)?;
    mark(rt, &mut text, slots, marks, store, 49, 1)?;
    insert(rt, &mut text, slots, marks, store, 8, b"20 + ")?;
    delete(rt, &mut text, slots, marks, store, 16, 40)?;
    delete(rt, &mut text, slots, marks, store, 5, 5)?;
    Ok(text)
}

fn cut<S: Store>(
    rt: &HostRuntime,
    text: Whole,
    slots: &mut [Slot],
    marks: &mut [MarkRecord],
    store: &mut S,
) -> io::Result<Whole> {
    let text = cut_and_paste(rt, text, slots, marks, store, 3, 12, 0)?;
    let text = cut_and_paste(rt, text, slots, marks, store, 0, 5, 24)?;
    let text = cut_and_paste(rt, text, slots, marks, store, 1, 2, 1000)?;
    cut_and_paste(rt, text, slots, marks, store, 20, 40, 0)
}

fn exercise<S: Store>(
    rt: &HostRuntime,
    slots: &mut [Slot],
    marks: &mut [MarkRecord],
    store: &mut S,
) -> io::Result<()> {
    match Whole::open::<S, LongestLine>(slots, marks, store) {
        Ok(text) => {
            let text = edit(rt, text, slots, marks, store)?;
            let text = cut(rt, text, slots, marks, store)?;
            let text = fill_pieces(rt, text, slots, marks, store)?;
            let mut text = fill_store(rt, text, slots, marks, store)?;
            delete(rt, &mut text, slots, marks, store, 0, 100)
        }
        Err(fault) => println!(rt; "not opened: {}", fault.number()),
    }
}

fn main(rt: HostRuntime) -> anyhow::Result<()> {
    let heap = rt.alloc();
    let mut slots = vec![in heap; Record::Free(None); SLOTS]?;
    let mut marks = vec![in heap; Record::Free(None); SLOTS]?;
    let mut space = vec![in heap; 0u8; 1024]?;
    let original = Original::new(ORIGINAL);
    let buffer = Buffer::new(space.as_mut_slice());
    match join(original, buffer) {
        Ok(mut store) => exercise(&rt, slots.as_mut_slice(), marks.as_mut_slice(), &mut store)?,
        Err(_) => println!(rt; "not joined")?,
    }
    Ok(())
}
