// Every question at every offset of one text, twice: made by edits of many small pieces, and opened from its bytes in pieces of
// 256. The checksums of the answers must be the same; beside them, the most bytes that one question read.
#![tactic(auto)]

use inquiries::{Asked, Slot, ask_all};
use making::{Made, make};
use measures::longest_line::LongestLine;
use pieces::head::MarkRecord;
use slots::records::{Link, Record};
use std::io;
use stores::Store;
use stores::buffer::Buffer;
use stores::joined::join;
use stores::original::Original;
use tallies::Tally;
use text::Whole;

mod inquiries;
mod making;
mod tallies;

fn tell(rt: &HostRuntime, name: &str, tally: Tally) -> io::Result<()> {
    println!(rt;
        "  {name}: {} asked, checksum {:016x}, at most {} bytes read",
        tally.asked, tally.sum, tally.most
    )
}

fn tell_all(rt: &HostRuntime, asked: Asked) -> io::Result<()> {
    tell(rt, "line of p", asked.line_of)?;
    tell(rt, "start of line k", asked.start_of)?;
    tell(rt, "token at p", asked.token_at)?;
    tell(rt, "token k", asked.token_number)?;
    tell(rt, "bracket at p", asked.bracket_at)?;
    tell(rt, "first mark from q", asked.mark_from)?;
    tell(rt, "range a to b", asked.range)?;
    tell(rt, "whole", asked.whole)
}

// The text by edits, with marks; what its bytes are goes to `made`.
fn in_small_pieces(
    rt: &HostRuntime,
    slots: &mut [Slot],
    marks: &mut [MarkRecord],
    space: &mut [u8],
    made: &mut Made,
) -> io::Result<()> {
    match join(Original::new(making::BEGINNING), Buffer::new(space)) {
        Ok(mut store) => match make(slots, marks, &mut store, made) {
            Ok(text) => tell_all(rt, ask_all(text.view(), slots, marks, &mut store)),
            Err(fault) => println!(rt; "refused: {}", fault.number()),
        },
        Err(_) => println!(rt; "not joined"),
    }
}

// The same bytes as one original, and the same marks.
fn in_large_pieces(
    rt: &HostRuntime,
    slots: &mut [Slot],
    marks: &mut [MarkRecord],
    made: &Made,
) -> io::Result<()> {
    let mut store = Original::new(made.bytes());
    match Whole::open::<Original, LongestLine>(slots, marks, &mut store) {
        Ok(mut text) => {
            made.put_marks(&mut text, slots, marks);
            tell_all(rt, ask_all(text.view(), slots, marks, &mut store))
        }
        Err(fault) => println!(rt; "refused: {}", fault.number()),
    }
}

fn main(rt: HostRuntime) -> anyhow::Result<()> {
    let heap = rt.alloc();
    let mut slots = vec![in heap; Record::Free(None); 1000]?;
    let mut marks = vec![in heap; Record::Free(None); 200]?;
    let mut space = vec![in heap; 0u8; 1024]?;
    let mut made = Made::new();
    println!(rt; "in small pieces:")?;
    in_small_pieces(
        &rt,
        slots.as_mut_slice(),
        marks.as_mut_slice(),
        space.as_mut_slice(),
        &mut made,
    )?;
    println!(rt; "in pieces of 256:")?;
    in_large_pieces(&rt, slots.as_mut_slice(), marks.as_mut_slice(), &made)?;
    Ok(())
}
