// What can be seen of a text and its memory.
use measures::Measure;
use measures::longest_line::LongestLine;
use pieces::head::{MarkRecord, TextRecord};
use plain::faults::TextFault;
use slots::records::Record;
use std::io;
use stores::Store;
use text::view::View;

pub type Slot = TextRecord<LongestLine>;

#[derive(Clone, Copy)]
pub struct Look {
    pub done: Result<(), TextFault>,
    pub bytes: u32,
    pub pieces: usize,
    pub marks: usize,
    pub slots: usize,
    pub mark_slots: usize,
    pub sound: bool,
}

fn leaves<R: Copy, V: Copy>(slots: &[Record<R, V>]) -> usize {
    slots
        .iter()
        .filter(|slot| matches!(slot, Record::Leaf { .. }))
        .count()
}

fn used<R: Copy, V: Copy>(slots: &[Record<R, V>]) -> usize {
    slots
        .iter()
        .filter(|slot| !matches!(slot, Record::Free(_)))
        .count()
}

pub(crate) fn look_at<S: Store>(
    view: View,
    slots: &[Slot],
    marks: &[MarkRecord],
    store: &mut S,
    done: Result<(), TextFault>,
) -> Look {
    let mut scratch = [0xA5u8; 168];
    let audit = view.audit::<S, LongestLine>(slots, marks, store, &mut scratch);
    let bytes = match view.whole::<LongestLine>(slots) {
        Ok(summary) => summary.bytes,
        Err(_) => 0,
    };
    Look {
        done,
        bytes,
        pieces: leaves(slots),
        marks: leaves(marks),
        slots: used(slots),
        mark_slots: used(marks),
        sound: audit.is_ok(),
    }
}

pub(crate) fn tell(rt: &HostRuntime, seen: Look) -> io::Result<()> {
    match seen.done {
        Ok(()) => print!(rt; "ok: ")?,
        Err(fault) => print!(rt; "refused {}: ", fault.number())?,
    }
    let sound = if seen.sound { "sound" } else { "unsound" };
    println!(rt;
        "{} bytes, {} pieces, {} marks, {} and {} slots in use, {sound}",
        seen.bytes, seen.pieces, seen.marks, seen.slots, seen.mark_slots
    )
}
