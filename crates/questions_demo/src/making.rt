// A text made by many small inserts, and beside it the plain bytes that it must have.
use crate::inquiries::Slot;
use measures::longest_line::LongestLine;
use pieces::head::MarkRecord;
use plain::faults::TextFault;
use stores::Store;
use text::Whole;

pub const BEGINNING: &[u8; 64] =
    b"if lock(5) until open[2] # a note\nwait \"a\\\"b\" {x1 + 20} end))\n!\n";

// What is put in, over and over, at offsets far apart.
const PARTS: [&[u8]; 8] = [
    b"(", b"lo", b"ck]", b"\n", b"\"s\" {", b"}", b"12 #", b"end ",
];

const ROOM: usize = 700;

const ROUNDS: u32 = 150;

const MARKS: u32 = 30;

#[derive(Drop)]
pub struct Made {
    bytes: [u8; ROOM],
    length: usize,
}

impl Made {
    pub(crate) fn new() -> Made {
        Made {
            bytes: [0; ROOM],
            length: 0,
        }
    }

    pub(crate) fn bytes(&self) -> &[u8] {
        let length = self.length.min(ROOM);
        &self.bytes[0..length]
    }

    // Makes room at an offset, byte by byte from the back, and puts the part there.
    fn insert(&mut self, at: usize, part: &[u8]) {
        let mut bytes = [0u8; ROOM];
        let count = part.len();
        for i in 0..ROOM {
            if i < at {
                bytes[i] = self.bytes[i];
            } else if i - at < count {
                bytes[i] = part[i - at];
            } else if i >= count {
                bytes[i] = self.bytes[i - count];
            }
        }
        self.bytes = bytes;
        self.length = self.length.saturating_add(count);
    }

    pub(crate) fn put_marks(&self, text: &mut Whole, slots: &[Slot], marks: &mut [MarkRecord]) {
        for i in 0..MARKS {
            let at = (i * 97) % 400;
            let _ = text.mark::<LongestLine>(slots, marks, at, (i % 7) as u16);
        }
    }
}

pub(crate) fn make<S: Store>(
    slots: &mut [Slot],
    marks: &mut [MarkRecord],
    store: &mut S,
    made: &mut Made,
) -> Result<Whole, TextFault> {
    let mut text = Whole::open::<S, LongestLine>(slots, marks, store)?;
    made.insert(0, BEGINNING);
    for round in 0..ROUNDS {
        let part = PARTS[round as usize % 8];
        let at = (round * 37) % (60 + round);
        text.insert::<S, LongestLine>(slots, marks, store, at, part)?;
        made.insert(at as usize, part);
    }
    made.put_marks(&mut text, slots, marks);
    Ok(text)
}
