// Nine letters in two trees: one of two levels, with nodes of two and of three, and one of a single leaf.
// The measure is that of the longest line, which tells the order of letters.
ghost use Rattle.std.specs.Prelude.{◌≡◌, ◌+◌, ◌-◌, ◌^◌, ◌<◌, min, [], ◌∷◌};

use crate::own_source::audit_by;
use audit::AuditFault;
use audit::leaves::LeafCheck;
use measures::Measure;
use measures::longest_line::LongestLine;
use slots::records::{Digit, Link, Record, Tree, Unsound};
use slots::values::{digit_value, level_value};
use std::io;

// Takes letters below 128, and counts its checks: it is its own source.
#[derive(Clone, Copy)]
pub struct Ascii {
    count: u64,
}

impl LeafCheck<u8, LongestLine, Ascii> for Ascii {
    ghost items = { λ _ row. row ∷ [] };

    ghost good = { λ _ row. row < 128 };

    ghost checks = { λ ascii _ ascii'. ascii'.count ≡ min (ascii.count + 1) (2 ^ 64 - 1) };

    fn check(ascii: &mut Ascii, row: u8, value: &LongestLine) -> Result<u64, Unsound> {
        ascii.count = ascii.count.saturating_add(1);
        if row.is_ascii() && LongestLine::same(&LongestLine::one(row), value) {
            Ok(1)
        } else {
            Err(Unsound)
        }
    }
}

#[derive(Clone, Copy)]
struct Memory {
    slots: [Record<u8, LongestLine>; 16],
    roots: [Tree; 2],
    free: Link,
    limit: u16,
}

fn leaf(row: u8) -> Record<u8, LongestLine> {
    Record::Leaf {
        row,
        value: LongestLine::one(row),
    }
}

fn node(slots: &[Record<u8, LongestLine>], parts: Digit) -> Record<u8, LongestLine> {
    digit_value::<u8, LongestLine>(slots, parts)
        .and_then(|value| parts.node(value))
        .unwrap_or(Record::Free(None))
}

fn level(
    slots: &[Record<u8, LongestLine>],
    front: Digit,
    middle: Tree,
    back: Digit,
) -> Record<u8, LongestLine> {
    level_value::<u8, LongestLine>(slots, front, middle, back)
        .map(|value| Record::Level {
            front,
            middle,
            back,
            value,
        })
        .unwrap_or(Record::Free(None))
}

// "ab", then a node of a line feed, "c" and "d", then one of a line feed and "e", then "f"; and "g" by itself.
fn sound() -> Memory {
    let mut slots: [Record<u8, LongestLine>; 16] = [Record::Free(None); 16];
    slots[1] = leaf(b'a');
    slots[2] = leaf(b'b');
    slots[4] = leaf(b'\n');
    slots[5] = leaf(b'c');
    slots[6] = leaf(b'd');
    slots[7] = leaf(b'f');
    slots[8] = leaf(b'g');
    slots[14] = leaf(b'\n');
    slots[15] = leaf(b'e');
    slots[3] = node(&slots, Digit::Three(4, 5, 6));
    slots[13] = node(&slots, Digit::Two(14, 15));
    slots[12] = level(&slots, Digit::One(3), Tree::Empty, Digit::One(13));
    slots[0] = level(&slots, Digit::Two(1, 2), Tree::Deep(12), Digit::One(7));
    slots[9] = Record::Free(Some(10));
    slots[10] = Record::Free(Some(11));
    Memory {
        slots,
        roots: [Tree::Deep(0), Tree::Single(8)],
        free: Some(9),
        limit: 9,
    }
}

fn audit_memory(memory: &Memory, scratch: &mut [u8], ascii: &mut Ascii) -> Result<u16, AuditFault> {
    audit_by::<u8, LongestLine, Ascii>(
        &memory.slots,
        &memory.roots,
        memory.free,
        memory.limit,
        scratch,
        ascii,
    )
}

// What the audit says, and of a scratch of 20 bytes how many it left zero and how many as they were.
fn judge(rt: &HostRuntime, name: &str, memory: &Memory) -> io::Result<()> {
    let mut scratch: [u8; 20] = [7; 20];
    let mut ascii = Ascii { count: 0 };
    let verdict = audit_memory(memory, &mut scratch, &mut ascii);
    let zero = scratch.iter().filter(|byte| **byte == 0).count();
    let kept = scratch.iter().filter(|byte| **byte == 7).count();
    let checks = ascii.count;
    match verdict {
        Ok(elements) => println!(rt;
            "{name}: sound, {elements} elements, {checks} checks, scratch {zero} + {kept}"
        ),
        Err(AuditFault::Unsound) => println!(rt; "{name}: unsound, scratch {zero} + {kept}"),
        Err(AuditFault::ShortScratch) => println!(rt; "{name}: too little scratch"),
    }
}

fn changed(i: usize, record: Record<u8, LongestLine>) -> Memory {
    let mut memory = sound();
    if let Some(slot) = memory.slots.get_mut(i) {
        *slot = record;
    }
    memory
}

pub(crate) fn tell(rt: &HostRuntime) -> io::Result<()> {
    judge(rt, "nine letters", &sound())?;
    chains(rt)?;
    trees(rt)?;
    values(rt)?;
    sweep(rt)
}

fn chains(rt: &HostRuntime) -> io::Result<()> {
    judge(rt, "a lost slot", &changed(10, Record::Free(None)))?;
    judge(
        rt,
        "a chain with a loop",
        &changed(11, Record::Free(Some(9))),
    )?;
    judge(
        rt,
        "a chain into a tree",
        &changed(11, Record::Free(Some(1))),
    )?;
    judge(
        rt,
        "a chain past the end",
        &changed(11, Record::Free(Some(16))),
    )
}

fn trees(rt: &HostRuntime) -> io::Result<()> {
    let slots = sound().slots;
    let again = level(&slots, Digit::Three(1, 2, 2), Tree::Deep(12), Digit::One(7));
    let mut twice = changed(0, again);
    twice.limit = 10;
    judge(rt, "a slot named twice", &twice)?;
    if let Ok(value) = digit_value::<u8, LongestLine>(&slots, Digit::Two(3, 13)) {
        let outside = Record::Level {
            front: Digit::One(3),
            middle: Tree::Single(16),
            back: Digit::One(13),
            value,
        };
        judge(rt, "a tree past the end", &changed(12, outside))?;
    }
    let mut mixed = sound();
    mixed.slots[12] = level(&slots, Digit::One(3), Tree::Empty, Digit::One(7));
    let inner = mixed.slots;
    mixed.slots[0] = level(&inner, Digit::Two(1, 2), Tree::Deep(12), Digit::One(13));
    judge(rt, "a leaf among nodes, a node among leaves", &mixed)?;
    let mut freed = sound();
    freed.roots[1] = Tree::Single(9);
    judge(rt, "a tree into the chain", &freed)?;
    let mut empty = sound();
    empty.roots[1] = Tree::Empty;
    judge(rt, "a tree forgotten", &empty)?;
    let mut full = sound();
    full.limit = 8;
    judge(rt, "one element too many", &full)
}

fn values(rt: &HostRuntime) -> io::Result<()> {
    let slots = sound().slots;
    let value = LongestLine::one(b'c');
    let wrong = Record::Node3 {
        a: 4,
        b: 5,
        c: 6,
        value,
    };
    judge(rt, "a wrong value of a node", &changed(3, wrong))?;
    let lone = Record::Leaf { row: b'\n', value };
    judge(rt, "a wrong value of a leaf", &changed(4, lone))?;
    judge(rt, "a row that is not good", &changed(5, leaf(200)))?;
    if let Ok(value) = digit_value::<u8, LongestLine>(&slots, Digit::Two(14, 15)) {
        let swapped = Record::Node2 {
            a: 15,
            b: 14,
            value,
        };
        judge(rt, "two letters in the other order", &changed(13, swapped))?;
    }
    Ok(())
}

fn is_unsound(i: usize, record: Record<u8, LongestLine>) -> bool {
    let mut scratch: [u8; 16] = [7; 16];
    audit_memory(&changed(i, record), &mut scratch, &mut Ascii { count: 0 }).is_err()
}

// Each slot overwritten in four ways. Eight stay sound: the last of the chain is free already, and seven leaves may as well
// be a "z", since the measure tells letters from line feeds only.
fn sweep(rt: &HostRuntime) -> io::Result<()> {
    let slots = sound().slots;
    let records = [
        Record::Free(None),
        leaf(b'z'),
        node(&slots, Digit::Two(1, 2)),
        level(&slots, Digit::One(1), Tree::Empty, Digit::One(2)),
    ];
    let mut unsound: u8 = 0;
    for i in 0..slots.len() {
        for record in records {
            if is_unsound(i, record) {
                unsound = unsound.saturating_add(1);
            }
        }
    }
    println!(rt; "of 64 overwritten slots {unsound} make it unsound")
}
