// What the contract says of two memories, shown of it alone: neither proof looks into the audit.
ghost use Rattle.std.specs.Prelude.{◌≡◌, true};

use crate::marks::AnyMark;
use audit::{AuditFault, audit};
use measures::mark_totals::{MarkRow, MarkTotals};
use slots::records::{Digit, Link, Record, Tree};

// Two trees, of two marks and of one, and a free slot.
pub fn accepts() -> bool
    ensures { result ≡ true }
{
    let slots: [Record<MarkRow, MarkTotals>; 5] = [
        Record::Leaf {
            row: MarkRow { gap: 7, label: 0 },
            value: MarkTotals { gaps: 7, count: 1 },
        },
        Record::Leaf {
            row: MarkRow { gap: 8, label: 0 },
            value: MarkTotals { gaps: 8, count: 1 },
        },
        Record::Level {
            front: Digit::One(0),
            middle: Tree::Empty,
            back: Digit::One(1),
            value: MarkTotals { gaps: 15, count: 2 },
        },
        Record::Leaf {
            row: MarkRow { gap: 9, label: 0 },
            value: MarkTotals { gaps: 9, count: 1 },
        },
        Record::Free(None),
    ];
    let roots = [Tree::Deep(2), Tree::Single(3)];
    let mut scratch: [u8; 7] = [9; 7];
    match audit::<MarkRow, MarkTotals, (), AnyMark>(
        &slots,
        &roots,
        Some(4),
        3,
        &mut scratch,
        &mut (),
    ) {
        Ok(elements) => elements == 3,
        Err(_) => false,
    }
}

// A chain that runs in a circle.
pub fn refuses() -> bool
    ensures { result ≡ true }
{
    let slots: [Record<MarkRow, MarkTotals>; 1] = [Record::Free(Some(0))];
    let roots: [Tree; 0] = [];
    let mut scratch: [u8; 1] = [9; 1];
    match audit::<MarkRow, MarkTotals, (), AnyMark>(
        &slots,
        &roots,
        Some(0),
        3,
        &mut scratch,
        &mut (),
    ) {
        Ok(_) => false,
        Err(AuditFault::ShortScratch) => false,
        Err(AuditFault::Unsound) => true,
    }
}
