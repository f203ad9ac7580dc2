// Two marks in one tree, light and heavy: the audit counts weight before it relies on a sum of gaps.
ghost use Rattle.std.specs.Prelude.{◌≡◌, [], ◌∷◌};

use audit::leaves::LeafCheck;
use audit::{AuditFault, audit};
use measures::Measure;
use measures::mark_totals::{MarkRow, MarkTotals};
use slots::records::{Digit, Link, Record, Tree, Unsound};
use std::io;

// Takes every mark.
#[derive(Clone, Copy)]
pub struct AnyMark;

impl LeafCheck<MarkRow, MarkTotals, ()> for AnyMark {
    ghost items = { λ _ row. row ∷ [] };

    ghost good = { λ _ _. Unit {0} };

    ghost checks = { λ s _ s'. s' ≡ s };

    fn check(_: &mut (), row: MarkRow, value: &MarkTotals) -> Result<u64, Unsound> {
        if MarkTotals::same(&MarkTotals::one(row), value) {
            Ok(u64::from(row.gap) + 1)
        } else {
            Err(Unsound)
        }
    }
}

fn leaf(gap: u32) -> Record<MarkRow, MarkTotals> {
    let row = MarkRow { gap, label: 0 };
    Record::Leaf {
        row,
        value: MarkTotals::one(row),
    }
}

fn judge(rt: &HostRuntime, first: u32, second: u32) -> io::Result<()> {
    let value = MarkTotals {
        gaps: first.saturating_add(second),
        count: 2,
    };
    let root = Record::Level {
        front: Digit::One(0),
        middle: Tree::Empty,
        back: Digit::One(1),
        value,
    };
    let slots = [leaf(first), leaf(second), root];
    let roots = [Tree::Deep(2)];
    let mut scratch: [u8; 3] = [7; 3];
    match audit::<MarkRow, MarkTotals, (), AnyMark>(
        &slots,
        &roots,
        None,
        2,
        &mut scratch,
        &mut (),
    ) {
        Ok(elements) => println!(rt; "gaps {first} and {second}: sound, {elements} elements"),
        Err(AuditFault::Unsound) => println!(rt; "gaps {first} and {second}: unsound"),
        Err(AuditFault::ShortScratch) => println!(rt;
            "gaps {first} and {second}: too little scratch"
        ),
    }
}

// One scratch byte fewer than slots.
fn judge_short(rt: &HostRuntime) -> io::Result<()> {
    let slots = [leaf(1), leaf(2), leaf(3)];
    let roots: [Tree; 0] = [];
    let mut scratch: [u8; 2] = [7; 2];
    let verdict = audit::<MarkRow, MarkTotals, (), AnyMark>(
        &slots,
        &roots,
        None,
        2,
        &mut scratch,
        &mut (),
    );
    match verdict {
        Err(AuditFault::ShortScratch) => println!(rt;
            "two scratch bytes for three slots: too little, left {scratch:?}"
        ),
        _ => println!(rt; "two scratch bytes for three slots: enough"),
    }
}

pub(crate) fn tell(rt: &HostRuntime) -> io::Result<()> {
    judge(rt, 3, 4)?;
    judge(rt, 1_000_000, 1_097_150)?;
    judge(rt, 1_000_000, 1_097_151)?;
    judge(rt, u32::MAX, u32::MAX)?;
    judge_short(rt)
}
