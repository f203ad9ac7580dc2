// The sum of the gaps of marks, which is the offset of the last, and how many there are.
ghost use Rattle.std.specs.Prelude.{◌≡◌, ◌+◌, List};
ghost use Rattle.measures.specs.MarkTotals.{totals_of_marks, placed, last_offset_of};
ghost use Rattle.measures.specs.declared.mark_totals.MarkRow.{MarkRow as Row};

use crate::{Measure, Weigh};

// A mark as it lies in a slot: how far it is from the mark before it, the first from 0.
#[derive(Clone, Copy)]
pub struct MarkRow {
    pub gap: u32,
    pub label: u16,
}

impl Weigh for MarkRow {
    ghost weight = { λ m. m.gap + 1 };
}

#[derive(Clone, Copy, PartialEq, Eq)]
pub struct MarkTotals {
    pub gaps: u32,
    pub count: u32,
}

impl MarkTotals {
    pub fn last_offset(&self) -> u32
        ensures value { result ≡ self.now.gaps }
        ensures law { (ms : List Row) → self.now ≡ totals_of_marks ms → result ≡ last_offset_of 0 (placed 0 ms) }
    {
        self.gaps
    }
}

// Two sums, as those of bytes are, but of other items: a type for both would lose the names of what is summed.
impl Measure for MarkTotals {
    type Item = MarkRow;

    type Value = MarkTotals;

    ghost means = { totals_of_marks };

    fn empty() -> MarkTotals {
        MarkTotals { gaps: 0, count: 0 }
    }

    fn one(item: MarkRow) -> MarkTotals {
        MarkTotals {
            gaps: item.gap,
            count: 1,
        }
    }

    #[tactic(auto, using(crate::specs::MarkLaws::join_marks))]
    fn join(a: &MarkTotals, b: &MarkTotals) -> MarkTotals {
        MarkTotals {
            gaps: a.gaps.saturating_add(b.gaps),
            count: a.count.saturating_add(b.count),
        }
    }

    fn same(a: &MarkTotals, b: &MarkTotals) -> bool {
        a == b
    }
}
