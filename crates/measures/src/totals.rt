// How many bytes, and how many line feeds.
ghost use Rattle.measures.specs.Totals.{totals};

use crate::Measure;

#[derive(Clone, Copy, PartialEq, Eq)]
pub struct Totals {
    pub bytes: u32,
    pub feeds: u32,
}

impl Measure for Totals {
    type Item = u8;

    type Value = Totals;

    ghost means = { totals };

    fn empty() -> Totals {
        Totals { bytes: 0, feeds: 0 }
    }

    fn one(item: u8) -> Totals {
        Totals {
            bytes: 1,
            feeds: u32::from(item == b'\n'),
        }
    }

    #[tactic(auto, using(crate::specs::TotalsLaws::join_totals))]
    fn join(a: &Totals, b: &Totals) -> Totals {
        Totals {
            bytes: a.bytes.saturating_add(b.bytes),
            feeds: a.feeds.saturating_add(b.feeds),
        }
    }

    fn same(a: &Totals, b: &Totals) -> bool {
        a == b
    }
}
