// What the engine searches for. Each probe of a bound names its number: one probe for any number would take a trait for
// the number, an impl of it for each, and a longer type at each use, where the law is one lemma's already.
ghost use Rattle.std.specs.Prelude.{◌&&◌, nat_le, nat_lt};
ghost use Rattle.measures.specs.TotalsLaws.{past_byte_kept, feeds_kept};
ghost use Rattle.measures.specs.MarkLaws.{mark_from_kept};

use crate::mark_totals::MarkTotals;
use crate::pair::Pair;
use crate::totals::Totals;
use crate::{Measure, Probe};

// More than `at` bytes.
#[derive(Clone, Copy)]
pub struct PastByte {
    pub at: u32,
}

impl Probe<Totals> for PastByte {
    ghost says = { λ p v. nat_lt p.at v.bytes };

    ghost keeps = { λ p. past_byte_kept p.at };

    fn holds(&self, v: &Totals) -> bool {
        v.bytes > self.at
    }
}

// At least `count` line feeds.
#[derive(Clone, Copy)]
pub struct FeedsReached {
    pub count: u32,
}

impl Probe<Totals> for FeedsReached {
    ghost says = { λ p v. nat_le p.count v.feeds };

    ghost keeps = { λ p. feeds_kept p.count };

    fn holds(&self, v: &Totals) -> bool {
        v.feeds >= self.count
    }
}

// A mark, and the last one at offset `at` or after it. Of no marks it says no, also where `at` is 0.
#[derive(Clone, Copy)]
pub struct MarkFrom {
    pub at: u32,
}

impl Probe<MarkTotals> for MarkFrom {
    ghost says = { λ p v. nat_lt 0 v.count && nat_le p.at v.gaps };

    ghost keeps = { λ p. mark_from_kept p.at };

    fn holds(&self, v: &MarkTotals) -> bool {
        v.count > 0 && v.gaps >= self.at
    }
}

// A probe of the left side of a pair is a probe of the pair. The sides are of two types, so each has an impl.
#[derive(Clone, Copy)]
pub struct OnLeft<P> {
    pub probe: P,
}

impl<L: Measure, R: Measure<Item = L::Item>, P: Probe<L>> Probe<Pair<L, R>> for OnLeft<P> {
    ghost says = { λ p v. P.Probe.says p.probe v.left };

    ghost keeps = { λ p. record { keeps = λ xs ys light said. (P.Probe.keeps p.probe).keeps xs ys light said } };

    fn holds(&self, v: &Pair<L::Value, R::Value>) -> bool {
        self.probe.holds(&v.left)
    }
}

// And of the right side.
#[derive(Clone, Copy)]
pub struct OnRight<P> {
    pub probe: P,
}

impl<L: Measure, R: Measure<Item = L::Item>, P: Probe<R>> Probe<Pair<L, R>> for OnRight<P> {
    ghost says = { λ p v. P.Probe.says p.probe v.right };

    ghost keeps = { λ p. record { keeps = λ xs ys light said. (P.Probe.keeps p.probe).keeps xs ys light said } };

    fn holds(&self, v: &Pair<L::Value, R::Value>) -> bool {
        self.probe.holds(&v.right)
    }
}
