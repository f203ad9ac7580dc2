ghost use Rattle.std.specs.Prelude.{◌≡◌, nat_le};
ghost use Rattle.digit_sum.specs.Digits.{decimal_of, digit_sum_of};
ghost use Rattle.digit_sum.specs.DigitLaws.{sum_kept};

use measures::{Measure, Probe};

pub struct DigitSum;

fn digit(byte: u8) -> u32
    ensures { result ≡ decimal_of byte }
{
    match byte {
        b'0'..=b'9' => u32::from(byte - b'0'),
        _ => 0,
    }
}

impl Measure for DigitSum {
    type Item = u8;

    type Value = u32;

    ghost means = { digit_sum_of };

    fn empty() -> u32 {
        0
    }

    fn one(item: u8) -> u32 {
        digit(item)
    }

    fn join(a: &u32, b: &u32) -> u32 {
        a.saturating_add(*b)
    }

    fn same(a: &u32, b: &u32) -> bool {
        *a == *b
    }
}

// Digits that sum up to at least so much.
#[derive(Clone, Copy)]
pub struct SumReached {
    pub sum: u32,
}

impl Probe<DigitSum> for SumReached {
    ghost says = { λ p v. nat_le p.sum v };

    ghost keeps = { λ p. sum_kept p.sum };

    fn holds(&self, v: &u32) -> bool {
        *v >= self.sum
    }
}
