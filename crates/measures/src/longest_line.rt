// The longest line: the first and the last are open at the ends of the list, those between are not.
ghost use Rattle.std.specs.Prelude.{◌≡◌, ℕ, true, max, ◌⊎◌, List};
ghost use Rattle.plain.specs.Questions.{longest};
ghost use Rattle.measures.specs.Lines.{lines, longest_in, has_feed_in, first_in, inner_in, last_in, IsOfParts};

use crate::Measure;

#[derive(Clone, Copy, PartialEq, Eq)]
pub enum LongestLine {
    // No line feed: the one line is open at both ends.
    Whole(u32),
    // The lengths of the first line, of the longest between, and of the last.
    Parted { first: u32, inner: u32, last: u32 },
}

impl LongestLine {
    // Of these four where a list has them; else, without a line feed, one line as long as the longest of the three.
    pub fn of_parts(has_feed: bool, first: u32, inner: u32, last: u32) -> LongestLine
        ensures longest { longest_in result ≡ max (max first inner) last }
        ensures has_feed { has_feed_in result ≡ has_feed }
        ensures parts { (has_feed ≡ true) ⊎ ((first ≡ last) × (inner ≡ 0)) → IsOfParts result first inner last }
    {
        if has_feed {
            LongestLine::Parted { first, inner, last }
        } else {
            LongestLine::Whole(first.max(inner).max(last))
        }
    }

    pub fn has_feed(&self) -> bool
        ensures { result ≡ has_feed_in self.now }
    {
        match self {
            LongestLine::Whole(_) => false,
            LongestLine::Parted { .. } => true,
        }
    }

    // All of the one line is before the first line feed and after the last.
    pub fn first(&self) -> u32
        ensures { result ≡ first_in self.now }
    {
        match *self {
            LongestLine::Whole(length) => length,
            LongestLine::Parted { first, .. } => first,
        }
    }

    pub fn inner(&self) -> u32
        ensures { result ≡ inner_in self.now }
    {
        match *self {
            LongestLine::Whole(_) => 0,
            LongestLine::Parted { inner, .. } => inner,
        }
    }

    pub fn last(&self) -> u32
        ensures { result ≡ last_in self.now }
    {
        match *self {
            LongestLine::Whole(length) => length,
            LongestLine::Parted { last, .. } => last,
        }
    }

    pub fn longest(&self) -> u32
        ensures value { result ≡ longest_in self.now }
        ensures greatest { result ≡ max (max (first_in self.now) (inner_in self.now)) (last_in self.now) }
        ensures law { (bs : List ℕ) → self.now ≡ lines bs → result ≡ longest bs }
    {
        match *self {
            LongestLine::Whole(length) => length,
            LongestLine::Parted { first, inner, last } => first.max(inner).max(last),
        }
    }
}

impl Measure for LongestLine {
    type Item = u8;

    type Value = LongestLine;

    ghost means = { lines };

    fn empty() -> LongestLine {
        LongestLine::Whole(0)
    }

    fn one(item: u8) -> LongestLine {
        match item {
            b'\n' => LongestLine::Parted {
                first: 0,
                inner: 0,
                last: 0,
            },
            _ => LongestLine::Whole(1),
        }
    }

    // The last line of `a` goes on in the first of `b`.
    #[tactic(auto, using(crate::proofs::LineLaws::join_lines))]
    fn join(a: &LongestLine, b: &LongestLine) -> LongestLine {
        match (*a, *b) {
            (LongestLine::Whole(x), LongestLine::Whole(y)) => {
                LongestLine::Whole(x.saturating_add(y))
            }
            (LongestLine::Whole(x), LongestLine::Parted { first, inner, last }) => {
                LongestLine::Parted {
                    first: x.saturating_add(first),
                    inner,
                    last,
                }
            }
            (LongestLine::Parted { first, inner, last }, LongestLine::Whole(y)) => {
                LongestLine::Parted {
                    first,
                    inner,
                    last: last.saturating_add(y),
                }
            }
            (
                LongestLine::Parted { first, inner, last },
                LongestLine::Parted {
                    first: next,
                    inner: more,
                    last: end,
                },
            ) => {
                LongestLine::Parted {
                    first,
                    inner: inner.max(more).max(last.saturating_add(next)),
                    last: end,
                }
            }
        }
    }

    fn same(a: &LongestLine, b: &LongestLine) -> bool {
        a == b
    }
}
