// A whole text in numbers, from the values of its measures.
ghost use Rattle.std.specs.Prelude.{◌≡◌, ℕ, ◌≤◌, List, length};
ghost use Rattle.plain.specs.Questions.{summary};
ghost use Rattle.measures.specs.Law.{heaviest};
ghost use Rattle.measures.specs.Totals.{totals as totalsOf};
ghost use Rattle.lexer.specs.Reading.{reading, row_at};
ghost use Rattle.lexer.specs.Summing.{summed};

use crate::tokens::{Rows, whole};
use measures::totals::Totals;
use plain::answers::Summary;

pub fn sum_up(totals: &Totals, rows: &Rows) -> Summary
    ensures value { result ≡ summed totals.now (row_at rows.now 0) }
    ensures law { (bs : List ℕ) → length bs ≤ heaviest → totals.now ≡ totalsOf bs → rows.now ≡ reading bs → result ≡ summary bs }
{
    let read = whole(rows);
    Summary {
        bytes: totals.bytes,
        lines: totals.feeds.saturating_add(1),
        tokens: read.tokens,
        strays: read.strays,
        unmet: read.unmet,
    }
}
