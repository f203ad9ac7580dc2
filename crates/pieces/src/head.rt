// What is kept of a text beside the lent slices and the store.
use crate::rows::PieceRow;
use lexer::tokens::{Rows, Tokens};
use measures::mark_totals::{MarkRow, MarkTotals};
use measures::pair::Pair;
use measures::totals::Totals;
use slots::records::{Link, Record, Tree};

// The measure of a text's tree: what the engine needs, beside the measure that was added.
pub type TextMeasure<A> = Pair<Pair<Totals, Tokens>, A>;

// What a slot of the text's slice holds, V being the values of the added measure, and what one of the marks' does.
pub type TextRecord<V> = Record<PieceRow, Pair<Pair<Totals, Rows>, V>>;

pub type MarkRecord = Record<MarkRow, MarkTotals>;

// The roots of the trees, the free slots of both slices, and the counts: `pieces` of text and clip together.
#[derive(Clone, Copy)]
pub struct Head {
    pub text: Tree,
    pub clip: Tree,
    pub free: Link,
    pub pieces: u32,
    pub marks: Tree,
    pub free_marks: Link,
    pub mark_count: u32,
}
