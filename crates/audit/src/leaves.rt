// What the audit asks of each leaf.
ghost use Rattle.std.specs.Prelude.{List};
ghost use Rattle.audit.specs.Checks.{Judged, Stays};

use measures::Measure;
use slots::records::Unsound;

// Knows which rows are good and what they stand for. It may read a source to tell, and no check changes what rows mean.
pub trait LeafCheck<R, M: Measure, S> {
    ghost items: { S → R → List M.Item };

    ghost good: { S → R → Type 0 };

    // From one state of the source to the next by the check of a row.
    ghost checks: { S → R → S → Type 0 };

    // The weight of the row's items, if it is good and the value is theirs.
    fn check(source: &mut S, row: R, value: &M::Value) -> Result<u64, Unsound>
        ensures judged { Judged M.Item.Weigh.weight M.Measure.means (items source.old) (good source.old) row value.now result }
        ensures stays { Stays items good source.old source.new }
        ensures steps { checks source.old row source.new };
}
