// Theorems about sound memory: it spells one text, and a text with a clip and marks can be spelled.
#![tactic(auto)]

ghost use Rattle.text_laws.specs.Laws.{OneText, Holds};

use head_edits::cutting::cut;
use head_edits::inserting::insert;
use head_edits::marking::mark;
use measures::Measure;
use opening::open;
use pieces::head::{Head, MarkRecord, TextRecord};
use plain::faults::TextFault;
use stores::Store;

// Two machines that one memory spells, in one mode, are equal.
pub fn one_text<V>()
    ensures { OneText V }
{}

// Opens an empty store, inserts two bytes, marks the second and cuts it.
pub fn held_text<S: Store, A: Measure<Item = u8>>(
    slots: &mut [TextRecord<A::Value>],
    marks: &mut [MarkRecord],
    store: &mut S,
) -> Result<Head, TextFault>
    ensures { Holds A.Measure.means S.Store.contents store.old store.new slots.old slots.new marks.old marks.new result }
{
    let mut head = open::<S, A>(slots, marks, store)?;
    insert::<S, A>(&mut head, slots, marks, store, 0, &[97, 98])?;
    mark::<A>(&mut head, slots, marks, 1, 7)?;
    cut::<S, A>(&mut head, slots, marks, store, 1, 2)?;
    Ok(head)
}
