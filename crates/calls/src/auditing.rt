// The audit in a list of calls.
ghost use Rattle.std.specs.Prelude.{◌≡◌, min, ◌++◌, length};
ghost use Rattle.text.specs.Texts.{watched_of};
ghost use Rattle.calls.specs.Steps.{AuditLent};

use measures::Measure;
use pieces::head::{MarkRecord, TextRecord};
use plain::faults::TextFault;
use stores::Store;
use text::view::View;

// Lends so many bytes of the scratch, or all if it has fewer.
pub(crate) fn audit<S: Store, A: Measure<Item = u8>>(
    view: View,
    slots: &[TextRecord<A::Value>],
    marks: &[MarkRecord],
    store: &mut S,
    scratch: &mut [u8],
    bytes: u32,
) -> Result<(), TextFault>
    ensures { AuditLent A.Measure.means S.Store.contents store.old store.new (watched_of slots.now) (watched_of marks.now) view.entry.head.now scratch.old scratch.new bytes result }
{
    let lent = (bytes as usize).min(scratch.len());
    view.audit::<S, A>(slots, marks, store, &mut scratch[0..lent])
}
