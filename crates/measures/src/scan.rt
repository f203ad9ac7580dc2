// The value of items in a lent slice, one after another.
ghost use Rattle.std.specs.Prelude.{◌≡◌, ◌≤◌};
ghost use Rattle.measures.specs.Law.{weights, heaviest};

use crate::Measure;

pub fn measured<M: Measure>(items: &[M::Item]) -> M::Value
    ensures { weights M.Item.Weigh.weight items.now ≤ heaviest → result ≡ M.Measure.means items.now }
{
    let mut all = M::empty();
    for item in items {
        M::add(&mut all, *item);
    }
    all
}
