// Two measures over the same items at once.
ghost use Rattle.measures.specs.Pairs.{both};

use crate::Measure;

#[derive(Clone, Copy)]
pub struct Pair<L, R> {
    pub left: L,
    pub right: R,
}

impl<L: Measure, R: Measure<Item = L::Item>> Measure for Pair<L, R> {
    type Item = L::Item;

    type Value = Pair<L::Value, R::Value>;

    ghost means = { λ xs. both (L.Measure.means xs) (R.Measure.means xs) };

    fn empty() -> Pair<L::Value, R::Value> {
        Pair {
            left: L::empty(),
            right: R::empty(),
        }
    }

    fn one(item: L::Item) -> Pair<L::Value, R::Value> {
        Pair {
            left: L::one(item),
            right: R::one(item),
        }
    }

    fn join(
        a: &Pair<L::Value, R::Value>,
        b: &Pair<L::Value, R::Value>,
    ) -> Pair<L::Value, R::Value> {
        Pair {
            left: L::join(&a.left, &b.left),
            right: R::join(&a.right, &b.right),
        }
    }

    fn same(a: &Pair<L::Value, R::Value>, b: &Pair<L::Value, R::Value>) -> bool {
        L::same(&a.left, &b.left) && R::same(&a.right, &b.right)
    }

    fn add(a: &mut Pair<L::Value, R::Value>, item: L::Item) {
        L::add(&mut a.left, item);
        R::add(&mut a.right, item);
    }
}
