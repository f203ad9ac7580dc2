// What a finger tree caches: the value of a lawful measure of the items below.
#![tactic(auto)]

ghost use Rattle.std.specs.Prelude.{◌≡◌, ℕ, ◌≤◌, Bool, true, List, [], ◌∷◌, ◌++◌};
ghost use Rattle.measures.specs.Law.{Joins, Adds, Keeps};

pub mod longest_line;
pub mod mark_totals;
pub mod pair;
pub mod probes;
pub mod scan;
pub mod totals;

pub trait Weigh {
    ghost weight: { Self → ℕ };
}

impl Weigh for u8 {
    ghost weight = { λ _. 1 };
}

// To be an impl is to be lawful. A join of lists that are too heavy gives any value.
pub trait Measure {
    type Item: Weigh + Copy;

    type Value: Copy;

    ghost means: { List Self.Item → Self.Value };

    fn empty() -> Self::Value
        ensures { result ≡ means [] };

    fn one(item: Self::Item) -> Self::Value
        ensures { result ≡ means (item ∷ []) };

    fn join(a: &Self::Value, b: &Self::Value) -> Self::Value
        ensures { Joins Self.Item.Weigh.weight means a.now b.now result };

    fn same(a: &Self::Value, b: &Self::Value) -> bool
        ensures sound { result ≡ true → a.now ≡ b.now }
        ensures full { a.now ≡ b.now → result ≡ true };

    // One item more, in place. A measure that has a quicker way than a join may give it.
    fn add(a: &mut Self::Value, item: Self::Item)
        ensures { Adds Self.Item.Weigh.weight means a.old item a.new }
    {
        *a = Self::join(a, &Self::one(item));
    }
}

// A yes or no on values, which a longer list does not take back.
pub trait Probe<M: Measure> {
    ghost says: { Self → M.Value → Bool };

    fn holds(&self, v: &M::Value) -> bool
        ensures { result ≡ says self.now v.now };

    ghost keeps: { (p : Self) → Keeps M.Item.Weigh.weight M.Measure.means (says p) };
}
