// Of a lent slice only as many bytes count as a store can have.
ghost use Rattle.std.specs.Prelude.{◌≡◌, min, length};
ghost use Rattle.stores.specs.Stores.{largest};
ghost use Rattle.stores.specs.Kinds.{counting};

#[tactic(auto, using(crate::proofs::Holdings::take_counting))]
pub fn counting(slice: &[u8]) -> &[u8]
    ensures bytes { result.now ≡ counting slice.now }
    ensures size { length result.now ≡ min (length slice.now) largest }
{
    &slice[..slice.len().min(u32::MAX as usize)]
}
