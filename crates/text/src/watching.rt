// The part of a lent slice that counts.
ghost use Rattle.std.specs.Prelude.{◌≡◌};
ghost use Rattle.text.specs.Texts.{watched_of};

use slots::arena::watched;

// Of a slice that is lent to be changed each call cuts the part off by itself: a function that lent it on would not tell
// the caller's proof what the slice ends as.
pub(crate) fn watched_part<T>(slots: &[T]) -> &[T]
    ensures { result.now ≡ watched_of slots.now }
{
    &slots[..usize::from(watched(slots.len()))]
}
