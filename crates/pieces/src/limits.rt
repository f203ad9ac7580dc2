// How many elements so many slots have room for.
ghost use Rattle.std.specs.Prelude.{◌≡◌};
ghost use Rattle.plain.specs.Machine.{limit as «limit-of», watched as «watched-of»};

use slots::arena::watched;

// No text is opened over a slice of fewer slots.
pub const LEAST_SLOTS: usize = 130;

// The most elements that a slice of so many slots has room for.
pub fn limit(slots: usize) -> u32
    ensures { result ≡ «limit-of» («watched-of» slots) }
{
    u32::from(watched(slots)).saturating_sub(128) / 2
}
