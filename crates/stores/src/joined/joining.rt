// Two stores are joined where what they can come to hold together is no more than a store can have.
ghost use Rattle.std.specs.Result.{MatchResult};
ghost use Rattle.stores.specs.Joining.{Accepted, HandedBack};

use super::Joined;
use crate::Store;
use plain::faults::JoinTooLarge;

// A refused joining gives both stores back.
#[derive(Drop)]
pub struct Unjoined<F, B> {
    pub front: F,
    pub back: B,
    pub fault: JoinTooLarge,
}

pub fn join<F: Store, B: Store>(front: F, back: B) -> Result<Joined<F, B>, Unjoined<F, B>>
    ensures { MatchResult result (Accepted F.Store B.Store front back) (HandedBack F.Store B.Store front back) }
{
    if back.len() + back.spare() <= u32::MAX - front.len() {
        Ok(Joined { front, back })
    } else {
        Err(Unjoined {
            front,
            back,
            fault: JoinTooLarge,
        })
    }
}
