// Decisions on digits, without memory. Front and back are one function over the side.
ghost use Rattle.std.specs.Prelude.{◌≡◌};
ghost use Rattle.slots.specs.Sides.{pick as picked, flipped, grown, peeled};
ghost use Rattle.slots.specs.Values.{node_of};

use crate::records::{Digit, Grown, Peel, Record, Side, Unsound};

impl Side {
    // The first of the two on the front, the second on the back.
    pub fn pick<T: Copy>(self, front: T, back: T) -> T
        ensures { result ≡ picked self front back }
    {
        match self {
            Side::Front => front,
            Side::Back => back,
        }
    }

    pub fn flip(self) -> Side
        ensures { result ≡ flipped self }
    {
        self.pick(Side::Back, Side::Front)
    }
}

impl Digit {
    pub fn grow(self, side: Side, x: u16) -> Grown
        ensures { result ≡ grown side self x }
    {
        match self {
            Digit::One(a) => Grown::Room(side.pick(Digit::Two(x, a), Digit::Two(a, x))),
            Digit::Two(a, b) => Grown::Room(side.pick(
                Digit::Three(x, a, b),
                Digit::Three(a, b, x),
            )),
            Digit::Three(a, b, c) => {
                Grown::Room(side.pick(Digit::Four(x, a, b, c), Digit::Four(a, b, c, x)))
            }
            Digit::Four(a, b, c, d) => Grown::Over {
                keep: side.pick(Digit::Two(x, a), Digit::Two(d, x)),
                parts: side.pick(Digit::Three(b, c, d), Digit::Three(a, b, c)),
            },
        }
    }

    pub fn peel(self, side: Side) -> Peel
        ensures { result ≡ peeled side self }
    {
        match self {
            Digit::One(a) => Peel {
                slot: a,
                rest: None,
            },
            Digit::Two(a, b) => Peel {
                slot: side.pick(a, b),
                rest: Some(Digit::One(side.pick(b, a))),
            },
            Digit::Three(a, b, c) => Peel {
                slot: side.pick(a, c),
                rest: Some(side.pick(Digit::Two(b, c), Digit::Two(a, b))),
            },
            Digit::Four(a, b, c, d) => Peel {
                slot: side.pick(a, d),
                rest: Some(side.pick(Digit::Three(b, c, d), Digit::Three(a, b, c))),
            },
        }
    }

    // The node of the digit's slots, if it has two or three.
    pub fn node<R: Copy, V: Copy>(self, value: V) -> Result<Record<R, V>, Unsound>
        ensures { result ≡ node_of self value }
    {
        match self {
            Digit::Two(a, b) => Ok(Record::Node2 { a, b, value }),
            Digit::Three(a, b, c) => Ok(Record::Node3 { a, b, c, value }),
            _ => Err(Unsound),
        }
    }
}
