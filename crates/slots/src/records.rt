// What slots hold, and the parts that a tree is put together of.
ghost use Rattle.std.specs.Prelude.{◌≡◌};

use plain::faults::TextFault;

// The next slot of a chain of free ones, if there is one.
pub type Link = Option<u16>;

// More levels than any tree of sound memory has, also after five pushes.
pub const LEVELS: u8 = 16;

// One to four slots.
#[derive(Clone, Copy)]
pub enum Digit {
    One(u16),
    Two(u16, u16),
    Three(u16, u16, u16),
    Four(u16, u16, u16, u16),
}

// Nothing, the slot of one leaf or node, or the slot of a level.
#[derive(Clone, Copy)]
pub enum Tree {
    Empty,
    Single(u16),
    Deep(u16),
}

// What a slot holds: V is the value of a measure of all that lies below.
#[derive(Clone, Copy)]
pub enum Record<R, V> {
    Free(Link),
    Leaf {
        row: R,
        value: V,
    },
    Node2 {
        a: u16,
        b: u16,
        value: V,
    },
    Node3 {
        a: u16,
        b: u16,
        c: u16,
        value: V,
    },
    Level {
        front: Digit,
        middle: Tree,
        back: Digit,
        value: V,
    },
}

// Memory was met that holds no sound tree or chain.
#[derive(Clone, Copy)]
pub struct Unsound;

impl From<Unsound> for TextFault {
    ghost use Rattle.plain.specs.declared.faults.TextFault.TheVariants as fault;

    ghost from_gives = { λ _ told. told ≡ fault.Unsound };

    fn from(_: Unsound) -> TextFault {
        TextFault::Unsound
    }
}

#[derive(Clone, Copy)]
pub enum Side {
    Front,
    Back,
}

// The slots of a level.
#[derive(Clone, Copy)]
pub struct Spine {
    pub front: Digit,
    pub middle: Tree,
    pub back: Digit,
}

// A digit with one more slot: it has room, or three slots leave it as the parts of a node. Neither is a failure.
#[derive(Clone, Copy)]
pub enum Grown {
    Room(Digit),
    Over { keep: Digit, parts: Digit },
}

// A digit without its slot at one side.
#[derive(Clone, Copy)]
pub struct Peel {
    pub slot: u16,
    pub rest: Option<Digit>,
}
