// Why a call is refused: each layer's fault keeps the fault of the layer below it whole.
ghost use Rattle.std.specs.Prelude.{◌≡◌};
ghost use Rattle.plain.specs.Faults.{text_number, text_layer, call_number, call_layer, line_number, line_layer};

#[derive(Clone, Copy)]
pub enum Layer {
    Store,
    Text,
    Script,
}

// A store refused an append: it holds `length` bytes and has room for `spare` more.
#[derive(Clone, Copy)]
pub struct StoreFull {
    pub length: u32,
    pub spare: u32,
}

// Two stores are too large to be joined.
#[derive(Clone, Copy)]
pub struct JoinTooLarge;

#[derive(Clone, Copy)]
pub enum TextFault {
    // too few slots, or scratch bytes
    Slots,
    // more pieces than the slots have room for
    Pieces,
    // an insert of no bytes, or of more than 256
    Length,
    // an offset out of range
    Offset,
    // the store has no room for an insert
    Store(StoreFull),
    // more marks than the slots have room for
    Marks,
    // memory is not sound
    Unsound,
}

// Why a call of a list is refused.
#[derive(Clone, Copy)]
pub enum CallFault {
    // a call for a whole text on a held one, or the reverse
    NotAllowed,
    Text(TextFault),
}

// Why a line of a script is refused.
#[derive(Clone, Copy)]
pub enum LineFault {
    Unreadable,
    Call(CallFault),
}

// Lines count from 1.
#[derive(Clone, Copy)]
pub struct ScriptFault {
    pub line: usize,
    pub fault: LineFault,
}

impl From<StoreFull> for TextFault {
    ghost use Rattle.plain.specs.declared.faults.TextFault.TheVariants.{Store};

    ghost from_gives = { λ full fault. fault ≡ Store full };

    fn from(full: StoreFull) -> TextFault {
        TextFault::Store(full)
    }
}

impl From<TextFault> for CallFault {
    ghost use Rattle.plain.specs.declared.faults.CallFault.TheVariants.{Text};

    ghost from_gives = { λ fault outer. outer ≡ Text fault };

    fn from(fault: TextFault) -> CallFault {
        CallFault::Text(fault)
    }
}

impl From<CallFault> for LineFault {
    ghost use Rattle.plain.specs.declared.faults.LineFault.TheVariants.{Call};

    ghost from_gives = { λ fault outer. outer ≡ Call fault };

    fn from(fault: CallFault) -> LineFault {
        LineFault::Call(fault)
    }
}

// `number` and `layer` belong to each type and to no trait: nothing takes a fault of any layer, so a trait would only be one import more.
impl StoreFull {
    pub fn number(&self) -> u8
        ensures { result ≡ 5 }
    {
        5
    }
}

impl JoinTooLarge {
    pub fn number(&self) -> u8
        ensures { result ≡ 7 }
    {
        7
    }
}

impl TextFault {
    pub fn number(&self) -> u8
        ensures { result ≡ text_number self.now }
    {
        match self {
            TextFault::Slots => 1,
            TextFault::Pieces => 2,
            TextFault::Length => 3,
            TextFault::Offset => 4,
            TextFault::Store(full) => full.number(),
            TextFault::Marks => 6,
            TextFault::Unsound => 10,
        }
    }

    // The layer that refused.
    pub fn layer(&self) -> Layer
        ensures { result ≡ text_layer self.now }
    {
        match self {
            TextFault::Store(_) => Layer::Store,
            _ => Layer::Text,
        }
    }
}

impl CallFault {
    pub fn number(&self) -> u8
        ensures { result ≡ call_number self.now }
    {
        match self {
            CallFault::NotAllowed => 9,
            CallFault::Text(fault) => fault.number(),
        }
    }

    pub fn layer(&self) -> Layer
        ensures { result ≡ call_layer self.now }
    {
        match self {
            CallFault::NotAllowed => Layer::Script,
            CallFault::Text(fault) => fault.layer(),
        }
    }
}

impl LineFault {
    pub fn number(&self) -> u8
        ensures { result ≡ line_number self.now }
    {
        match self {
            LineFault::Unreadable => 8,
            LineFault::Call(fault) => fault.number(),
        }
    }

    pub fn layer(&self) -> Layer
        ensures { result ≡ line_layer self.now }
    {
        match self {
            LineFault::Unreadable => Layer::Script,
            LineFault::Call(fault) => fault.layer(),
        }
    }
}
