// The states of the reading.
ghost use Rattle.std.specs.Prelude.{◌≡◌};
ghost use Rattle.lexer.specs.Numbers.{number_of, state_of};

// The state after a byte. Its number, 0 to 12 in this order, is the number of the row that is read from it.
#[derive(Clone, Copy, PartialEq, Eq)]
pub enum State {
    Start,
    Blank,
    Line,
    Word,
    Number,
    Sign,
    Open,
    Close,
    // In a string, and after an escape in it; `String` is one that is closed.
    Quoted,
    Escaped,
    String,
    Comment,
    Bad,
}

impl State {
    // All of them, by their numbers.
    pub const ALL: [State; 13] = [
        State::Start,
        State::Blank,
        State::Line,
        State::Word,
        State::Number,
        State::Sign,
        State::Open,
        State::Close,
        State::Quoted,
        State::Escaped,
        State::String,
        State::Comment,
        State::Bad,
    ];

    pub fn number(self) -> usize
        ensures { result ≡ number_of self }
    {
        self as usize
    }
}

// A number that is no state's is read as the last one.
impl From<u8> for State {
    ghost use Rattle.lexer.specs.Numbers.{state_of};

    ghost from_gives = { λ n s. s ≡ state_of n };

    fn from(number: u8) -> State {
        let state = State::ALL.get(usize::from(number));
        state.copied().unwrap_or(State::Bad)
    }
}
