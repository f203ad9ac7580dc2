// The token measure: a list of bytes may begin in any state, so it is read from each.
ghost use Rattle.std.specs.Prelude.{◌≡◌, ℕ, ◌<◌, ◌≤◌, List, [], ◌∷◌, ◌++◌, length, Decides};
ghost use Rattle.measures.specs.Law.{heaviest};
ghost use Rattle.lexer.specs.Numbers.{number_of};
ghost use Rattle.lexer.specs.Reading.{read_from, reading, row_at, Whole};
ghost use Rattle.lexer.specs.declared.states.State.{State};

use crate::states::State;
use measures::Measure;

// A list read from one state: the state at its end, the tokens begun in it,
// the closes that have no open in it and the opens that have no close in it.
#[derive(Clone, Copy, PartialEq, Eq)]
pub struct TokenRow {
    pub state: State,
    pub tokens: u32,
    pub strays: u32,
    pub unmet: u32,
}

// One row for each state that a list may be read from.
pub type Rows = [TokenRow; 13];

impl TokenRow {
    // The empty list, read from a state or from any number.
    pub fn start<N: Into<State>>(state: N) -> TokenRow
        ensures { (s : State) × N.converts state s × (result ≡ read_from (number_of s) []) }
    {
        state.into().start()
    }

    // The list and one byte more.
    pub fn and_byte(&self, byte: u8) -> TokenRow
        ensures { (s : ℕ) (bs : List ℕ) → length bs < heaviest → self.now ≡ read_from s bs → result ≡ read_from s (bs ++ (byte ∷ [])) }
    {
        let next = self.state.step(byte);
        let (strays, unmet) = match next.state {
            State::Open => (self.strays, self.unmet.saturating_add(1)),
            State::Close if self.unmet == 0 => (self.strays.saturating_add(1), 0),
            State::Close => (self.strays, self.unmet - 1),
            _ => (self.strays, self.unmet),
        };
        TokenRow {
            state: next.state,
            tokens: self.tokens.saturating_add(u32::from(next.begins)),
            strays,
            unmet,
        }
    }

    // The list and a second one, whose row is that of the state at the end of the first.
    #[tactic(auto, using(crate::specs::RowJoins::and_row_lem))]
    fn and_row(&self, row: &TokenRow) -> TokenRow
        ensures { (s : ℕ) (xs ys : List ℕ) → length (xs ++ ys) ≤ heaviest → self.now ≡ read_from s xs → row.now ≡ read_from (number_of self.now.state) ys → result ≡ read_from s (xs ++ ys) }
    {
        // Closes of the second list meet opens of the first.
        let strays = row.strays.saturating_sub(self.unmet);
        let unmet = self.unmet.saturating_sub(row.strays);
        TokenRow {
            state: row.state,
            tokens: self.tokens.saturating_add(row.tokens),
            strays: self.strays.saturating_add(strays),
            unmet: row.unmet.saturating_add(unmet),
        }
    }
}

impl State {
    #[tactic(auto, using(crate::specs::RowSteps::read_none, crate::specs::RowSteps::start_at))]
    pub fn start(self) -> TokenRow
        ensures { result ≡ read_from (number_of self) [] }
    {
        TokenRow {
            state: self,
            tokens: 0,
            strays: 0,
            unmet: 0,
        }
    }

    pub fn row_of(self, rows: &Rows) -> TokenRow
        ensures { result ≡ row_at rows.now (number_of self) }
    {
        rows[self.number()]
    }
}

// The row of a state; for a number that is no state's, of the last one.
pub fn row_of<N: Into<State>>(rows: &Rows, state: N) -> TokenRow
    ensures { (s : State) × N.converts state s × (result ≡ row_at rows.now (number_of s)) }
{
    state.into().row_of(rows)
}

// What the value of a whole text says of it.
pub fn whole(rows: &Rows) -> TokenRow
    ensures value { result ≡ row_at rows.now 0 }
    ensures law { (bs : List ℕ) → rows.now ≡ reading bs → Whole bs result }
{
    State::Start.row_of(rows)
}

pub struct Tokens;

impl Measure for Tokens {
    type Item = u8;

    type Value = Rows;

    ghost means = { reading };

    fn empty() -> Rows {
        State::ALL.map(State::start)
    }

    fn one(item: u8) -> Rows {
        let mut rows = Self::empty();
        Self::add(&mut rows, item);
        rows
    }

    fn join(a: &Rows, b: &Rows) -> Rows {
        let mut rows = *a;
        for row in rows.iter_mut() {
            *row = row.and_row(&row.state.row_of(b));
        }
        rows
    }

    fn same(a: &Rows, b: &Rows) -> bool {
        a == b
    }

    // Thirteen steps, where a join would make two rows and join them for each state.
    fn add(a: &mut Rows, item: u8) {
        for row in a.iter_mut() {
            *row = row.and_byte(item);
        }
    }
}
