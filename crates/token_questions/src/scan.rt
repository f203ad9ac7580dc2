// Reading through a piece until a goal is reached.
ghost use Rattle.std.specs.Prelude.{◌≡◌};
ghost use Rattle.token_questions.specs.Scans.{reached, Scanned};

use lexer::tokens::TokenRow;
use pieces::piece::Piece;
use slots::records::Unsound;
use stores::Store;

// So many bytes of the piece, tokens begun or stray closes.
#[derive(Clone, Copy)]
pub enum Goal {
    Bytes(u32),
    Tokens(u32),
    Strays(u32),
}

impl Goal {
    fn is_reached(&self, bytes: u32, row: &TokenRow) -> bool
        ensures { result ≡ reached self.now bytes row.now }
    {
        match *self {
            Goal::Bytes(count) => bytes >= count,
            Goal::Tokens(count) => row.tokens >= count,
            Goal::Strays(count) => row.strays >= count,
        }
    }
}

// The byte of a piece at which a goal is reached, and the rows before it and after it.
#[derive(Clone, Copy)]
pub struct Stop {
    pub index: u32,
    pub byte: u8,
    pub before: TokenRow,
    pub after: TokenRow,
}

// Reads the piece on from the row of what stands before it. No byte after the stop is read.
pub fn scan<S: Store>(
    store: &mut S,
    piece: Piece,
    row: TokenRow,
    goal: Goal,
) -> Result<Stop, Unsound>
    ensures { Scanned S.Store.contents store.old store.new piece.address piece.length row goal result }
{
    let mut before = row;
    for i in 0..piece.length {
        let index = u32::from(i);
        let byte = store.read(piece.address + index).ok_or(Unsound)?;
        let after = before.and_byte(byte);
        if goal.is_reached(index + 1, &after) {
            return Ok(Stop {
                index,
                byte,
                before,
                after,
            });
        }
        before = after;
    }
    Err(Unsound)
}
