// Finding a line feed.
ghost use Rattle.questions.specs.Lines.{FeedFound};

use pieces::piece::Piece;
use slots::records::Unsound;
use stores::Store;

const FEED: u8 = 0x0A;

// How far into the piece its line feed with this number ends, counted from 1.
pub fn find_feed<S: Store>(store: &mut S, piece: Piece, number: u32) -> Result<u32, Unsound>
    ensures { FeedFound S.Store.contents store.old store.new piece.address piece.length number result }
{
    let mut met = 0;
    for i in 0..piece.length {
        let byte = store.read(piece.address + u32::from(i)).ok_or(Unsound)?;
        if byte == FEED {
            met += 1;
            if met == number {
                return Ok(u32::from(i) + 1);
            }
        }
    }
    Err(Unsound)
}
