// The bytes of a line, gathered in a buffer of 120.
ghost use Rattle.std.specs.Prelude.{◌≡◌, min};
ghost use Rattle.listing.specs.Sizes.{most_held};
ghost use Rattle.listing.specs.Gathering.{IsWithin, Pushed, GatherDone};

// A line of more than 119 bytes is malformed, so no more than these are held.
pub const MOST_HELD: usize = 120;

const LINE_FEED: u8 = b'\n';

// Lent by the caller: no memory of its own. How many of its first bytes are held is the session's.
pub(crate) type LineBuffer = [u8; MOST_HELD];

// The first `held` bytes of `line` are held.
#[derive(Drop)]
pub(crate) struct Gatherer<'a> {
    pub line: &'a mut LineBuffer,
    pub held: usize,
}

// A session that was made otherwise may say that it holds more than there is.
pub(crate) fn held_in(held: usize) -> usize
    ensures { result ≡ min held most_held }
{
    held.min(MOST_HELD)
}

impl Gatherer<'_> {
    fn push(&mut self, b: u8)
        requires { IsWithin self.old }
        ensures { Pushed self.old b self.new }
    {
        if self.held < MOST_HELD {
            self.line[self.held] = b;
            self.held += 1;
        }
    }

    // Takes bytes of the piece up to a line feed or its end. Answers where the piece's first line ends,
    // after its line feed, if it ends in the piece.
    #[tactic(auto, using(crate::proofs::Pieces::gather_start, crate::proofs::Pieces::gather_feed, crate::proofs::Pieces::gather_step, crate::proofs::Pieces::gather_end))]
    pub(crate) fn gather(&mut self, piece: &[u8]) -> Option<usize>
        requires { IsWithin self.old }
        ensures { GatherDone self.old piece.now self.new result }
    {
        for (i, b) in piece.iter().enumerate() {
            if *b == LINE_FEED {
                return Some(i + 1);
            }
            self.push(*b);
        }
        None
    }
}
