// How many lines a program compared, and how many of them differ.
ghost use Rattle.std.specs.Prelude.{◌≡◌};
ghost use Rattle.vectors.specs.Counting.{one_more, counted_of};

// A program stops here.
pub const MOST_LINES: u64 = 1000000;

#[derive(Clone, Copy, Default)]
pub struct Tally {
    pub compared: u64,
    pub differ: u64,
}

#[tactic(auto, unfolding(crate::specs::Counting::one_more))]
fn one_more(count: u64) -> u64
    ensures { result ≡ one_more count }
{
    if count < MOST_LINES { count + 1 } else { count }
}

#[tactic(auto, unfolding(crate::specs::Counting::counted_of))]
pub fn counted(tally: Tally, equal: bool) -> Tally
    ensures { result ≡ counted_of tally equal }
{
    let Tally { compared, differ } = tally;
    let compared = one_more(compared);
    if equal {
        return Tally { compared, differ };
    }
    Tally {
        compared,
        differ: one_more(differ),
    }
}
