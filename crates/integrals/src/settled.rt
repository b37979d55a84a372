// What comes of the series, with the turns that they took.
ghost use Rattle.std.specs.Prelude.{◌≡◌};
ghost use Rattle.integrals.specs.Settled.{at_once, larger_turns, with_turns};

// The turns of each series.
#[derive(Clone, Copy)]
pub struct Turns {
    pub ci: u32,
    pub si: u32,
}

impl Turns {
    // Where no series is taken.
    pub const NONE: Turns = Turns { ci: 0, si: 0 };

    // Of each series the larger number.
    pub fn max(self, other: Turns) -> Turns
        ensures { result ≡ larger_turns self other }
    {
        Turns {
            ci: self.ci.max(other.ci),
            si: self.si.max(other.si),
        }
    }
}

// None in its place where a series did not settle.
#[derive(Clone, Copy)]
pub struct Settled<T> {
    pub value: T,
    pub turns: Turns,
}

impl<T: Copy> Settled<T> {
    // What takes no series.
    pub fn at_once(value: T) -> Settled<T>
        ensures { result ≡ at_once value }
    {
        Settled {
            value,
            turns: Turns::NONE,
        }
    }

    // What was computed from this, by no further turns.
    pub fn with<U>(self, value: U) -> Settled<U>
        ensures { result ≡ with_turns self value }
    {
        Settled {
            value,
            turns: self.turns,
        }
    }
}
