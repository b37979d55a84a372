// How many elements of a bay are taken.
ghost use Rattle.std.specs.Prelude.{◌≡◌, ◌≤◌};
ghost use Rattle.curtain.specs.Elements.{at_most_ten};

// As many as the arrays hold.
#[derive(Clone, Copy)]
pub(crate) struct ElementCount {
    pub m: usize,
    ghost at_most_ten: { m ≤ 10 },
}

// A card that was made elsewhere may have more.
pub(crate) fn at_most_ten(m: u8) -> ElementCount
    ensures { result.m ≡ at_most_ten m }
{
    ElementCount {
        m: m.min(10) as usize,
    }
}
