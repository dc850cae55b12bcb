// How large a page can be.
ghost use Rattle.std.specs.Prelude.{◌≡◌, ◌*◌, ◌≤◌, ◌<◌, ◌⊎◌, MatchOption};

// The most pixels that a page has across, or down.
pub const MOST: usize = 4096;

// How many pixels a page has across and down.
#[derive(Clone, Copy, Debug, PartialEq, Eq)]
pub struct Size {
    pub wide: usize,
    pub high: usize,
    ghost sized: { (1 ≤ wide) × (wide ≤ 4096) × (1 ≤ high) × (high ≤ 4096) },
}

impl Size {
    // How many pixels the page has.
    pub fn area(self) -> usize
        ensures is { result ≡ self.wide * self.high }
        ensures most { result ≤ 16777216 }
    {
        area(self.wide, self.high)
    }
}

// How many pixels `wide` columns and `high` rows have; unlike a Size's sides, either may be 0.
pub fn area(wide: usize, high: usize) -> usize
    requires { (wide ≤ 4096) × (high ≤ 4096) }
    ensures is { result ≡ wide * high }
    ensures most { result ≤ 16777216 }
{
    high * wide
}
