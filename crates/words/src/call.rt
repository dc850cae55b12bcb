// The command line of a program that takes turns: `new W H` or `open FILE`, and then `--save FILE` and `--size N` in any order, each at most once.
ghost use Rattle.std.specs.Prelude.{◌≤◌};
ghost use Rattle.std.specs.Option.{ForSome};

pub use crate::asking::{read_call, read_size};

// Pages of up to so many pixels across and down, unless the call asks for more.
pub const SIZE: usize = 64;

// Where the page comes from.
#[derive(Clone, Copy, Debug, PartialEq, Eq)]
pub enum Source<'a> {
    New { wide: usize, high: usize },
    Open(&'a str),
}

// What a call asks for: a page, where it is saved after the turns, and how large pages may be.
#[derive(Clone, Copy, Debug, PartialEq, Eq)]
pub struct Call<'a> {
    pub source: Source<'a>,
    pub save: Option<&'a str>,
    pub size: Option<usize>,
    ghost sized: { ForSome size (λ n. n ≤ 4096) },
}
