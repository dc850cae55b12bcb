// Pixels: channel arithmetic, blend modes, pixels in lent bytes and the loops over them.
#![tactic(auto)]

pub mod areas;
pub mod channels;
pub mod modes;
pub mod pixels;
pub mod runs;
pub mod sizes;

// A pixel: red, green, blue, and alpha, how much it covers; 0 to 255 each.
#[derive(Clone, Copy, Debug, PartialEq, Eq)]
pub struct Pixel {
    pub red: u8,
    pub green: u8,
    pub blue: u8,
    pub alpha: u8,
}

pub const CLEAR: Pixel = Pixel {
    red: 0,
    green: 0,
    blue: 0,
    alpha: 0,
};

pub const WHITE: Pixel = Pixel {
    red: 255,
    green: 255,
    blue: 255,
    alpha: 255,
};
