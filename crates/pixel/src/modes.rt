// Blend modes: how a layer's colours come to lie on what is below.
ghost use Rattle.std.specs.Prelude.{◌≡◌, ◌++◌, codes, decimal, Some};
ghost use Rattle.pixel.specs.Modes.{mode_number, Decodes};

use std::error::Error;
use std::fmt;

#[derive(Clone, Copy, Debug, PartialEq, Eq)]
pub enum Mode {
    Normal,
    Multiply,
    Screen,
    Darken,
    Lighten,
    Add,
}

// A number that no mode has.
#[derive(Clone, Copy, Debug, PartialEq, Eq)]
pub struct NoMode(pub u8);

impl TryFrom<u8> for Mode {
    type Error = NoMode;

    ghost try_from_gives = { Decodes };

    fn try_from(byte: u8) -> Result<Mode, NoMode> {
        match byte {
            0 => Ok(Mode::Normal),
            1 => Ok(Mode::Multiply),
            2 => Ok(Mode::Screen),
            3 => Ok(Mode::Darken),
            4 => Ok(Mode::Lighten),
            5 => Ok(Mode::Add),
            _ => Err(NoMode(byte)),
        }
    }
}

impl From<Mode> for u8 {
    ghost from_gives = { λ mode byte. byte ≡ mode_number mode };

    fn from(mode: Mode) -> u8 {
        mode as u8
    }
}

impl fmt::Display for NoMode {
    ghost output = { λ e. Some (codes "no blend mode has the number " ++ decimal e.0) };

    fn fmt<W: fmt::Write>(&self, f: &mut fmt::Formatter<W>) -> fmt::Result {
        write!(f, "no blend mode has the number {}", self.0)
    }
}

impl Error for NoMode {}
