// One channel, in a word of 32 bits while it is worked on.
ghost use Rattle.std.specs.Prelude.{◌≡◌, ℕ, ◌+◌, ◌-◌, ◌*◌, ◌<◌, ◌≤◌};
ghost use Rattle.pixel.specs.Channels.{share, blended, lerp, mixed, merged_channel};
ghost use Rattle.pixel.specs.Modes.{mode_number};

use crate::modes::Mode;

// What a channel holds, 0 to 255, in a word that has room for sums and products.
#[derive(Clone, Copy, Debug, PartialEq, Eq)]
pub struct Channel {
    pub word: u32,
    ghost fits: { word < 256 },
}

impl From<u8> for Channel {
    ghost from_gives = { λ byte channel. channel.word ≡ byte };

    fn from(byte: u8) -> Channel {
        Channel {
            word: u32::from(byte),
        }
    }
}

impl From<Channel> for u8 {
    ghost from_gives = { λ channel byte. byte ≡ channel.word };

    fn from(channel: Channel) -> u8 {
        channel.word as u8
    }
}

impl Channel {
    // What is left of 255.
    pub fn rest(self) -> Channel
        ensures { result.word ≡ 255 - self.word }
    {
        Channel {
            word: 255 - self.word,
        }
    }
}

// A share of 255, rounded to nearest.
pub fn share_of(a: Channel, b: Channel) -> Channel
    ensures { result.word ≡ share a.word b.word }
{
    Channel {
        word: (a.word * b.word + 127) / 255,
    }
}

// A new channel on an old one.
pub fn blend_of(mode: Mode, new: Channel, old: Channel) -> Channel
    ensures { result.word ≡ blended (mode_number mode) new.word old.word }
{
    match mode {
        Mode::Normal => new,
        Mode::Multiply => share_of(new, old),
        Mode::Screen => share_of(new.rest(), old.rest()).rest(),
        Mode::Darken => Channel {
            word: new.word.min(old.word),
        },
        Mode::Lighten => Channel {
            word: new.word.max(old.word),
        },
        Mode::Add => Channel {
            word: (new.word + old.word).min(255),
        },
    }
}

// New by so much of 255, old by the rest.
pub fn lerp_of(by: Channel, new: Channel, old: Channel) -> Channel
    ensures { result.word ≡ lerp by.word new.word old.word }
{
    Channel {
        word: (new.word * by.word + old.word * by.rest().word + 127) / 255,
    }
}

// Old, with so much of the blended channel.
pub fn mix_of(mode: Mode, by: Channel, new: Channel, old: Channel) -> Channel
    ensures { result.word ≡ mixed (mode_number mode) by.word new.word old.word }
{
    lerp_of(by, blend_of(mode, new, old), old)
}

// A channel merged into the one below: `above` and `below` are the alphas that they are weighed by, `both` that of the two together.
pub fn merge_of(new: Channel, above: Channel, old: Channel, below: Channel, both: u32) -> Channel
    requires { both < 512 }
    ensures { result.word ≡ merged_channel new.word above.word old.word below.word both }
{
    if both == 0 {
        return Channel { word: 0 };
    }
    let colours = new.word * above.word * 255 + old.word * below.word * above.rest().word;
    Channel {
        word: ((colours + 255 * both / 2) / (255 * both)).min(255),
    }
}
