// One pixel: laid on another, mixed, merged, read from bytes and written to them.
// Channel by channel, written out: alpha goes by another rule than the colours, and an array between bytes and a pixel would be one conversion more.
ghost use Rattle.std.specs.Prelude.{◌≡◌, ℕ, ◌+◌, ◌≤◌, length, if◌then◌else◌, nat_lt};
ghost use Rattle.pixel.specs.Pixels.{pixel_over, pixel_lerp, merged};
ghost use Rattle.pixel.specs.Modes.{mode_number};
ghost use Rattle.pixel.specs.Bytes.{pixel_at, put_pixel};

use crate::Pixel;
use crate::channels::{Channel, lerp_of, merge_of, mix_of, share_of};
use crate::modes::Mode;

// A pixel of a layer laid on what is seen below it.
pub fn lay_pixel(mode: Mode, opacity: u8, new: Pixel, old: Pixel) -> Pixel
    ensures { result ≡ pixel_over (mode_number mode) opacity new old }
{
    let by = share_of(new.alpha.into(), opacity.into());
    let below = Channel::from(old.alpha);
    Pixel {
        red: mix_of(mode, by, new.red.into(), old.red.into()).into(),
        green: mix_of(mode, by, new.green.into(), old.green.into()).into(),
        blue: mix_of(mode, by, new.blue.into(), old.blue.into()).into(),
        alpha: share_of(by.rest(), below.rest()).rest().into(),
    }
}

// New by how much is selected, old by the rest.
pub fn lerp_pixel(by: u8, new: Pixel, old: Pixel) -> Pixel
    ensures { result ≡ pixel_lerp by new old }
{
    let by = Channel::from(by);
    Pixel {
        red: lerp_of(by, new.red.into(), old.red.into()).into(),
        green: lerp_of(by, new.green.into(), old.green.into()).into(),
        blue: lerp_of(by, new.blue.into(), old.blue.into()).into(),
        alpha: lerp_of(by, new.alpha.into(), old.alpha.into()).into(),
    }
}

// The new pixel where one is selected, else the old one.
pub fn pick_pixel(on: u8, new: Pixel, old: Pixel) -> Pixel
    ensures { result ≡ (if nat_lt 0 on then new else old) }
{
    if on > 0 { new } else { old }
}

// A pixel of a layer merged into the one of the layer below.
pub fn merge_pixel(opacity: u8, new: Pixel, old: Pixel) -> Pixel
    ensures { result ≡ merged opacity new old }
{
    let above = share_of(new.alpha.into(), opacity.into());
    let below = Channel::from(old.alpha);
    let both = above.word + share_of(below, above.rest()).word;
    Pixel {
        red: merge_of(new.red.into(), above, old.red.into(), below, both).into(),
        green: merge_of(new.green.into(), above, old.green.into(), below, both).into(),
        blue: merge_of(new.blue.into(), above, old.blue.into(), below, both).into(),
        alpha: both.min(255) as u8,
    }
}

// The pixel whose four bytes begin at `at`.
pub fn read_pixel(bytes: &[u8], at: usize) -> Pixel
    requires { at + 4 ≤ length bytes.now }
    ensures { result ≡ pixel_at bytes.now at }
{
    Pixel {
        red: bytes[at],
        green: bytes[at + 1],
        blue: bytes[at + 2],
        alpha: bytes[at + 3],
    }
}

// Writes those four bytes, and no others.
pub fn write_pixel(bytes: &mut [u8], at: usize, p: Pixel)
    requires { at + 4 ≤ length bytes.old }
    ensures { bytes.new ≡ put_pixel bytes.old at p }
{
    bytes[at] = p.red;
    bytes[at + 1] = p.green;
    bytes[at + 2] = p.blue;
    bytes[at + 3] = p.alpha;
}
