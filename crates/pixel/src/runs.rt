// Loops that write a run of pixels or bytes, over the whole lent slice from a base offset on. Every other byte stays.
// `at` and `n` are two parameters, since functions over two runs of one length share `n`.
// Pixels are written by their places: the library's as_chunks_mut says nothing of what the whole slice ends as.
ghost use Rattle.std.specs.Prelude.{◌≡◌, ℕ, ◌+◌, ◌*◌, ◌<◌, ◌≤◌, ◌⊎◌, length, ◌==◌, slice_index};
ghost use Rattle.pixel.specs.Bytes.{pixel_at, PixelsTo, PixelsBy, BytesTo};

use crate::Pixel;
use crate::pixels::{read_pixel, write_pixel};

// n pixels from `at` on, all the same.
pub fn set_pixels(bytes: &mut [u8], at: usize, n: usize, p: Pixel)
    requires { at + 4 * n ≤ length bytes.old }
    ensures { PixelsTo (λ k. p) at n bytes.old bytes.new }
{
    for k in 0..n {
        write_pixel(bytes, at + 4 * k, p);
    }
}

// n pixels from `from` on, to `to` on; the two runs may overlap.
pub fn copy_pixels(bytes: &mut [u8], from: usize, to: usize, n: usize)
    requires { (from + 4 * n ≤ length bytes.old) × (to + 4 * n ≤ length bytes.old) }
    ensures { PixelsTo (λ k. pixel_at bytes.old (from + 4 * k)) to n bytes.old bytes.new }
{
    bytes.copy_within(from..from + 4 * n, to);
}

// n bytes from `at` on, all the same.
pub fn set_bytes(bytes: &mut [u8], at: usize, n: usize, b: u8)
    requires { at + n ≤ length bytes.old }
    ensures { BytesTo (λ k. b) at n bytes.old bytes.new }
{
    bytes[at..at + n].fill(b);
}

// The bytes of `from`, to `at` on.
pub fn copy_bytes(bytes: &mut [u8], at: usize, from: &[u8])
    requires { at + length from.now ≤ length bytes.old }
    ensures { BytesTo (λ k. slice_index from.now k) at (length from.now) bytes.old bytes.new }
{
    bytes[at..at + from.len()].copy_from_slice(from);
}

// Whether there are no bytes. It also says that each is below 256, for proofs about a slice that is only lent on.
pub fn no_bytes(bytes: &[u8]) -> bool
    ensures is { result ≡ (length bytes.now == 0) }
    ensures small { (k : ℕ) → slice_index bytes.now k < 256 }
{
    bytes.is_empty()
}

// Each of the n pixels from `at` on becomes `step(p, q)`, where q is that pixel and p the one at the same place of the run from `from` on. The runs do not overlap.
pub fn step_pixels<F: Fn(Pixel, Pixel) -> Pixel>(
    bytes: &mut [u8],
    from: usize,
    at: usize,
    n: usize,
    step: F,
)
    requires callable { F.IsAlwaysCallable step }
    requires lies { (at + 4 * n ≤ length bytes.old) × ((from + 4 * n ≤ length bytes.old) × ((at + 4 * n ≤ from) ⊎ (from + 4 * n ≤ at))) }
    ensures { PixelsBy (F.post step) from at n bytes.old bytes.new }
{
    for k in 0..n {
        let mate = read_pixel(bytes, from + 4 * k);
        let here = read_pixel(bytes, at + 4 * k);
        write_pixel(bytes, at + 4 * k, step(mate, here));
    }
}
