// Fill: the selected pixels of the active layer.
ghost use Rattle.std.specs.Prelude.{◌+◌, ◌*◌, ◌≤◌, length, slice_index};
ghost use Rattle.pixel.specs.Pixels.{pixel_lerp};
ghost use Rattle.pixel.specs.Bytes.{pixel_at, PixelsTo};
ghost use Rattle.page.specs.Edits.{fill};
ghost use Rattle.canvas.specs.View.{Room, PlaneEdited};

use crate::state::Canvas;
use pixel::Pixel;
use pixel::pixels::{lerp_pixel, read_pixel, write_pixel};

// The n pixels from `at` on, filled by how much each is selected by the bytes from `mask` on.
// Not step_pixels, whose step is not told which pixel it has, and so not which byte of the selection.
fn fill_pixels(tiles: &mut [u8], at: usize, mask: usize, n: usize, p: Pixel)
    requires { (at + 4 * n ≤ mask) × (mask + n ≤ length tiles.old) }
    ensures { PixelsTo (λ k. pixel_lerp (slice_index tiles.old (mask + k)) p (pixel_at tiles.old (at + 4 * k))) at n tiles.old tiles.new }
{
    let (planes, rest) = tiles.split_at_mut(mask);
    for (k, by) in rest[..n].iter().enumerate() {
        let old = read_pixel(planes, at + 4 * k);
        write_pixel(planes, at + 4 * k, lerp_pixel(*by, p, old));
    }
}

impl Canvas {
    // Fills what is selected of the active layer; only its plane is written.
    pub fn fill_selected(&self, tiles: &mut [u8], p: Pixel)
        requires { Room self.now.size tiles.old }
        ensures { PlaneEdited self.now (fill p) tiles.old tiles.new }
    {
        let n = self.size.area();
        fill_pixels(tiles, self.plane_of(self.active), 516 * n, n, p);
    }
}
