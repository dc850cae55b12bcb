// Where things lie in the lent memory of a page of n pixels: planes of 4 n bytes from 0 on, the selection at 516 n, the clipboard at 517 n.
ghost use Rattle.std.specs.Prelude.{◌≡◌, ◌+◌, ◌*◌, ◌<◌, ◌≤◌, slice_index_or};
ghost use Rattle.canvas.specs.View.{plane_at, no_entry, shows};

use crate::state::{Canvas, Layer};

impl Canvas {
    // Where the plane of layer k begins.
    pub fn plane_of(&self, k: usize) -> usize
        requires { k < 64 }
        ensures is { result ≡ plane_at (self.now.size.wide * self.now.size.high) (slice_index_or self.now.layers k no_entry).plane }
        ensures ends { result + 4 * (self.now.size.wide * self.now.size.high) ≤ 256 * (self.now.size.wide * self.now.size.high) }
    {
        self.start_of(self.layers[k])
    }

    // Where a layer's plane begins.
    pub fn start_of(&self, layer: Layer) -> usize
        requires { layer.plane < 64 }
        ensures is { result ≡ plane_at (self.now.size.wide * self.now.size.high) layer.plane }
        ensures ends { result + 4 * (self.now.size.wide * self.now.size.high) ≤ 256 * (self.now.size.wide * self.now.size.high) }
    {
        4 * self.size.area() * usize::from(layer.plane)
    }

    // Whether the page has a pixel in column x and row y, and lies wholly in so many bytes.
    pub fn shows(&self, bytes: usize, x: usize, y: usize) -> bool
        ensures { result ≡ shows self.now bytes x y }
    {
        x < self.size.wide && y < self.size.high && bytes >= 544 * self.size.area()
    }
}
