// The layers of a canvas laid on a tile, in place: each row of a layer's plane on the row of the tile that shows it.
ghost use Rattle.std.specs.Prelude.{◌≡◌, ℕ, ◌<◌, length, slice_index};
ghost use Rattle.tiles.specs.Laying.{LiesIn, White, Over, Laid};
ghost use Rattle.tiles.specs.Places.{SeenTo, TileBuilt};

use crate::layout::Tile;
use canvas::state::Layer;
use pixel::pixels::lay_pixel;
use pixel::runs::step_pixels;

// A tile that shows no layer yet.
fn whiten(tile: &mut [u8])
    ensures { (k : ℕ) → k < length tile.old → slice_index tile.new k ≡ 255 }
{
    tile.fill(255);
}

impl Tile<'_> {
    // A layer laid on the tile.
    fn lay_rows(&self, tiles: &mut [u8], layer: Layer)
        requires { (layer.plane < 64) × (LiesIn self.now tiles.old) }
        ensures { Over layer self.now tiles.old tiles.new }
    {
        let wide = self.canvas.size.wide;
        let from = self.canvas.start_of(layer) + 4 * (self.area.top * wide + self.area.left);
        // Rows by their numbers, as bands and tiles are in a page: they lie apart in it, and are items of no slice.
        for r in 0..self.area.high {
            step_pixels(
                tiles,
                from + 4 * (r * wide),
                self.at + 4 * (r * self.area.wide),
                self.area.wide,
                |new, old| lay_pixel(layer.mode, layer.opacity, new, old),
            );
        }
    }

    // The same, unless it would change nothing: where the layer is not visible, or its opacity is 0.
    fn lay_layer(&self, tiles: &mut [u8], layer: Layer)
        requires { (layer.plane < 64) × (LiesIn self.now tiles.old) }
        ensures { Laid layer self.now tiles.old tiles.new }
    {
        if !layer.visible || layer.opacity == 0 {
            return;
        }
        self.lay_rows(tiles, layer);
    }

    // All layers, from below, laid on a white tile.
    fn lay_layers(&self, tiles: &mut [u8])
        requires { (LiesIn self.now tiles.old) × (White self.now tiles.old) }
        ensures { SeenTo self.now.canvas.now self.now.area self.now.at tiles.old tiles.new }
    {
        for layer in &self.canvas.layers[..self.canvas.count] {
            self.lay_layer(tiles, *layer);
        }
    }

    // White, and then the layers on it.
    pub fn build(&self, tiles: &mut [u8])
        requires { LiesIn self.now tiles.old }
        ensures { TileBuilt self.now.canvas.now self.now.area tiles.old tiles.new }
    {
        whiten(&mut tiles[self.at..self.at + 4 * (self.area.high * self.area.wide)]);
        self.lay_layers(tiles);
    }
}
