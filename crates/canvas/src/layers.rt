// Edits of the layers: entries change places, and pixels stay where they are.
ghost use Rattle.std.specs.Prelude.{◌≡◌, ℕ, ◌+◌, ◌-◌, ◌<◌, ◌≤◌, List, MatchOption};
ghost use Rattle.page.specs.Edits.{add_layer, drop_layer, choose_layer, raise_layer, set_mode, set_opacity, set_visible};
ghost use Rattle.canvas.specs.Arranging.{from_lowered, from_raised, Reordered, Arranged, LayersEdited, LayersPainted};
ghost use Rattle.canvas.specs.View.{Room};

use crate::state::{Canvas, Layer};
use pixel::CLEAR;
use pixel::modes::Mode;
use pixel::runs::set_pixels;

// The entry at `hi` goes down to `lo`, and those from there on one up.
// Two functions and not one with a direction, which would be longer than both.
fn lower_entry(layers: &mut [Layer; 64], lo: usize, hi: usize)
    requires { (lo ≤ hi) × (hi < 64) }
    ensures { Reordered (from_lowered lo hi) layers.old layers.new }
{
    layers[lo..=hi].rotate_right(1);
}

// The entry at `lo` goes up to `hi`, and those up to there one down.
fn raise_entry(layers: &mut [Layer; 64], lo: usize, hi: usize)
    requires { (lo ≤ hi) × (hi < 64) }
    ensures { Reordered (from_raised lo hi) layers.old layers.new }
{
    layers[lo..=hi].rotate_left(1);
}

impl Canvas {
    // The layer above the active one, if there is one.
    fn above(&self) -> Option<usize>
        ensures { MatchOption result (self.now.count ≤ self.now.active + 1) (λ k. (k ≡ self.now.active + 1) × (k < self.now.count)) }
    {
        let above = self.active + 1;
        (above < self.count).then_some(above)
    }

    // A clear layer above the active one: the spare plane at `count` is cleared, and its entry comes into place.
    pub fn add_layer(&mut self, tiles: &mut [u8])
        requires { Room self.old.size tiles.old }
        ensures { LayersPainted self.old add_layer self.old.count tiles.old self.new tiles.new }
    {
        let count = self.count;
        if count >= 64 {
            return;
        }
        let n = self.size.area();
        set_pixels(tiles, self.plane_of(count), n, CLEAR);
        self.layers[count] = Layer::fresh(self.layers[count].plane);
        lower_entry(&mut self.layers, self.active + 1, count);
        self.count += 1;
        self.active += 1;
    }

    // Takes the active layer out: its entry goes behind the others, its plane is spare, and the one below becomes active, or the lowest.
    pub(crate) fn take_out(&mut self)
        requires { 1 < self.old.count }
        ensures { Arranged self.old self.old.layers (from_raised self.old.active (self.old.count - 1)) (self.old.count - 1) (self.old.active - 1) self.new }
    {
        self.count -= 1;
        raise_entry(&mut self.layers, self.active, self.count);
        self.active = self.active.saturating_sub(1);
    }

    // Drops the active layer, unless it is the last one.
    pub fn drop_layer(&mut self)
        ensures { (xs : List ℕ) → LayersEdited self.old drop_layer xs self.new xs }
    {
        if self.count > 1 {
            self.take_out();
        }
    }

    // Layer k becomes active, if there is one.
    pub fn choose_layer(&mut self, k: u8)
        ensures { (xs : List ℕ) → LayersEdited self.old (choose_layer k) xs self.new xs }
    {
        let k = usize::from(k);
        if k < self.count {
            self.active = k;
        }
    }

    // The active layer changes places with the one above it, if there is one.
    pub fn raise_layer(&mut self)
        ensures { (xs : List ℕ) → LayersEdited self.old raise_layer xs self.new xs }
    {
        let Some(above) = self.above() else {
            return;
        };
        raise_entry(&mut self.layers, self.active, above);
        self.active = above;
    }

    // The active layer's blend mode, if there is one of this number.
    // This and the next two are three functions: each sets a field of its own kind by a test of its own.
    pub fn set_mode(&mut self, m: u8)
        ensures { (xs : List ℕ) → LayersEdited self.old (set_mode m) xs self.new xs }
    {
        let Ok(mode) = Mode::try_from(m) else {
            return;
        };
        self.layers[self.active].mode = mode;
    }

    // Its opacity, if it is one.
    pub fn set_opacity(&mut self, a: u16)
        ensures { (xs : List ℕ) → LayersEdited self.old (set_opacity a) xs self.new xs }
    {
        let Ok(opacity) = u8::try_from(a) else {
            return;
        };
        self.layers[self.active].opacity = opacity;
    }

    // Whether it is visible.
    pub fn set_visible(&mut self, b: bool)
        ensures { (xs : List ℕ) → LayersEdited self.old (set_visible b) xs self.new xs }
    {
        self.layers[self.active].visible = b;
    }
}
