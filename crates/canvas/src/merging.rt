// Merge down: the active layer laid plainly on the one below, into whose plane it goes.
ghost use Rattle.std.specs.Prelude.{◌≡◌, ◌+◌, ◌-◌, MatchOption};
ghost use Rattle.page.specs.Edits.{merge_down};
ghost use Rattle.canvas.specs.Arranging.{LayersPainted};
ghost use Rattle.canvas.specs.View.{Room};

use crate::state::Canvas;
use pixel::pixels::merge_pixel;
use pixel::runs::step_pixels;

impl Canvas {
    // The layer below the active one, if there is one.
    fn below(&self) -> Option<usize>
        ensures { MatchOption result (self.now.active ≡ 0) (λ k. k + 1 ≡ self.now.active) }
    {
        self.active.checked_sub(1)
    }

    // Merges the active layer into the one below, which becomes active; whatever its mode, and whether or not it is visible.
    pub fn merge_down(&mut self, tiles: &mut [u8])
        requires { Room self.old.size tiles.old }
        ensures { LayersPainted self.old merge_down (self.old.active - 1) tiles.old self.new tiles.new }
    {
        let Some(below) = self.below() else {
            return;
        };
        let n = self.size.area();
        let opacity = self.layers[self.active].opacity;
        let at = self.plane_of(below);
        let from = self.plane_of(self.active);
        step_pixels(
            tiles,
            from,
            at,
            n,
            |new, old| merge_pixel(opacity, new, old),
        );
        self.take_out();
    }
}
