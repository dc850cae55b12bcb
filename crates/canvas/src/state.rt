// The canvas: its size, and its layers from below. Pixels lie in lent memory; entries past `count` hold the spare planes.
ghost use Rattle.std.specs.Prelude.{◌≡◌, ℕ, ◌<◌, ◌≤◌, length, slice_index_or};
ghost use Rattle.canvas.specs.declared.state.Layer.{Layer};

use pixel::modes::Mode;
use pixel::sizes::Size;

// A layer: the plane of the lent memory that holds its pixels, and how it is laid on what is below.
// `plane < 64` is a ghost field of Canvas and not of Layer, since the definitions make layers with any plane.
#[derive(Clone, Copy, Debug, PartialEq, Eq)]
pub struct Layer {
    pub plane: u8,
    pub mode: Mode,
    pub opacity: u8,
    pub visible: bool,
}

impl Layer {
    ghost use Rattle.canvas.specs.View.{fresh};

    // A new layer, whose pixels lie in this plane.
    pub fn fresh(plane: u8) -> Layer
        ensures { result ≡ fresh plane }
    {
        Layer {
            plane,
            mode: Mode::Normal,
            opacity: 255,
            visible: true,
        }
    }
}

// Its layers are an array with a count: the editor allocates nothing, and the entries behind the count hold the spare planes.
// The lent bytes are a parameter beside it: they are lent to each call anew, and a struct with both loans would have to say in each contract that it still holds the same ones.
#[derive(Drop)]
pub struct Canvas {
    pub size: Size,
    pub layers: [Layer; 64],
    pub count: usize,
    pub active: usize,
    ghost full: { length layers ≡ 64 },
    ghost counted: { (active < count) × (count ≤ 64) },
    ghost planes: { (k : ℕ) (d : Layer) → k < 64 → (slice_index_or layers k d).plane < 64 },
    ghost distinct: { (p : ℕ × ℕ × Layer) → (p.0 < 64) × (p.1 < 64) × ((slice_index_or layers p.0 p.2).plane ≡ (slice_index_or layers p.1 p.2).plane) → p.0 ≡ p.1 },
}
