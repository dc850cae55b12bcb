// The editor's own few numbers; all else is in the lent memory.
ghost use Rattle.std.specs.Prelude.{◌+◌, ◌≤◌};

use history::moves::Timeline;

#[derive(Drop)]
pub struct Editor {
    pub timeline: Timeline,
    pub taken: usize,
    ghost counted: { (timeline.done + timeline.undone ≤ taken) × (taken ≤ 65536) },
}
