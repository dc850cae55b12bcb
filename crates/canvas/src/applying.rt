// One edit of any kind that a canvas does itself.
ghost use Rattle.codec.specs.Meaning.{edit_of};
ghost use Rattle.canvas.specs.Applying.{known, Applied};
ghost use Rattle.canvas.specs.View.{Room};

use crate::state::Canvas;
use codec::edits::Edit;

// One edit, if it is of a kind that there is; `source` holds its points or numbers.
#[tactic(auto, unfolding(page::specs::Fits::kind))]
pub fn apply(canvas: &mut Canvas, tiles: &mut [u8], edit: Edit, source: &[u8])
    requires { Room canvas.old.size tiles.old }
    ensures { Applied canvas.old (known (edit_of source.now edit)) tiles.old canvas.new tiles.new }
{
    match edit {
        Edit::AddLayer => canvas.add_layer(tiles),
        Edit::DropLayer => canvas.drop_layer(),
        Edit::ChooseLayer(k) => canvas.choose_layer(k),
        Edit::RaiseLayer => canvas.raise_layer(),
        Edit::SetMode(m) => canvas.set_mode(m),
        Edit::SetOpacity(a) => canvas.set_opacity(a),
        Edit::SetVisible(b) => canvas.set_visible(b),
        Edit::MergeDown => canvas.merge_down(tiles),
        Edit::SelectAll => canvas.select_all(tiles),
        Edit::SelectRect(rect) => canvas.select_rect(tiles, rect),
        Edit::SelectInverse => canvas.select_inverse(tiles),
        Edit::Fill(p) => canvas.fill_selected(tiles, p),
        Edit::SelectSimilar { .. }
        | Edit::Stroke { .. }
        | Edit::ApplyFilter(_)
        | Edit::Copy
        | Edit::Paste { .. } => {}
    }
}
