// The points of a new dart, in the draft, and those of the dart of the block that it meets.
ghost use Rattle.std.specs.Prelude.{◌≡◌, ◌+◌, ◌≤◌, length};
ghost use Rattle.model.specs.Image.{words_for, column};
ghost use Rattle.memory.specs.Point.{FiniteAt};
ghost use Rattle.parts.specs.Meets.{meet_at};

use memory::point;
use memory::record::Place;
use place::DraftPlace;

// Whether the points of the new dart at place p of the draft agree with those of the dart at place w of the block that it meets.
pub fn meet_at(block: &[u64], draft: &[u64], p: DraftPlace, w: Place) -> bool
    requires p_in_bounds { (words_for (p.0 + 1) ≤ length draft.now) × (words_for (w.0 + 1) ≤ length block.now) × (words_for (column draft.now 1 p.0 + 1) ≤ length draft.now) × (words_for (column block.now 1 w.0 + 1) ≤ length block.now) }
    requires finite_at { FiniteAt draft.now p.0 × FiniteAt draft.now (column draft.now 1 p.0) × FiniteAt block.now w.0 × FiniteAt block.now (column block.now 1 w.0) }
    ensures { result ≡ meet_at block.now draft.now p.0 w.0 }
{
    let v = place::next_of(block, w);
    let q = place::draft_next(draft, p);
    let tails = point::same_point(place::draft_point(draft, p), point::point_at(block, v));
    let heads = point::same_point(point::point_at(block, w), place::draft_point(draft, q));
    tails & heads
}
