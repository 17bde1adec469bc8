// Check mesh: questions 1, 2 and 23 to 27 of a whole mesh, in their order.
#![tactic(auto)]

ghost use Rattle.std.specs.Prelude.{◌≡◌};
ghost use Rattle.model.specs.Values.{limits_in};
ghost use Rattle.model.specs.Calls.{whole_mesh_checks, check_mesh};
ghost use Rattle.answers.specs.Answers.{answer_of, answered, Gives};

use answers::{Answer, Refusal};
use pairing::Pairing;

// Questions 1, 2 and 23 to 27 alone. Bit b of `viewers` says that the block numbered b is a viewer's.
pub fn mesh_asked(mesh: &[u64], viewers: u32, scratch: &mut [u64]) -> Answer
    ensures { (answer_of result ≡ answered (whole_mesh_checks (limits_in viewers) mesh.now scratch.old)) × (scratch.new ≡ scratch.old) }
{
    if !mesh::mesh_lent(mesh, scratch) {
        return Err(Refusal::MemorySize);
    }
    if !mesh::all_sound(mesh, viewers) {
        return Err(Refusal::NotAnImage);
    }
    if !mesh::blocks_right(mesh) {
        return Err(Refusal::BlockNumbers);
    }
    if !mesh::serials::serials_distinct(mesh, scratch) {
        return Err(Refusal::SerialsRepeated);
    }
    let p = pairing::paired(mesh, scratch);
    match p {
        Pairing::Unpaired => {
            return Err(Refusal::LabelsUnpaired);
        }
        Pairing::Apart => {
            return Err(Refusal::PointsAcross);
        }
        Pairing::Right => {
            if !mesh::makers::makers_right(mesh) {
                return Err(Refusal::MakersWrong);
            }
            return Ok(());
        }
    }
}

// Check mesh: is it sound? The scratch is zero before and after.
pub fn check_mesh(mesh: &[u64], viewers: u32, scratch: &mut [u64]) -> Answer
    ensures { Gives (check_mesh (limits_in viewers) mesh.now scratch.old) (answer_of result) scratch.new }
{
    mesh_asked(mesh, viewers, scratch)
}
