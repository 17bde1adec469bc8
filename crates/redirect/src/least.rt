// Along a face: its least label, and a number given to its darts.
ghost use Rattle.std.specs.Prelude.{◌≡◌, ◌≤◌, ◌<◌, length};
ghost use Rattle.model.specs.Cells.{cycle};
ghost use Rattle.model.specs.Image.{column};
ghost use Rattle.cells.specs.Places.{Linked, Assigned};
ghost use Rattle.redirect.specs.ByPlaces.{face_code};

use memory::record;
use memory::record::{Place, Record};

// The least link word along the face of the dart at place `start`.
pub fn face_code(block: &[u64], n: usize, start: Place) -> u64
    requires { Linked block.now n × (start.0 < n) }
    ensures { result ≡ face_code block.now start.0 }
{
    // `least` is that of the darts from `start` up to the one before p, `steps` of them.
    let first = start.0;
    let mut least = record::field(block, start, Record::LINK);
    let mut steps: usize = 0;
    let mut p = first;
    loop {
        let code = record::field(block, Place(p), Record::LINK);
        least = sort::lesser(least, code);
        steps += 1;
        p = record::field(block, Place(p), Record::NEXT) as usize;
        if p == first {
            return least;
        }
    }
}

// Gives the darts of the face of the dart at place `start` a number.
pub fn assign_face(block: &[u64], n: usize, start: Place, number: u16, table: &mut [u16])
    requires { Linked block.now n × (start.0 < n) × (n ≤ length table.old) }
    ensures { Assigned number (cycle (column block.now 1) start.0) table.old table.new }
{
    // The darts from `start` up to the one before p, `steps` of them, have the number.
    let first = start.0;
    let mut steps: usize = 0;
    let mut p = first;
    loop {
        table[p] = number;
        steps += 1;
        p = record::field(block, Place(p), Record::NEXT) as usize;
        if p == first {
            return;
        }
    }
}
