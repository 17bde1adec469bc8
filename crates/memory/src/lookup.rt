// The place of a serial among darts in ascending serial, by halving.
ghost use Rattle.std.specs.Prelude.{◌≡◌, ◌≤◌, length};
ghost use Rattle.laws.specs.Order.{Ascending};
ghost use Rattle.model.specs.Image.{words_for, column};
ghost use Rattle.memory.specs.Lookup.{place_in};

use crate::record;
use crate::record::{Place, Record};

// The place of the dart with this serial among the first n; none where no dart has it.
pub fn place_of(block: &[u64], n: usize, serial: u64) -> Option<Place>
    requires { (words_for n ≤ length block.now) × Ascending n (column block.now 0) }
    ensures { result ≡ place_in (column block.now 0) n serial }
{
    if n == 0 {
        return None;
    }
    // A place with this serial is one of `left` places from `low` on.
    let mut low = 0;
    let mut left = n;
    while 1 < left {
        let half = left / 2;
        let mid = low + half;
        if record::field(block, Place(mid), Record::SERIAL) <= serial {
            low = mid;
        }
        left -= half;
    }
    if record::field(block, Place(low), Record::SERIAL) == serial {
        return Some(Place(low));
    }
    None
}
