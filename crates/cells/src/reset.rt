// Tables brought back to what they were, or made ready, at the places of a list alone: a small volume costs little.
ghost use Rattle.std.specs.Prelude.{◌≡◌, ℕ, ◌≤◌, ◌<◌, length, get_or, replicate, take};
ghost use Rattle.model.specs.Values.{room};
ghost use Rattle.cells.specs.Places.{Assigned};

// Unmarks the first `count` places of `order`.
pub fn unmark(order: &[usize], count: usize, marks: &mut [u8])
    requires { (count ≤ room) × (count ≤ length order.now) × ((k : ℕ) → k < count → get_or order.now k 0 < length marks.old) }
    ensures { Assigned 0 (take count order.now) marks.old marks.new }
{
    // Those before i are unmarked.
    for i in 0..count {
        marks[order[i]] = 0;
    }
}

// Takes the numbers of the first `count` places of `order` away: 4,096 is none.
pub fn unnumber(order: &[usize], count: usize, numbers: &mut [usize])
    requires { (count ≤ room) × (count ≤ length order.now) × ((k : ℕ) → k < count → (get_or order.now k 0 < room) × (get_or order.now k 0 < length numbers.old)) }
    ensures { Assigned room (take count order.now) numbers.old numbers.new }
{
    // Those before i have none.
    for i in 0..count {
        numbers[order[i]] = 4096;
    }
}

// Clears a table.
pub fn clear(table: &mut [usize])
    requires { length table.old ≤ room }
    ensures { table.new ≡ replicate (length table.old) 0 }
{
    table.fill(0);
}
