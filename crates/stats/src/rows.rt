// The figures of each cell of a block, a row of 19 words for each, in order of least serial: serial, darts, faces, and for each
// block how many of the cell's faces are critical with it.
ghost use Rattle.std.specs.Prelude.{◌≡◌, true, false, ℕ, ◌+◌, ◌*◌, ◌/◌, ◌≤◌, ◌<◌, ◌^◌, length, get_or, set};
ghost use Rattle.model.specs.Lists.{keep, tab};
ghost use Rattle.model.specs.Values.{room};
ghost use Rattle.model.specs.Image.{words_for, column, other_in, holds_block};
ghost use Rattle.cells.specs.Places.{Linked};
ghost use Rattle.stats.specs.BlockCounts.{critical_at};
ghost use Rattle.stats.specs.Groups.{Grouped};
ghost use Rattle.stats.specs.Rows.{told_rows, cells_told, rows_after};
ghost use Rattle.stats.specs.Counting.{head_word, CountHeaded, cell_word, critical_word, Countable, CountTold};
ghost use Rattle.stats.specs.Counting.{face_starts, CountStarted, FacesCounted, Bordering};

use crate::{critical, groups};
use memory::header::Header;
use memory::record::{Place, Record};
use memory::{kind, record};

// Why no cells are told: there is no room for their rows; or the memory is no sound block's image.
#[derive(Clone, Copy)]
pub enum Untold {
    Short,
    Unsound,
}

// Word i of the rows before anything is counted: a cell's least serial at the start of its row, 0 elsewhere.
fn first_word(block: &[u64], firsts: &[usize], i: usize) -> u64
    requires { (i < 19 * room) × (i < 19 * length firsts.now) × (words_for (get_or firsts.now (i / 19) 0 + 1) ≤ length block.now) }
    ensures { result ≡ head_word block.now firsts.now i }
{
    if i % 19 != 0 {
        return 0;
    }
    let c = i / 19;
    let p = firsts[c];
    record::field(block, Place(p), Record::SERIAL)
}

// Starts the rows: the first `end` words.
fn start_rows(block: &[u64], firsts: &[usize], end: usize, rows: &mut [u64])
    requires end_bound { (end ≤ 19 * room) × (end ≤ 19 * length firsts.now) × (end ≤ length rows.old) }
    requires by_index { (i : ℕ) → i < end → words_for (get_or firsts.now (i / 19) 0 + 1) ≤ length block.now }
    ensures { CountHeaded block.now firsts.now end rows.old rows.new }
{
    // The words before i are started.
    for i in 0..end {
        rows[i] = first_word(block, firsts, i);
    }
}

// Adds one to word i.
fn add_one(rows: &mut [u64], i: usize)
    requires { (i < length rows.old) × (i < 19 * room) × (get_or rows.old i 0 ≤ 2 ^ 34) }
    ensures { rows.new ≡ set rows.old i (get_or rows.old i 0 + 1) }
{
    let n = rows[i];
    rows[i] = n + 1;
}

// Where word j of the row of the cell of place p stands.
fn word_at(numbers: &[usize], p: Place, j: usize) -> usize
    requires { (p.0 < room) × (p.0 < length numbers.now) × (0 < get_or numbers.now p.0 0)
        × (get_or numbers.now p.0 0 ≤ room) × (j < 19) }
    ensures { result ≡ cell_word numbers.now j p.0 }
{
    let i = p.0;
    19 * (numbers[i] - 1) + j
}

// Counts the darts of each cell.
fn count_darts(block: &[u64], numbers: &[usize], rows: &mut [u64])
    requires { Linked block.now (get_or block.now 2 0) × Countable (2 ^ 33) block.now numbers.now rows.old }
    ensures { CountTold (cell_word numbers.now 1) (tab (λ p. p) (get_or block.now 2 0))
        rows.old rows.new }
{
    let n = block[Header::COUNT] as usize;
    // The darts before p are counted.
    for p in 0..n {
        add_one(rows, word_at(numbers, Place(p), 1));
    }
}

// The place that face f starts at.
fn start_at(out: &[usize], starts: &[usize], f: usize) -> Place
    requires { (f < room) × (f < length starts.now) × (get_or starts.now f 0 < room) × (get_or starts.now f 0 < length out.now) }
    ensures { result.0 ≡ get_or out.now (get_or starts.now f 0) 0 }
{
    let i = starts[f];
    Place(out[i])
}

// Counts the faces of each cell, by their starts.
fn count_faces(
    block: &[u64],
    numbers: &[usize],
    out: &[usize],
    starts: &[usize],
    faces: usize,
    rows: &mut [u64],
)
    requires linked { Linked block.now (get_or block.now 2 0) × Countable (2 ^ 33) block.now numbers.now rows.old }
    requires count_started { CountStarted block.now out.now starts.now faces }
    ensures { CountTold (cell_word numbers.now 2) (face_starts block.now)
        rows.old rows.new }
{
    // The faces before f are counted.
    for f in 0..faces {
        let p = start_at(out, starts, f);
        add_one(rows, word_at(numbers, p, 2));
    }
}

// The word of a row for the block that the dart at place p, which is critical, is critical with.
fn border_word(block: &[u64], p: Place) -> usize
    requires { words_for (p.0 + 1) ≤ length block.now }
    ensures { result ≡ 3 + other_in (column block.now 3 p.0) }
{
    3 + kind::other_of(record::field(block, p, Record::KIND)) as usize
}

// Counts the critical faces of each cell, by the block that they are critical with.
fn count_critical(
    block: &[u64],
    numbers: &[usize],
    out: &[usize],
    starts: &[usize],
    faces: usize,
    rows: &mut [u64],
)
    requires linked { Linked block.now (get_or block.now 2 0) × Countable (2 ^ 33) block.now numbers.now rows.old }
    requires count_started { CountStarted block.now out.now starts.now faces × Bordering block.now }
    ensures { CountTold (critical_word block.now numbers.now)
        (keep (critical_at block.now) (face_starts block.now)) rows.old rows.new }
{
    // The critical faces before f are counted.
    for f in 0..faces {
        let p = start_at(out, starts, f);
        if !critical::is_critical(block, p) {
            continue;
        }
        add_one(rows, word_at(numbers, p, border_word(block, p)));
    }
}

// Counts the faces of each cell of a sound block, and those that are critical.
fn tell_faces(block: &[u64], numbers: &[usize], rows: &mut [u64])
    requires { (holds_block block.now ≡ true) × Countable (2 ^ 32 + room) block.now numbers.now rows.old }
    ensures { FacesCounted block.now numbers.now rows.old rows.new }
{
    let n = block[Header::COUNT] as usize;
    let marks = [1u8; Header::DARTS];
    let mut out = [0usize; Header::DARTS];
    let mut starts = [0usize; Header::DARTS];
    let mut seen = [0u8; Header::DARTS];
    let order = cells::order::scanned_order(
        block,
        n,
        n,
        Place(0),
        &marks,
        &mut out,
        &mut starts,
        &mut seen,
    );
    let faces = order.faces;
    count_faces(block, numbers, &out, &starts, faces, rows);
    count_critical(block, numbers, &out, &starts, faces, rows);
}

// Tells the figures of the cells of a sound block, which have their numbers and least places.
fn tell(block: &[u64], numbers: &[usize], firsts: &[usize], count: usize, rows: &mut [u64])
    requires block_value { (holds_block block.now ≡ true) × Grouped false block.now numbers.now firsts.now count }
    requires count_in_bounds { 19 * count ≤ length rows.old }
    ensures { rows.new ≡ told_rows block.now rows.old }
{
    start_rows(block, firsts, 19 * count, rows);
    count_darts(block, numbers, rows);
    tell_faces(block, numbers, rows);
}

// Tells the figures of each cell of a block, in order of least serial, one row after the other. Rows are written where the memory
// is a sound block's image and there is room for all of them. How many cells there are.
pub fn cell_figures(block: &[u64], rows: &mut [u64]) -> Result<usize, Untold>
    ensures answer { result ≡ cells_told block.now rows.old }
    ensures rows { rows.new ≡ rows_after block.now rows.old }
{
    if !sound::is_sound(block) {
        return Err(Untold::Unsound);
    }
    let mut numbers = [0usize; Header::DARTS];
    let mut firsts = [0usize; Header::DARTS];
    let mut order = [0usize; Header::DARTS];
    let count = groups::number(block, false, &mut numbers, &mut firsts, &mut order);
    if rows.len() < 19 * count {
        return Err(Untold::Short);
    }
    tell(block, &numbers, &firsts, count, rows);
    Ok(count)
}
