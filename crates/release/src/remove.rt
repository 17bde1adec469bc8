// The records of a volume are taken out of a block's memory, and the others renumbered.
ghost use Rattle.std.specs.Prelude.{◌≡◌, ◌++◌, ◌+◌, ◌*◌, ◌-◌, ◌≤◌, ◌<◌, ◌^◌, length, get_or, take, drop, replicate};
ghost use Rattle.model.specs.Image.{words_for, count_in, column};
ghost use Rattle.model.specs.Values.{room};
ghost use Rattle.memory.specs.Record.{put, record_in};
ghost use Rattle.place.specs.Renumber.{LinksBelow};
ghost use Rattle.release.specs.LetGo.{rank, moved_words, without};
ghost use Rattle.release.specs.Asks.{Tabled, Bounded, DartsMoved};

use memory::header::Header;
use memory::record::Place;
use memory::{header, record};

// Where each of the first n places goes. Returns how many stay.
fn ranks(marks: &[u8], n: usize, table: &mut [usize]) -> usize
    requires { (n ≤ room) × (n ≤ length marks.now) × (n ≤ length table.old) }
    ensures { (result ≡ rank marks.now n) × Tabled (rank marks.now) n table.new }
{
    // Of the places below p, `kept` are not marked.
    let mut kept = 0;
    for p in 0..n {
        table[p] = kept;
        if marks[p] != 1 {
            kept += 1;
        }
    }
    kept
}

// Moves the record at place `from` to place `at`, with its links by the table.
fn move_record(block: &mut [u64], from: Place, at: Place, table: &[usize])
    requires { (words_for (from.0 + 1) ≤ length block.old) × (at.0 ≤ from.0) × LinksBelow (length table.now) (record_in block.old from.0) }
    ensures { block.new ≡ put block.old at.0 (moved_words (λ p. get_or table.now p 0) block.old from.0) }
{
    let r = record::record_at(block, from);
    record::put_record(block, at, place::renumber::renumbered(table, r));
}

// Moves the records that are not marked to the front. Returns how many there are.
fn compact(block: &mut [u64], n: usize, marks: &[u8], table: &[usize]) -> usize
    requires { Bounded block.old n × (n ≤ length marks.now) × (n ≤ length table.now) × Tabled (rank marks.now) n table.now }
    ensures { DartsMoved (moved_words (rank marks.now) block.old) block.old marks.now n block.new result }
{
    // The records of the unmarked places below i stand in front, w of them.
    let mut w = 0;
    for i in 0..n {
        if marks[i] != 1 {
            move_record(block, Place(i), Place(w), table);
            w += 1;
        }
    }
    w
}

// Clears the words from a up to e.
fn clear_part(block: &mut [u64], a: usize, e: usize)
    requires { (a ≤ e) × (e ≤ length block.old) }
    ensures { block.new ≡ take a block.old ++ (replicate (e - a) 0 ++ drop e block.old) }
{
    header::clear(&mut block[a..e]);
}

// Takes the marked records out, with a new counter; what is left over is zero. The table may hold anything.
pub fn remove(block: &mut [u64], marks: &[u8], counter: u64, table: &mut [usize])
    requires bounded { Bounded block.old (count_in block.old) × (count_in block.old ≤ length marks.now) × (count_in block.old ≤ length table.old) }
    requires block_value { drop (8 + get_or block.old 2 0 * 8) block.old ≡ replicate (length block.old - words_for (get_or block.old 2 0)) 0 }
    ensures { block.new ≡ without block.old marks.now counter }
{
    let number = block[Header::NUMBER];
    let n = block[Header::COUNT] as usize;
    ranks(marks, n, table);
    let kept = compact(block, n, marks, table);
    clear_part(block, 8 + kept * 8, 8 + n * 8);
    let after = Header {
        number,
        counter,
        darts: kept,
    };
    after.write(block);
}
