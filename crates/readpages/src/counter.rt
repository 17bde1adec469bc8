// The least counter that a block's labels allow, in memory with serials.
ghost use Rattle.std.specs.Prelude.{◌≡◌, ◌+◌, ◌≤◌, length, get_or, set};
ghost use Rattle.model.specs.Lists.{tab};
ghost use Rattle.model.specs.Cells.{labels};
ghost use Rattle.model.specs.Image.{words_for, count_in, counter_above, third_in};
ghost use Rattle.newblock.specs.Serials.{raw_dart};
ghost use Rattle.readpages.specs.Counters.{above_third, capped};

use memory::header::Header;
use memory::record::{Place, Record};
use memory::{kind, label, record};

// A counter above c and above the number of an own-made label, by a dart's kind word and link word.
fn above(c: u64, me: u64, kind: u64, link: u64) -> u64
    ensures { result ≡ above_third me (third_in (λ s. s) kind link) c }
{
    if kind::is_free(kind) {
        return c;
    }
    if kind::is_sewn(kind) {
        return c;
    }
    if label::maker_of(link) != me {
        return c;
    }
    let number = label::number_of(link);
    if number < c {
        return c;
    }
    number + 1
}

// The least counter above the own-made labels of the first n darts.
fn least_counter(block: &[u64], n: usize) -> u64
    requires { words_for n ≤ length block.now }
    ensures { result ≡ counter_above (get_or block.now 0 0) (labels (tab (raw_dart block.now) n)) }
{
    let me = block[Header::NUMBER];
    // The counter is above the labels of the darts after i.
    let mut c = 0;
    for i in (0..n).rev() {
        let kind = record::field(block, Place(i), Record::KIND);
        let link = record::field(block, Place(i), Record::LINK);
        c = above(c, me, kind, link);
    }
    c
}

// Stores it as the block's counter; where no counter is above the labels, the greatest one, which some label reaches.
pub fn set_least(block: &mut [u64])
    requires { words_for (count_in block.old) ≤ length block.old }
    ensures { block.new ≡ set block.old 1 (capped (counter_above (get_or block.old 0 0) (labels (tab (raw_dart block.old) (count_in block.old))))) }
{
    let n = block[Header::COUNT] as usize;
    let c = least_counter(block, n);
    if c < Header::NUMBERS {
        block[Header::COUNTER] = c;
    } else {
        block[Header::COUNTER] = Header::NUMBERS - 1;
    }
}
