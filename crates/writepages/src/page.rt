// The pages of a block: a first line and 59 rows each, filled in turn, the last made up with lines of blanks.
ghost use Rattle.std.specs.Prelude.{true, ◌≡◌, ◌+◌, ◌*◌, ◌≤◌, ◌<◌, length};
ghost use Rattle.model.specs.Lists.{concat, tab};
ghost use Rattle.model.specs.Values.{room};
ghost use Rattle.model.specs.Image.{count_in, block_in, holds_block};
ghost use Rattle.model.specs.Pages.{paged, page_rows, line_bytes, page_bytes, line_of, page_count, page, pages_text};
ghost use Rattle.groups.specs.Slices.{Stored};

use crate::line;
use memory::header::Header;
use memory::record::Place;

// Rows and bytes of a page.
pub const PAGE_ROWS: usize = 59;

pub const PAGE_BYTES: usize = 4860;

// How many pages a block of n darts has: an empty one has one.
pub fn page_count(n: usize) -> usize
    requires { n ≤ room }
    ensures { result ≡ page_count n }
{
    let pages = (n + (PAGE_ROWS - 1)) / PAGE_ROWS;
    if pages == 0 {
        return 1;
    }
    pages
}

// Line i of those behind first lines: the row of the dart at place i, blanks where there is none.
fn put_line(block: &[u64], i: usize, out: &mut [u8], at: usize) -> usize
    requires { (holds_block block.now ≡ true) × (at + line_bytes ≤ length out.old) }
    ensures { Stored out.old at (line_of (paged (block_in block.now)).rows i) out.new result }
{
    if i < block[Header::COUNT] as usize {
        return line::put_row(block, Place(i), out, at);
    }
    line::put_blank(out, at)
}

// The lines of a page behind its first line, from line `first` on.
fn put_lines(block: &[u64], first: usize, out: &mut [u8], at: usize) -> usize
    requires { (holds_block block.now ≡ true) × (first ≤ room) × (at + line_bytes * page_rows ≤ length out.old) }
    ensures { Stored out.old at (concat (tab (λ i. line_of (paged (block_in block.now)).rows (first + i)) page_rows)) out.new result }
{
    // The lines below i are stored, up to past.
    let mut past = at;
    for i in 0..PAGE_ROWS {
        past = put_line(block, first + i, out, past);
    }
    past
}

// Page k of so many, from 0.
fn put_page(block: &[u64], k: usize, pages: usize, out: &mut [u8], at: usize) -> usize
    requires { (holds_block block.now ≡ true) × (pages ≡ page_count (count_in block.now)) × (k < pages) × (at + page_bytes ≤ length out.old) }
    ensures { Stored out.old at (page (paged (block_in block.now)) k) out.new result }
{
    let past_first = line::put_first(block[Header::NUMBER], k as u64 + 1, pages as u64, out, at);
    put_lines(block, PAGE_ROWS * k, out, past_first)
}

// All pages, from the output's first byte.
pub fn put_pages(block: &[u64], pages: usize, out: &mut [u8]) -> usize
    requires { (holds_block block.now ≡ true) × (pages ≡ page_count (count_in block.now)) × (page_bytes * pages ≤ length out.old) }
    ensures { Stored out.old 0 (pages_text (paged (block_in block.now))) out.new result }
{
    // The pages below k are stored, up to past.
    let mut past = 0;
    for k in 0..pages {
        past = put_page(block, k, pages, out, past);
    }
    past
}
