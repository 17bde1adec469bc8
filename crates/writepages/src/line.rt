// The lines of a page, 80 columns and a line feed each: a first line, the row of a dart, blanks.
ghost use Rattle.std.specs.Prelude.{◌++◌, ◌+◌, ◌*◌, ◌≤◌, ◌<◌, ◌^◌, length};
ghost use Rattle.model.specs.Image.{third_in, dart_in};
ghost use Rattle.model.specs.Pages.{line_bytes, number_columns, third_columns, row_of, blanks, number_column, third_column, first_line, row_line, blank_line};
ghost use Rattle.groups.specs.Slices.{Stored};
ghost use Rattle.codec.specs.Thirds.{ThirdSmall};
ghost use Rattle.savefile.specs.Named.{DartSmall};

use listing::{lines, text};
use memory::record;
use memory::record::{Place, Record};
use savefile::links;

// Columns of a number and of a third link.
const NUMBER_COLUMNS: usize = 10;

const THIRD_COLUMNS: usize = 48;

// Blanks before a row's third link, behind a first line's numbers, and of a line that has nothing else.
const ROW_BLANKS: usize = 2;

const FIRST_BLANKS: usize = 50;

const LINE_BLANKS: usize = 80;

// So many blanks.
fn put_blanks(out: &mut [u8], at: usize, n: usize) -> usize
    requires { at + n ≤ length out.old }
    ensures { Stored out.old at (blanks n) out.new result }
{
    // The first i blanks are stored.
    let mut i = 0;
    while i < n {
        out[at + i] = b' ';
        i += 1;
    }
    at + i
}

// A number right-aligned in its columns, written from its last digit.
fn put_number_column(out: &mut [u8], at: usize, v: u64) -> usize
    requires { (v < 2 ^ 32) × (at + number_columns ≤ length out.old) }
    ensures { Stored out.old at (number_column v) out.new result }
{
    let next = at + NUMBER_COLUMNS;
    // What is left of the number, right-aligned in the columns before p, gives the same slice in the end.
    let mut p = next;
    let mut x = v;
    while 10 <= x {
        p -= 1;
        out[p] = (48 + x % 10) as u8;
        x = x / 10;
    }
    p -= 1;
    out[p] = (48 + x) as u8;
    put_blanks(out, at, p - at);
    next
}

// Three numbers, with which every line begins that has numbers.
fn put_numbers(out: &mut [u8], at: usize, a: u64, b: u64, c: u64) -> usize
    requires { (a < 2 ^ 32) × (b < 2 ^ 32) × (c < 2 ^ 32) × (at + 3 * number_columns ≤ length out.old) }
    ensures { Stored out.old at (number_column a ++ number_column b ++ number_column c) out.new result }
{
    let past_a = put_number_column(out, at, a);
    let past_b = put_number_column(out, past_a, b);
    put_number_column(out, past_b, c)
}

// A third link, by its kind word and what it names.
fn put_third_column(kind: u64, named: u64, out: &mut [u8], at: usize) -> usize
    requires { ThirdSmall kind named × (at + third_columns ≤ length out.old) }
    ensures { Stored out.old at (third_column (third_in (λ x. x) kind named)) out.new result }
{
    let past_text = lines::put_third(kind, named, out, at);
    put_blanks(out, past_text, at + THIRD_COLUMNS - past_text)
}

// The first line of a page, with its number from 1.
pub fn put_first(number: u64, page: u64, count: u64, out: &mut [u8], at: usize) -> usize
    requires { (number < 2 ^ 32) × (page < 2 ^ 32) × (count < 2 ^ 32) × (at + line_bytes ≤ length out.old) }
    ensures { Stored out.old at (first_line number page count) out.new result }
{
    let past_numbers = put_numbers(out, at, number, page, count);
    let past_blanks = put_blanks(out, past_numbers, FIRST_BLANKS);
    text::put_byte(out, past_blanks, b'\n')
}

// The row of the dart at place p.
pub fn put_row(block: &[u64], p: Place, out: &mut [u8], at: usize) -> usize
    requires { DartSmall block.now p.0 × (at + line_bytes ≤ length out.old) }
    ensures { Stored out.old at (row_line (row_of (dart_in block.now p.0))) out.new result }
{
    let serial = record::field(block, p, Record::SERIAL);
    let next = links::serial_along(block, p, Record::NEXT);
    let opposite = links::serial_along(block, p, Record::OPPOSITE);
    let past_numbers = put_numbers(out, at, serial, next, opposite);
    let past_gap = put_blanks(out, past_numbers, ROW_BLANKS);
    let kind = record::field(block, p, Record::KIND);
    let past_third = put_third_column(kind, links::third_along(block, p), out, past_gap);
    text::put_byte(out, past_third, b'\n')
}

// A line of blanks.
pub fn put_blank(out: &mut [u8], at: usize) -> usize
    requires { at + line_bytes ≤ length out.old }
    ensures { Stored out.old at blank_line out.new result }
{
    let past_blanks = put_blanks(out, at, LINE_BLANKS);
    text::put_byte(out, past_blanks, b'\n')
}
