// The whole of a block's pages read into memory, with serials where an image has places.
ghost use Rattle.std.specs.Prelude.{true, ◌↔◌, ◌≡◌, ℕ, suc, ◌+◌, ◌*◌, ◌≤◌, ◌<◌, ◌^◌, length, replicate};
ghost use Rattle.laws.specs.Standing.{Stands};
ghost use Rattle.model.specs.Values.{room};
ghost use Rattle.model.specs.Image.{words_for, words_of};
ghost use Rattle.model.specs.Pages.{number_column, first_line, blank_line, page_count, row_place as place-of-row, has_row, run};
ghost use Rattle.memory.specs.Header.{limits_of};
ghost use Rattle.readpages.specs.Raw.{FirstsStand, RestBlank, RowsStored, RawRead};

use crate::row;
use groups::Read;
use memory::header::{Header, Limits};
use memory::record::Place;

// Rows of a page, and its bytes.
const ROWS: usize = 59;

const PAGE: usize = 4860;

const BLANK: u8 = 32;

// Where the line of row i stands.
fn row_place(i: usize) -> usize
    requires { i < 2 ^ 32 }
    ensures { result ≡ place-of-row i }
{
    PAGE * (i / ROWS) + row::LINE * (1 + i % ROWS)
}

// How many rows there are on so many pages: those before the first without a serial.
fn row_count(s: &[u8], total: usize) -> usize
    requires { (total ≤ 70) × (4860 * total ≤ length s.now) }
    ensures { result ≡ run (has_row s.now) (59 * total) }
{
    let most = ROWS * total;
    // The first i rows have serials.
    for i in 0..most {
        let at = row_place(i) + 9;
        if s[at] == BLANK {
            return i;
        }
    }
    most
}

// Whether a number stands right-aligned in ten columns.
fn column_is(s: &[u8], at: usize, v: u64) -> bool
    requires { (at + 10 ≤ length s.now) × (v < 2 ^ 32) }
    ensures { (result ≡ true) ↔ Stands s.now at (number_column v) }
{
    match text::read_column(s, at) {
        Some((u, _)) => u == v,
        None => false,
    }
}

// Whether page k, from 0, begins with its first line.
fn first_right(s: &[u8], k: usize, number: u64, total: usize) -> bool
    requires { (k < total) × (total ≤ 70) × (4860 * total ≤ length s.now) × (number < 16) }
    ensures { (result ≡ true) ↔ Stands s.now (4860 * k) (first_line number (suc k) total) }
{
    let at = PAGE * k;
    if !column_is(s, at, number) {
        return false;
    }
    if !column_is(s, at + 10, (1 + k) as u64) {
        return false;
    }
    if !column_is(s, at + 20, total as u64) {
        return false;
    }
    if !text::blank(s, at + 30, 50) {
        return false;
    }
    s[at + 80] == row::LINE_FEED
}

// Whether each page does.
fn firsts_right(s: &[u8], number: u64, total: usize) -> bool
    requires { (total ≤ 70) × (4860 * total ≤ length s.now) × (number < 16) }
    ensures { (result ≡ true) ↔ FirstsStand s.now number total }
{
    // The first k pages do.
    for k in 0..total {
        if !first_right(s, k, number, total) {
            return false;
        }
    }
    true
}

// Whether a line has blanks alone.
fn blank_at(s: &[u8], at: usize) -> bool
    requires { at + 81 ≤ length s.now }
    ensures { (result ≡ true) ↔ Stands s.now at blank_line }
{
    if !text::blank(s, at, row::COLUMNS) {
        return false;
    }
    s[at + 80] == row::LINE_FEED
}

// Whether the lines of rows n and on have, on so many pages.
fn rest_blank(s: &[u8], n: usize, total: usize) -> bool
    requires { (total ≤ 70) × (4860 * total ≤ length s.now) × (n ≤ 59 * total) }
    ensures { (result ≡ true) ↔ RestBlank s.now n (59 * total) }
{
    let most = ROWS * total;
    // Those from n on and before i have.
    for i in n..most {
        if !blank_at(s, row_place(i)) {
            return false;
        }
    }
    true
}

// Reads n rows in ascending serial, and stores them from the first place on. Whether they could be read.
fn store_rows(s: &[u8], n: usize, block: &mut [u64]) -> bool
    requires { (n ≤ room) × ((i : ℕ) → i < n → place-of-row i + 81 ≤ length s.now) × (words_for n ≤ length block.old) }
    ensures { RowsStored s.now n block.old block.new result }
{
    // The first i rows are stored, in ascending serial up to `last`.
    let mut last = 0;
    for i in 0..n {
        let Some((serial, _)) = row::store_row(s, row_place(i), last, block, Place(i)) else {
            return false;
        };
        last = serial;
    }
    true
}

// Whether so many rows fill so many pages: the last page has one, or it is the only page.
fn fills(n: usize, total: usize) -> bool
    requires { (1 ≤ total) × (total ≤ 70) × (n ≤ 59 * total) }
    ensures { (result ≡ true) ↔ (page_count n ≡ total) }
{
    if total == 1 {
        return true;
    }
    ROWS * (total - 1) < n
}

// Reads pages to their last byte: whether they could be read, with no more rows than the limits say. The counter stays 0.
pub fn read_raw(s: &[u8], limits: Limits, block: &mut [u64]) -> bool
    requires { (limits.block ≤ room) × (block.old ≡ replicate (words_of (limits_of limits)) 0) }
    ensures { RawRead (limits_of limits) s.now block.new result }
{
    let total = s.len() / PAGE;
    if total * PAGE != s.len() {
        return false;
    }
    // Seventy pages have room for as many rows as a block may have.
    if (total == 0) | (70 < total) {
        return false;
    }
    let Some((number, _)) = text::read_column(s, 0) else {
        return false;
    };
    if Header::BLOCKS <= number {
        return false;
    }
    let n = row_count(s, total);
    if limits.block < n {
        return false;
    }
    if !fills(n, total) {
        return false;
    }
    if !firsts_right(s, number, total) {
        return false;
    }
    if !rest_blank(s, n, total) {
        return false;
    }
    if !store_rows(s, n, block) {
        return false;
    }
    let header = Header {
        number,
        counter: 0,
        darts: n,
    };
    header.write(block);
    true
}
