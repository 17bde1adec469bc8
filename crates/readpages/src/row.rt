// A dart's line, read and stored.
ghost use Rattle.std.specs.Prelude.{◌+◌, ◌≤◌, length};
ghost use Rattle.model.specs.Image.{words_for};
ghost use Rattle.readpages.specs.Rows.{RowRead, RowStored};

use crate::third;
use groups::Read;
use memory::record::{Place, Record};

// Columns of a line, and the byte that ends it.
pub const COLUMNS: usize = 80;

pub const LINE_FEED: u8 = 10;

// Bytes of a line.
pub const LINE: usize = 81;

// A dart as its line has it: serials, kind word, and what the third link names.
#[derive(Clone, Copy)]
pub struct Row {
    pub serial: u64,
    pub next: u64,
    pub opposite: u64,
    pub kind: u64,
    pub link: u64,
}

// The line of a dart: three numbers, two blanks, the third link, a line feed.
fn read_row(s: &[u8], at: usize) -> Option<Row>
    requires { at + 81 ≤ length s.now }
    ensures { RowRead s.now at result }
{
    let (serial, past_serial) = text::read_column(s, at)?;
    let (next, past_next) = text::read_column(s, past_serial)?;
    let (opposite, past_opposite) = text::read_column(s, past_next)?;
    if !text::blank(s, past_opposite, 2) {
        return None;
    }
    let (kind, link, past) = third::read_third(s, past_opposite + 2)?;
    if s[past] != LINE_FEED {
        return None;
    }
    Some(Row {
        serial,
        next,
        opposite,
        kind,
        link,
    })
}

// Reads a dart with a serial above the last one, and stores it at place p: its serial.
pub fn store_row(s: &[u8], at: usize, last: u64, block: &mut [u64], p: Place) -> Read
    requires { (at + 81 ≤ length s.now) × (words_for (p.0 + 1) ≤ length block.old) }
    ensures { RowStored s.now at last block.old p.0 block.new result }
{
    let row = read_row(s, at)?;
    let serial = row.serial;
    if serial <= last {
        return None;
    }
    let r = Record {
        serial,
        next: row.next,
        opposite: row.opposite,
        kind: row.kind,
        link: row.link,
        x: 0,
        y: 0,
        z: 0,
    };
    memory::record::put_record(block, p, r);
    Some((serial, at + LINE))
}
