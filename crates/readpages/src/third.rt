// A third link in its 48 columns.
ghost use Rattle.std.specs.Prelude.{◌+◌, ◌≤◌, length};
ghost use Rattle.readpages.specs.Thirds.{SewnRead, LabelRead, CriticalRead, ThirdRead};

use groups::Read;
use memory::header::Header;
use memory::{kind, label};

// Columns of a third link, and where its first number stands in them.
pub const COLUMNS: usize = 48;

const NUMBERS: usize = 5;

// `sewn S`: the serial.
fn read_sewn(s: &[u8], at: usize) -> Read
    requires { at + 48 ≤ length s.now }
    ensures { SewnRead s.now at result }
{
    if !text::text_at(s, at, b"sewn ") {
        return None;
    }
    let (serial, past) = text::number_before(s, at + NUMBERS, b' ')?;
    if !text::blank(s, past, at + COLUMNS - past) {
        return None;
    }
    Some((serial, at + COLUMNS))
}

// `M.N.P` and a blank: the label's code, and the place past the blank.
fn read_label(s: &[u8], from: usize) -> Read
    requires { from + 33 ≤ length s.now }
    ensures { LabelRead s.now from result }
{
    let (maker, past_maker) = text::number_before(s, from, b'.')?;
    let (number, past_number) = text::number_before(s, past_maker, b'.')?;
    let (position, past) = text::number_before(s, past_number, b' ')?;
    if Header::BLOCKS <= maker {
        return None;
    }
    if Header::POSITIONS <= position {
        return None;
    }
    Some((label::code_of(maker, number, position), past))
}

// `crit O M.N.P`.
fn read_critical(s: &[u8], at: usize) -> Option<(u64, u64, usize)>
    requires { at + 48 ≤ length s.now }
    ensures { CriticalRead s.now at result }
{
    if !text::text_at(s, at, b"crit ") {
        return None;
    }
    let (other, past_other) = text::number_before(s, at + NUMBERS, b' ')?;
    if Header::BLOCKS <= other {
        return None;
    }
    let (code, past) = read_label(s, past_other)?;
    if !text::blank(s, past, at + COLUMNS - past) {
        return None;
    }
    Some((kind::critical_with(other), code, at + COLUMNS))
}

// A third link, by its first letter: kind word, and the serial of a sewn dart or the label's code.
pub fn read_third(s: &[u8], at: usize) -> Option<(u64, u64, usize)>
    requires { at + 48 ≤ length s.now }
    ensures { ThirdRead s.now at result }
{
    if s[at] == b'c' {
        return read_critical(s, at);
    }
    if s[at] == b's' {
        let (serial, past) = read_sewn(s, at)?;
        return Some((kind::SEWN, serial, past));
    }
    if !text::text_at(s, at, b"free") {
        return None;
    }
    if !text::blank(s, at + 4, COLUMNS - 4) {
        return None;
    }
    Some((kind::FREE, 0, at + COLUMNS))
}
