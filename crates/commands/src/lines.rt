// Requests: 'from to serial', one a line.
ghost use Rattle.std.specs.Prelude.{◌≡◌};
ghost use Rattle.commands.specs.Lines.{rest_blank, field_in, line_in};

use crate::words;
use crate::words::Kind;

// A line: a request's two blocks and serial, no word, or anything else.
#[derive(Clone, Copy)]
pub enum Line {
    Request(u64, u64, u64),
    Blank,
    Other,
}

// Whether a line has no word from a place on.
fn is_rest_blank(line: &[u8], at: usize) -> bool
    ensures { result ≡ rest_blank line.now at }
{
    if line.len() <= at {
        return true;
    }
    words::leading(Kind::Blanks, &line[at..]) == line.len() - at
}

// The word that stands next in a line, as a number, and the place past it; none where anything else stands there.
fn field_at(line: &[u8], at: usize) -> Option<(u64, usize)>
    ensures { result ≡ field_in line.now at }
{
    if line.len() <= at {
        return None;
    }
    let from = at + words::leading(Kind::Blanks, &line[at..]);
    let end = from + words::leading(Kind::Word, &line[from..]);
    let n = words::number_in(&line[from..end])?;
    Some((n, end))
}

// What a line says: three numbers, and nothing behind them.
pub fn line_of(text: &[u8]) -> Line
    ensures { result ≡ line_in text.now }
{
    if is_rest_blank(text, 0) {
        return Line::Blank;
    }
    let Some((from, past_from)) = field_at(text, 0) else {
        return Line::Other;
    };
    let Some((to, past_to)) = field_at(text, past_from) else {
        return Line::Other;
    };
    let Some((serial, past_serial)) = field_at(text, past_to) else {
        return Line::Other;
    };
    if !is_rest_blank(text, past_serial) {
        return Line::Other;
    }
    Line::Request(from, to, serial)
}
