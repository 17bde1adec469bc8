// Test scripts: lines of text, and the memory and the bytes that they set and print.
#![tactic(auto)]

pub mod blocks; // blocks.rt: words and darts put into memory
pub mod line; // line.rt: commands, numbers and bytes of a line
pub mod show; // show.rt: figures printed

// A line that sets memory or bytes; whether it is one.
// word INDEX WORD..: words from an index on. dart PLACE WORD..: the same at a record. all WORD: every word.
// pillow PLACE SERIAL N FIRST STEP: two faces of N darts back to back, with points on the first axis.
// pairs APART KIND STRIDE X: 4,096 darts in faces of two. bytes AT HEX: bytes from a place on. fill B: every byte.
pub fn set(line: &[u8], memory: &mut [u64], bytes: &mut [u8]) -> bool {
    match line::command(line) {
        b"word" => blocks::put_words(memory, line::index(line, 1), line),
        b"dart" => blocks::put_words(memory, blocks::record(line::index(line, 1)), line),
        b"pillow" => blocks::pillow(
            memory,
            line::index(line, 1),
            line::index(line, 2),
            line::index(line, 3),
            line::number(line, 4),
            line::number(line, 5),
        ),
        b"pairs" => blocks::pairs(
            memory,
            line::number(line, 1),
            line::number(line, 2),
            line::number(line, 3),
            line::number(line, 4),
        ),
        b"all" => blocks::put_all(memory, line::number(line, 1)),
        b"bytes" => line::put_bytes(bytes, line::index(line, 1), line),
        b"fill" => line::fill(bytes, line::index(line, 1)),
        _ => return false,
    }
    true
}

// A line that prints, or one for the reader alone, blank or behind #; whether it is one.
// say TEXT: the text and a colon. words INDEX N STRIDE: words from an index on. used N: how many of the first words are not zero. hex N: the first bytes. sum: of all bytes.
pub fn tell(line: &[u8], memory: &[u64], bytes: &[u8]) -> bool {
    if line.is_empty() {
        return true;
    }
    match line::command(line) {
        b"#" => {}
        b"say" => show::rest(line),
        b"words" => show::words(
            memory,
            line::index(line, 1),
            line::index(line, 2),
            line::index(line, 3),
        ),
        b"used" => show::used(memory, line::index(line, 1)),
        b"hex" => show::hex(bytes, line::index(line, 1)),
        b"sum" => show::sum(bytes),
        _ => return false,
    }
    true
}
