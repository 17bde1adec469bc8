// The file `viewers` of a basin: which of its blocks are viewers'.
ghost use Rattle.std.specs.Prelude.{◌≡◌, ◌≤◌, ◌<◌, ◌^◌, length};
ghost use Rattle.model.specs.Lists.{same_list};
ghost use Rattle.model.specs.Values.{blocks, is_viewer};
ghost use Rattle.commands.specs.Viewers.{number_then, goes_on_with, viewers_in as viewers-of};

use crate::{names, words};

// The blocks that a basin may have.
const BLOCKS: usize = 16;

// The bit of a block.
fn bit(b: usize) -> u32
    requires { b < blocks }
    ensures { result ≡ 2 ^ b }
{
    1 << b
}

// How many bytes a block's number has, with one behind it.
fn size(b: usize) -> usize
    ensures { result ≡ length (number_then b 32) }
{
    if b < 10 {
        return 2;
    }
    3
}

// Whether a text is block b's number with one byte behind it.
fn is_number(text: &[u8], b: usize, behind: u8) -> bool
    ensures { result ≡ same_list text.now (number_then b behind) }
{
    if b < 10 {
        return words::same(text, &[names::ones(b), behind]);
    }
    words::same(text, &[names::tens(b), names::ones(b), behind])
}

// Whether block b's number with a blank behind it stands in a text at a place.
fn goes_on(text: &[u8], at: usize, b: usize) -> bool
    requires { at ≤ length text.now }
    ensures { result ≡ goes_on_with text.now at b }
{
    let n = size(b);
    if text.len() - at < n {
        return false;
    }
    is_number(&text[at..at + n], b, b' ')
}

// The blocks that are viewers' by the whole of the file, bit b for block b; none where it is no line of them.
pub fn viewers_in(text: &[u8]) -> Option<u32>
    ensures { result ≡ viewers-of text.now }
{
    if words::same(text, b"\n") {
        return Some(0);
    }
    // Those of the blocks before b that are viewers' are in `bits`, and their numbers stand before `at`.
    let mut bits: u32 = 0;
    let mut at = 0;
    for b in 0..BLOCKS {
        if is_number(&text[at..], b, b'\n') {
            return Some(bits + bit(b));
        }
        if goes_on(text, at, b) {
            bits += bit(b);
            at += size(b);
        }
    }
    None
}

// Whether the block with a number is a viewer's.
pub fn has(viewers: u32, number: u64) -> bool
    ensures { result ≡ is_viewer viewers number }
{
    if BLOCKS as u64 <= number {
        return false;
    }
    (viewers >> number) % 2 == 1
}
