// The cells of a block, a line for each: least serial, darts, faces, critical faces by the other block, mean of the corners.
#![tactic(auto)]

use system::say;

// Word i; 0 past the end.
fn word(words: &[u64], i: usize) -> u64 {
    words.get(i).copied().unwrap_or(0)
}

// The last digit of a number.
fn digit(n: u64) -> u8 {
    (48 + n % 10) as u8
}

// A coordinate to three decimals, or a minus where it is too far from zero.
fn show_coordinate(x: f64) {
    match corners::thousandths::in_thousandths(x) {
        Some((negative, n)) => {
            if negative & (n != 0) {
                say::text(b"-");
            }
            say::number(n / 1000);
            say::text(&[b'.', digit(n / 100), digit(n / 10), digit(n)]);
        }
        None => {
            say::text(b"-");
        }
    }
}

// The mean of the corners of the cell that has a serial.
fn show_mean(block: &[u64], serial: u64) {
    match corners::mean_of(block, serial) {
        Some(p) => {
            say::text(b" (");
            show_coordinate(p.x);
            say::text(b", ");
            show_coordinate(p.y);
            say::text(b", ");
            show_coordinate(p.z);
            say::text(b")\n");
        }
        None => {
            say::text(b" -\n");
        }
    }
}

// How many of a cell's faces are critical with block o, behind a word where they are the first; whether any was told.
fn show_border(told: bool, o: usize, n: u64) -> bool {
    if n == 0 {
        return told;
    }
    if !told {
        say::text(b" crit");
    }
    say::text(b" ");
    say::number(o as u64);
    say::text(b":");
    say::number(n);
    true
}

// The same for each block, from the row of a cell; a minus where there is none.
fn show_borders(row: &[u64]) {
    let mut told = false;
    for o in 0..memory::header::BLOCKS {
        told = show_border(told, o, word(row, 3 + o));
    }
    if !told {
        say::text(b" -");
    }
}

// A cell, by its row.
fn show_cell(block: &[u64], row: &[u64]) {
    let serial = word(row, 0);
    say::number(serial);
    say::text(b" ");
    say::number(word(row, 1));
    say::text(b" ");
    say::number(word(row, 2));
    show_borders(row);
    show_mean(block, serial);
}

// The cells of a block, by their rows.
fn show_rows(block: &[u64], count: usize, rows: &[u64]) {
    say::text(b"block ");
    say::number(word(block, 0));
    say::text(b" cells ");
    say::number(count as u64);
    say::text(b"\n");
    for row in rows.chunks_exact(19) {
        show_cell(block, row);
    }
}

// The cells of a block's memory, by way of lent rows.
pub fn show(block: &[u64], rows: &mut [u64]) {
    match stats::rows::cell_figures(block, rows) {
        Ok(count) if count <= rows.len() / 19 => {
            show_rows(block, count, &rows[..count * 19]);
        }
        Ok(_) | Err(_) => {}
    }
}
