// What is told of a basin: a line for each block, and whether it is sound.
use answers::Answer;
use balance::nextmove;
use commands::{names, viewers};
use memory::header::{BLOCKS, Header};
use memory::kind;
use oracle::Oracle;
use system::say;
use system::say::{Failure, Told};

// Into how many pieces a block's volumes fall.
fn show_pieces(n: u64) {
    say::text(b" in ");
    say::number(n);
    if n == 1 {
        say::text(b" piece");
        return;
    }
    say::text(b" pieces");
}

// A block's number, as its memory has it.
fn number_in(block: &[u64]) -> u64 {
    block.get(Header::NUMBER).copied().unwrap_or(0)
}

// A block's darts, volumes and their pieces, critical faces and counter, and that it is a viewer's.
fn show_block(b: usize, block: &[u64], viewers: u32) {
    say::text(b"block ");
    say::number(b as u64);
    say::text(b": ");
    let t = stats::count_block(block);
    say::number(t.darts);
    say::text(b" darts, ");
    say::number(t.volumes);
    say::text(b" volumes");
    show_pieces(t.pieces);
    say::text(b", ");
    say::number(t.critical);
    say::text(b" critical faces, counter ");
    say::number(t.counter);
    if viewers::has(viewers, number_in(block)) {
        say::text(b", viewer");
    }
    say::text(b"\n");
}

// A line for each block.
pub fn show_blocks(mesh: &[u64], viewers: u32) {
    for (b, block) in mesh.chunks_exact(Header::WORDS).enumerate() {
        show_block(b, block, viewers);
    }
}

// The first of the blocks that are refused by a number when those behind it are left out.
fn first_refused(question: u32, mesh: &[u64], viewers: u32, scratch: &mut [u64]) -> usize {
    let k = mesh.len() / Header::WORDS;
    for b in 0..k {
        let end = b * Header::WORDS + Header::WORDS;
        let answer = checkmesh::check_mesh(&mesh[0..end], viewers, scratch);
        if answers::answer_number(answer) == question {
            return b;
        }
    }
    k
}

// Whether some dart of a block has a kind, which is that of a third link and of the other block.
fn has_kind(block: &[u64], kind: u64) -> bool {
    block
        .iter()
        .skip(11)
        .step_by(8)
        .take(Header::DARTS)
        .any(|word| *word == kind)
}

// The first block that has a dart of a kind.
fn first_with_kind(kind: u64, mesh: &[u64]) -> Option<usize> {
    mesh.chunks_exact(Header::WORDS)
        .position(|block| has_kind(block, kind))
}

// Says which block is named by a critical dart and has no file, the first of them; whether there is one.
fn say_missing(mesh: &[u64]) -> bool {
    for m in mesh.len() / Header::WORDS..BLOCKS {
        if let Some(b) = first_with_kind(kind::critical_with(m as u64), mesh) {
            say::text(&names::block(m));
            say::text(b" is missing, and ");
            say::text(&names::block(b));
            say::text(b" names it");
            return true;
        }
    }
    false
}

// How many darts block b has, where that is too many for a viewer.
fn say_darts(mesh: &[u64], b: usize) {
    if b < mesh.len() / Header::WORDS {
        let t = stats::count_block(mesh::part_of(mesh, b));
        say::text(b", with ");
        say::number(t.darts);
        say::text(b" darts");
    }
}

// Which file a refusal is about: one of them, where it has too many darts for a viewer, or its number or a serial is wrong; one that is
// missing and named; or all together.
fn say_where(question: u32, mesh: &[u64], viewers: u32, scratch: &mut [u64]) {
    if (question == 2) | (question == 23) | (question == 24) {
        let b = first_refused(question, mesh, viewers, scratch);
        say::text(&names::block(b));
        if question == 2 {
            say_darts(mesh, b);
        }
        return;
    }
    if question == 25 && say_missing(mesh) {
        return;
    }
    say::text(b"the blocks together");
}

// Whether the blocks are a sound mesh; where not, why.
pub fn check_sound(mesh: &[u64], viewers: u32, scratch: &mut [u64]) -> Result<(), Failure> {
    match checkmesh::check_mesh(mesh, viewers, scratch) {
        Ok(()) => Ok(()),
        Err(r) => {
            let question = answers::refusal_number(r);
            say::refused(question);
            say_where(question, mesh, viewers, scratch);
            say::text(b": ");
            say::meaning(question);
            say::text(b"\n");
            Err(Failure::Refused)
        }
    }
}

// The counts of k blocks: what each has more than the mean, and the mean.
fn show_counts(mean: u64, surplus: &[i32], k: usize) {
    for x in surplus.iter().take(k) {
        say::text(b" ");
        say::number(mean.wrapping_add(nextmove::signed_word(*x)));
    }
}

// A surplus, with its sign.
fn show_surplus(x: i32) {
    let w = nextmove::signed_word(x);
    if x < 0 {
        say::text(b" -");
        say::number(w.wrapping_neg());
        return;
    }
    say::text(b" ");
    say::number(w);
}

// The surpluses of k blocks.
fn show_surpluses(surplus: &[i32], k: usize) {
    for x in surplus.iter().take(k) {
        show_surplus(*x);
    }
}

// A line about a balance: how many volumes are picked in each block, their mean and the surpluses, as next move tells them; whether it does.
// Where not, why.
pub fn show_balance(
    when: &[u8],
    mesh: &[u64],
    viewers: u32,
    o: Oracle,
    scratch: &mut [u64],
) -> Result<(), Told> {
    let b = nextmove::next_move(mesh, viewers, o, scratch);
    let next = b.next;
    let question = answers::move_number(next);
    if question != 0 {
        say::refused(question);
        say::meaning(question);
        say::text(b"\n");
        return Err(Told);
    }
    let k = mesh.len() / Header::WORDS;
    let mean = u64::from(b.mean);
    let surplus = b.surplus;
    say::text(when);
    show_counts(mean, &surplus, k);
    say::text(b"; mean ");
    say::number(mean);
    say::text(b", surpluses");
    show_surpluses(&surplus, k);
    say::text(b"\n");
    Ok(())
}
