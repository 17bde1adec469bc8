// The steps of a save, one after the other, and of the recovery after one that was cut short.
ghost use Rattle.std.specs.Prelude.{◌≡◌, false, get_or};
ghost use Rattle.saving.specs.Plan.{save_step, writing_step, placing_step, recover_step, tidied};

use commands::names::File;

// Write a file; give it another name; take it away; have the disk keep the folder's names.
#[derive(Clone, Copy)]
pub enum Step {
    Write(File),
    Rename(File, File),
    Remove(File),
    Keep,
    Nothing,
}

// No save of at most sixteen blocks has more steps, and no recovery.
pub const SAVE_STEPS: usize = 40;

pub const RECOVERY_STEPS: usize = 21;

// From the commit's name on: step j of the rest.
fn placing(k: usize, j: usize) -> Step
    ensures { result ≡ placing_step k j }
{
    if j < k {
        return Step::Rename(File::NewBlock(j), File::Block(j));
    }
    let l = j - k;
    if l == 0 {
        return Step::Keep;
    }
    if l == 1 {
        return Step::Remove(File::Commit);
    }
    if l == 2 {
        return Step::Keep;
    }
    Step::Nothing
}

// From the first new file on.
fn writing(k: usize, i: usize) -> Step
    ensures { result ≡ writing_step k i }
{
    if i < k {
        return Step::Write(File::NewBlock(i));
    }
    let j = i - k;
    if j == 0 {
        return Step::Write(File::NewCommit);
    }
    if j == 1 {
        return Step::Keep;
    }
    if j == 2 {
        return Step::Rename(File::NewCommit, File::Commit);
    }
    if j == 3 {
        return Step::Keep;
    }
    placing(k, j - 4)
}

// Step i of a save of k blocks.
pub fn save(k: usize, i: usize) -> Step
    ensures { result ≡ save_step k i }
{
    if i == 0 {
        return Step::Keep;
    }
    writing(k, i - 1)
}

// Whether entry i says yes; past the end none does.
fn says(there: &[bool], i: usize) -> bool
    ensures { result ≡ get_or there.now i false }
{
    if i < there.len() {
        return there[i];
    }
    false
}

// What becomes of the new file of block b.
fn tidy(k: usize, there: &[bool], b: usize) -> Step
    ensures { result ≡ tidied k there.now b }
{
    if !says(there, b) {
        return Step::Nothing;
    }
    if b < k {
        return Step::Rename(File::NewBlock(b), File::Block(b));
    }
    Step::Remove(File::NewBlock(b))
}

// Step i of a recovery with a commit of k blocks, or with none where k is 0: entry b of `there` says whether the new file of block b is
// there, entry 16 whether the new commit is.
pub fn recover(k: usize, there: &[bool], i: usize) -> Step
    ensures { result ≡ recover_step k there.now i }
{
    if i == 0 {
        return Step::Keep;
    }
    let b = i - 1;
    if b < memory::header::BLOCKS {
        return tidy(k, there, b);
    }
    if b == memory::header::BLOCKS {
        if says(there, 16) {
            return Step::Remove(File::NewCommit);
        }
        return Step::Nothing;
    }
    if b == 17 {
        return Step::Keep;
    }
    if b == 18 {
        if 0 < k {
            return Step::Remove(File::Commit);
        }
        return Step::Nothing;
    }
    if b == 19 {
        return Step::Keep;
    }
    Step::Nothing
}
