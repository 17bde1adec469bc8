// Whether the files of a block are those that were committed.
ghost use Rattle.std.specs.Prelude.{◌≡◌};
ghost use Rattle.saving.specs.Looks.{same_entry, look_found, look_of};

use crate::commit::Entry;

// The new file is the committed one, and is to be put in place; it is in place; neither.
#[derive(Clone, Copy)]
pub enum Look {
    Place,
    Placed,
    Wrong,
}

// Whether two files have one length and digest.
pub fn same(one: Entry, other: Entry) -> bool
    ensures { result ≡ same_entry one other }
{
    one == other
}

// Whether a file was found, and is the one of an entry.
fn is_of(found: Option<Entry>, entry: Entry) -> bool
    ensures { result ≡ look_found found entry }
{
    found.is_some_and(|f| same(f, entry))
}

// Of a block whose commit is an entry: by what stands under its new name and under its name, none where no file does.
pub fn look_at(entry: Entry, new: Option<Entry>, named: Option<Entry>) -> Look
    ensures { result ≡ look_of entry new named }
{
    if new.is_some() {
        if is_of(new, entry) {
            return Look::Place;
        }
        return Look::Wrong;
    }
    if is_of(named, entry) {
        return Look::Placed;
    }
    Look::Wrong
}
