// A record with the places that it links to moved by a table.
ghost use Rattle.std.specs.Prelude.{◌≡◌, true, ◌<◌, length, get_or};
ghost use Rattle.model.specs.Image.{is_sewn_word};
ghost use Rattle.place.specs.Renumber.{moved_link, renumbered as with-links-moved, LinksBelow};

use crate::moved_at;
use memory::kind;
use memory::record::{Place, Record};

// The link word: where the place of a sewn dart goes.
fn moved_link(table: &[usize], kind: u64, link: u64) -> u64
    requires { is_sewn_word kind ≡ true → link < length table.now }
    ensures { result ≡ moved_link (λ p. get_or table.now p 0) kind link }
{
    if kind::is_sewn(kind) {
        return moved_at(table, Place(link as usize)).0 as u64;
    }
    link
}

// The record as it is where every place has moved.
pub fn renumbered(table: &[usize], r: Record) -> Record
    requires { LinksBelow (length table.now) r }
    ensures { result ≡ with-links-moved (λ p. get_or table.now p 0) r }
{
    let next = moved_at(table, Place(r.next as usize)).0 as u64;
    let opposite = moved_at(table, Place(r.opposite as usize)).0 as u64;
    let link = moved_link(table, r.kind, r.link);
    Record {
        serial: r.serial,
        next,
        opposite,
        kind: r.kind,
        link,
        x: r.x,
        y: r.y,
        z: r.z,
    }
}
