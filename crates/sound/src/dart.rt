// The tests of the dart at place p among n: a few words are read, and nothing is kept.
ghost use Rattle.std.specs.Prelude.{◌≡◌, ◌+◌, ◌≤◌, ◌<◌, length};
ghost use Rattle.model.specs.Values.{finite, room};
ghost use Rattle.model.specs.Image.{words_for, column, dart_in};
ghost use Rattle.memory.specs.Point.{FiniteAt};
ghost use Rattle.columns.specs.Columns.{Places, SewnPlaces, Finite, Darts, place_test, critical_test, kind_test, label_test, link_test, sewn_test, third_test, same_at, point_test, far_test};

use memory::header::Header;
use memory::record::{Place, Record};
use memory::{kind, label, point, record};

// 4: a finite point.
pub fn finite_at(block: &[u64], p: Place) -> bool
    requires { (p.0 < room) × (words_for (p.0 + 1) ≤ length block.now) }
    ensures { result ≡ finite (dart_in block.now p.0).point }
{
    let x = point::finite_word(record::field(block, p, Record::X));
    let y = point::finite_word(record::field(block, p, Record::Y));
    let z = point::finite_word(record::field(block, p, Record::Z));
    x & y & z
}

// 5: next and opposite held; opposite another dart, and back again.
pub fn link_at(block: &[u64], n: usize, p: Place) -> bool
    requires { (p.0 < n) × (n ≤ room) × (words_for n ≤ length block.now) }
    ensures { result ≡ link_test block.now n p.0 }
{
    let a = record::field(block, p, Record::NEXT);
    let b = record::field(block, p, Record::OPPOSITE);
    if !((a < n as u64) & (b < n as u64)) {
        return false;
    }
    let c = record::field(block, Place(b as usize), Record::OPPOSITE);
    (b != p.0 as u64) & (c == p.0 as u64)
}

// 6: sewn to the dart at l and back, and next to the one at z, along.
fn sewn_at(block: &[u64], p: Place, l: Place, z: Place) -> bool
    requires { (words_for (l.0 + 1) ≤ length block.now) × (words_for (z.0 + 1) ≤ length block.now) × (l.0 < room) }
    ensures { result ≡ sewn_test block.now p.0 l.0 z.0 }
{
    let k = record::field(block, l, Record::KIND);
    let b = record::field(block, l, Record::LINK);
    let x = record::field(block, z, Record::NEXT);
    let sewn = kind::is_sewn(k);
    sewn & (b == p.0 as u64) & (l.0 != p.0) & (x == l.0 as u64)
}

// 6: the kind of the next dart; where it is sewn, sewn right.
pub fn third_at(block: &[u64], n: usize, p: Place) -> bool
    requires { (p.0 < n) × (n ≤ room) × (words_for n ≤ length block.now) × (column block.now 1 p.0 < n) }
    ensures { result ≡ third_test block.now n p.0 }
{
    let a = Place(record::field(block, p, Record::NEXT) as usize);
    let k = record::field(block, p, Record::KIND);
    let j = record::field(block, a, Record::KIND);
    if j != k {
        return false;
    }
    if !kind::is_sewn(k) {
        return true;
    }
    let l = record::field(block, p, Record::LINK);
    let z = record::field(block, a, Record::LINK);
    if !((l < n as u64) & (z < n as u64)) {
        return false;
    }
    sewn_at(block, p, Place(l as usize), Place(z as usize))
}

// 7: another block, and an own label below the counter.
pub fn label_right(me: u64, counter: u64, k: u64, a: u64) -> bool
    ensures { result ≡ label_test me counter k a }
{
    let maker = label::maker_of(a);
    let number = label::number_of(a);
    let critical = kind::is_critical(k);
    let other = kind::other_of(k);
    !critical | ((other != me) & ((maker != me) | (number < counter)))
}

// 8: the points at p and v are one.
fn same_at(block: &[u64], p: Place, v: Place) -> bool
    requires { (words_for (p.0 + 1) ≤ length block.now) × (words_for (v.0 + 1) ≤ length block.now) × (p.0 < room) × FiniteAt block.now p.0 × FiniteAt block.now v.0 }
    ensures { result ≡ same_at block.now p.0 v.0 }
{
    let here = point::point_at(block, p);
    let there = point::point_at(block, v);
    point::same_point(here, there)
}

// 8: the points of the dart, of next of opposite, and of next of the dart that it is sewn to.
pub fn points_at(block: &[u64], n: usize, p: Place) -> bool
    requires { (p.0 < n) × (n ≤ room) × (words_for n ≤ length block.now) × Places block.now n × SewnPlaces block.now n × Finite block.now n }
    ensures { result ≡ point_test block.now p.0 }
{
    let b = Place(record::field(block, p, Record::OPPOSITE) as usize);
    let v = Place(record::field(block, b, Record::NEXT) as usize);
    if !same_at(block, p, v) {
        return false;
    }
    let k = record::field(block, p, Record::KIND);
    if !kind::is_sewn(k) {
        return true;
    }
    let l = Place(record::field(block, p, Record::LINK) as usize);
    let w = Place(record::field(block, l, Record::NEXT) as usize);
    same_at(block, p, w)
}

// 2, by itself: serial above the last one, point finite, next and opposite held.
pub fn place_at(block: &[u64], n: usize, p: Place, last: u64) -> bool
    requires { (p.0 < n) × (n ≤ room) × (words_for n ≤ length block.now) }
    ensures { result ≡ place_test block.now n last p.0 }
{
    let s = record::field(block, p, Record::SERIAL);
    let f = finite_at(block, p);
    let a = record::field(block, p, Record::NEXT);
    let b = record::field(block, p, Record::OPPOSITE);
    (last < s) & (s < Header::SERIALS) & f & (a < n as u64) & (b < n as u64) & (b != p.0 as u64)
}

// 2, by itself: what the words of a critical dart of block `me` name.
fn critical_right(me: u64, counter: u64, k: u64, a: u64) -> bool
    ensures { result ≡ critical_test me counter k a }
{
    let maker = label::maker_of(a);
    let number = label::number_of(a);
    let other = kind::other_of(k);
    (other < Header::BLOCKS)
        & (a < label::CODES)
        & (other != me)
        & ((maker != me) | (number < counter))
}

// 2, by itself: kind word and link word.
pub fn kind_right(me: u64, counter: u64, n: usize, k: u64, a: u64) -> bool
    ensures { result ≡ kind_test me counter n k a }
{
    if kind::is_critical(k) {
        return critical_right(me, counter, k, a);
    }
    ((k == kind::FREE) & (a == 0)) | ((k == kind::SEWN) & (a < n as u64))
}

// 2, with the darts that it links to.
pub fn far_at(block: &[u64], n: usize, p: Place) -> bool
    requires { (p.0 < n) × (n ≤ room) × (words_for n ≤ length block.now) × Darts block.now n }
    ensures { result ≡ far_test block.now p.0 }
{
    let a = Place(record::field(block, p, Record::NEXT) as usize);
    let b = Place(record::field(block, p, Record::OPPOSITE) as usize);
    let k = record::field(block, p, Record::KIND);
    let c = record::field(block, b, Record::OPPOSITE);
    let j = record::field(block, a, Record::KIND);
    let v = Place(record::field(block, b, Record::NEXT) as usize);
    let s = same_at(block, p, v);
    if !((c == p.0 as u64) & (j == k) & s) {
        return false;
    }
    if !kind::is_sewn(k) {
        return true;
    }
    let l = Place(record::field(block, p, Record::LINK) as usize);
    let z = Place(record::field(block, a, Record::LINK) as usize);
    let w = Place(record::field(block, l, Record::NEXT) as usize);
    let t = sewn_at(block, p, l, z);
    let u = same_at(block, p, w);
    t & u
}
