// Points: three finite floats by value, made of the words of a block's memory and turned back into them.
ghost use Rattle.std.specs.Prelude.{◌≡◌, true, ◌+◌, ◌≤◌, length};
ghost use Rattle.std.specs.Float.{binary64};
ghost use Rattle.std.specs.Float.Ieee.{to_bits};
ghost use Rattle.model.specs.Values.{same_point, finite_bits};
ghost use Rattle.model.specs.Image.{words_for, column};
ghost use Rattle.memory.specs.Point.{point_of, patterns, FinitePoint, FiniteAt, with_point};

use crate::record;
use crate::record::{Place, Record};

#[derive(Clone, Copy)]
pub struct Point {
    pub x: f64,
    pub y: f64,
    pub z: f64,
}

// Whether a word is the pattern of a finite float: the eleven bits of the exponent are not all one.
pub fn finite_word(w: u64) -> bool
    ensures { result ≡ finite_bits w }
{
    w % 9223372036854775808 / 4503599627370496 < 2047
}

// The point of three patterns.
pub fn point_of(x: u64, y: u64, z: u64) -> Point
    requires { (finite_bits x ≡ true) × (finite_bits y ≡ true) × (finite_bits z ≡ true) }
    ensures { result ≡ point_of x y z }
{
    Point {
        x: f64::from_bits(x),
        y: f64::from_bits(y),
        z: f64::from_bits(z),
    }
}

// The point of the dart at place p.
pub fn point_at(block: &[u64], p: Place) -> Point
    requires { (words_for (p.0 + 1) ≤ length block.now) × FiniteAt block.now p.0 }
    ensures { result ≡ point_of (column block.now 5 p.0) (column block.now 6 p.0) (column block.now 7 p.0) }
{
    let i = p.0;
    let x = record::field(block, Place(i), Record::X);
    let y = record::field(block, Place(i), Record::Y);
    let z = record::field(block, Place(i), Record::Z);
    point_of(x, y, z)
}

// The pattern of a finite float.
pub fn pattern(x: f64) -> u64
    requires { finite_bits (to_bits binary64 x) ≡ true }
    ensures { result ≡ to_bits binary64 x }
{
    f64::to_bits(x)
}

// Whether two points agree in every bit, so that 0 and −0 differ.
pub fn same_point(a: Point, b: Point) -> bool
    requires { FinitePoint a × FinitePoint b }
    ensures { result ≡ same_point (patterns a) (patterns b) }
{
    let x = pattern(a.x) == pattern(b.x);
    let y = pattern(a.y) == pattern(b.y);
    let z = pattern(a.z) == pattern(b.z);
    x & y & z
}

// Stores a point as that of the dart at place p.
pub fn put_point(block: &mut [u64], p: Place, point: Point)
    requires { (words_for (p.0 + 1) ≤ length block.old) × FinitePoint point }
    ensures { block.new ≡ with_point block.old p.0 (patterns point) }
{
    let i = p.0;
    let x = pattern(point.x);
    let y = pattern(point.y);
    let z = pattern(point.z);
    record::put_field(block, Place(i), Record::X, x);
    record::put_field(block, Place(i), Record::Y, y);
    record::put_field(block, Place(i), Record::Z, z);
}
