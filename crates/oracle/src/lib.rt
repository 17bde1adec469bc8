// The oracle that picks volumes: every volume, a box of two points, or a plane given by an axis and a value.
#![tactic(auto)]

ghost use Rattle.std.specs.Prelude.{◌≡◌};
ghost use Rattle.std.specs.Float.{binary64};
ghost use Rattle.std.specs.Float.Ieee.{to_bits};
ghost use Rattle.model.specs.Values.{finite_bits, finite};
ghost use Rattle.model.specs.Balance.{lt_bits, le_bits, le_point, coordinate_of, oracle_right as right-oracle};
ghost use Rattle.memory.specs.Point.{patterns};
ghost use Rattle.oracle.specs.Oracle.{oracle_of, holds as holds_of};

use memory::point::Point;

#[derive(Clone, Copy)]
pub enum Oracle {
    Every,
    Box(Point, Point),
    Plane(u64, f64),
}

// Whether a float is finite: it lies between the infinities, as no NaN does.
fn is_finite(x: f64) -> bool
    ensures { result ≡ finite_bits (to_bits binary64 x) }
{
    let top = f64::from_bits(0x7ff0000000000000);
    (-top < x) & (x < top)
}

// Whether one float is at most another.
fn at_most(a: f64, b: f64) -> bool
    ensures { result ≡ le_bits (to_bits binary64 a) (to_bits binary64 b) }
{
    a <= b
}

// Whether one float is strictly below another.
fn below(a: f64, b: f64) -> bool
    ensures { result ≡ lt_bits (to_bits binary64 a) (to_bits binary64 b) }
{
    a < b
}

fn finite_point(p: Point) -> bool
    ensures { result ≡ finite (patterns p) }
{
    is_finite(p.x) & is_finite(p.y) & is_finite(p.z)
}

// Whether each coordinate of one point is at most that of another.
fn not_above(p: Point, q: Point) -> bool
    ensures { result ≡ le_point (patterns p) (patterns q) }
{
    at_most(p.x, q.x) & at_most(p.y, q.y) & at_most(p.z, q.z)
}

// The coordinate of a point on an axis; what is no other axis is the last.
fn coordinate(p: Point, axis: u64) -> f64
    ensures { to_bits binary64 result ≡ coordinate_of axis (patterns p) }
{
    if axis == 0 {
        return p.x;
    }
    if axis == 1 {
        return p.y;
    }
    p.z
}

// 28: floats finite, box low not above high, axis 0 to 2.
pub fn oracle_right(o: Oracle) -> bool
    ensures { result ≡ right-oracle (oracle_of o) }
{
    match o {
        Oracle::Every => true,
        Oracle::Box(low, high) => finite_point(low) & finite_point(high) & not_above(low, high),
        Oracle::Plane(axis, value) => is_finite(value) & (axis <= 2),
    }
}

// The test of one point: a volume is picked where some of its points pass the first test and some the second.
pub fn holds(o: Oracle, second: bool, p: Point) -> bool
    ensures { result ≡ holds_of (oracle_of o) second (patterns p) }
{
    match o {
        Oracle::Every => true,
        Oracle::Box(low, high) => {
            if second {
                return true;
            }
            not_above(low, p) & not_above(p, high)
        }
        Oracle::Plane(axis, value) => {
            let c = coordinate(p, axis);
            if second {
                return below(value, c);
            }
            below(c, value)
        }
    }
}
