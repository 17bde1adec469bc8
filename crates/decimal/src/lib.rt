// Decimal texts, read as the float nearest to each.
//
// A text is an optional minus, digits, perhaps a point with digits behind it, perhaps an exponent: e or E, an optional sign, one
// or two digits. Its digits are one whole number below 10^15, and the power of ten that scales it is 22 at most in size: both are
// floats exactly, so that one multiplication or one division gives the float nearest to the decimal. What is longer, or scaled
// further, is refused.
#![tactic(auto)]

ghost use Rattle.std.specs.Prelude.{◌≡◌, ◌+◌, ◌*◌, ◌^◌, ◌<◌, ◌≤◌, true, false, if◌then◌else◌, Some};
ghost use Rattle.std.specs.Float.{binary64};
ghost use Rattle.std.specs.Float.Ieee.{neg, round};
ghost use Rattle.std.specs.Float.Ieee.Exact.{HasValue};
ghost use Rattle.decimal.specs.Decimal.{capped, digits_of, short_of, signed_of, exponent_of};
ghost use Rattle.decimal.specs.Decimal.{nearest_to, scaled_by, fraction_of, behind_of, unsigned_of, decimal_of};

use commands::words;

// The digits at the start of a text: the number that they give behind others, 10^15 where it is more, and how many there are.
#[derive(Clone, Copy)]
struct Digits {
    value: u64,
    count: usize,
}

// What an exponent says: how far up or down the power of ten goes.
#[derive(Clone, Copy)]
enum Power {
    Up(u64),
    Down(u64),
}

// A number with one more digit, 10^15 where it is more.
fn joined(n: u64, d: u64) -> u64
    requires { (n ≤ 10 ^ 15) × (d ≤ 9) }
    ensures { result ≡ capped (10 * n + d) }
{
    let v = 10 * n + d;
    if v < 1000000000000000 {
        return v;
    }
    1000000000000000
}

// The digits that a text starts with, behind those that gave n.
fn digits_in(n: u64, text: &[u8]) -> Digits
    requires { n ≤ 10 ^ 15 }
    ensures { result ≡ digits_of n text.now }
{
    // Those before i are digits, and give `value` behind n.
    let mut value = n;
    for i in 0..text.len() {
        let b = text[i];
        if !words::is_digit(b) {
            return Digits { value, count: i };
        }
        value = joined(value, words::digit(b));
    }
    Digits {
        value,
        count: text.len(),
    }
}

// The number that one or two digits are.
fn short_in(text: &[u8]) -> Option<u64>
    ensures { result ≡ short_of text.now }
{
    if 2 < text.len() {
        return None;
    }
    words::number_in(text)
}

// The power that a number with an optional sign gives.
fn signed_in(text: &[u8]) -> Option<Power>
    ensures { result ≡ signed_of text.now }
{
    if text.len() == 0 {
        return None;
    }
    let sign = text[0];
    if sign == b'-' {
        return short_in(&text[1..]).map(Power::Down);
    }
    if sign == b'+' {
        return short_in(&text[1..]).map(Power::Up);
    }
    short_in(text).map(Power::Up)
}

// The power that the rest of a text gives: an exponent, or nothing.
fn exponent_in(text: &[u8]) -> Option<Power>
    ensures { result ≡ exponent_of text.now }
{
    if text.len() == 0 {
        return Some(Power::Up(0));
    }
    let e = text[0];
    if (e == b'e') | (e == b'E') {
        return signed_in(&text[1..]);
    }
    None
}

// Ten to the k, exactly.
fn ten_to(k: u64) -> f64
    requires { k ≤ 22 }
    ensures { HasValue result false (10 ^ k) 1 }
{
    // The power is ten to the i.
    let mut power = 1.0;
    for i in 0..k {
        power = power * 10.0;
    }
    power
}

// The float nearest to m × 10^k.
fn times(m: u64, k: u64) -> f64
    requires { (m < 10 ^ 15) × (k ≤ 22) }
    ensures { result ≡ round binary64 false (m * 10 ^ k) 1 }
{
    std::num::nearest_u64_to_f64(m) * ten_to(k)
}

// The float nearest to m / 10^k.
fn over(m: u64, k: u64) -> f64
    requires { (m < 10 ^ 15) × (k ≤ 22) }
    ensures { result ≡ round binary64 false m (10 ^ k) }
{
    std::num::nearest_u64_to_f64(m) / ten_to(k)
}

// A magnitude with its sign.
fn signed(minus: bool, x: f64) -> f64
    ensures { result ≡ (if minus then neg x else x) }
{
    if minus {
        return -x;
    }
    x
}

// The float nearest to m × 10^up / 10^down, where one operation gives it.
fn nearest(minus: bool, m: u64, up: u64, down: u64) -> Option<f64>
    ensures { result ≡ nearest_to minus m up down }
{
    if 1000000000000000 <= m {
        return None;
    }
    if down <= up {
        let k = up - down;
        if 22 < k {
            return None;
        }
        return Some(signed(minus, times(m, k)));
    }
    let k = down - up;
    if 22 < k {
        return None;
    }
    Some(signed(minus, over(m, k)))
}

// The float of m with so many places behind the point, and a power of ten.
fn scaled(minus: bool, m: u64, places: u64, power: Power) -> Option<f64>
    ensures { result ≡ scaled_by minus m places (Some power) }
{
    match power {
        Power::Up(k) => nearest(minus, m, k, places),
        Power::Down(k) => {
            if (22 < places) | (22 < k) {
                return None;
            }
            nearest(minus, m, 0, places + k)
        }
    }
}

// What stands behind the point: digits, and perhaps an exponent. The digits before the point gave n.
fn fraction(minus: bool, n: u64, text: &[u8]) -> Option<f64>
    requires { n ≤ 10 ^ 15 }
    ensures { result ≡ fraction_of minus n text.now }
{
    let d = digits_in(n, text);
    let m = d.value;
    let places = d.count;
    if places == 0 {
        return None;
    }
    let power = exponent_in(&text[places..])?;
    scaled(minus, m, places as u64, power)
}

// What stands behind the first digits, which gave n: perhaps a point with digits, and perhaps an exponent.
fn behind(minus: bool, n: u64, text: &[u8]) -> Option<f64>
    requires { n ≤ 10 ^ 15 }
    ensures { result ≡ behind_of minus n text.now }
{
    if text.len() == 0 {
        return nearest(minus, n, 0, 0);
    }
    if text[0] == b'.' {
        return fraction(minus, n, &text[1..]);
    }
    let power = exponent_in(text)?;
    scaled(minus, n, 0, power)
}

// A text without its sign.
fn unsigned(minus: bool, text: &[u8]) -> Option<f64>
    ensures { result ≡ unsigned_of minus text.now }
{
    let d = digits_in(0, text);
    let n = d.value;
    let count = d.count;
    if count == 0 {
        return None;
    }
    behind(minus, n, &text[count..])
}

// The float nearest to the decimal that a text is, where it is one that is read exactly. A minus before a zero gives −0.
pub fn decimal_in(text: &[u8]) -> Option<f64>
    ensures { result ≡ decimal_of text.now }
{
    if text.len() == 0 {
        return None;
    }
    if text[0] == b'-' {
        return unsigned(true, &text[1..]);
    }
    unsigned(false, text)
}
