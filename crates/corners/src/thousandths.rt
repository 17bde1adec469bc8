// A float as whole thousandths.
ghost use Rattle.std.specs.Prelude.{◌≡◌};
ghost use Rattle.corners.specs.Thousandths.{digit_count, thousandths_of};

// A float's size.
fn size(x: f64) -> f64
    ensures { result ≡ digit_count x }
{
    if x < 0.0 {
        return -x;
    }
    x
}

// Whether a float is below zero, and its size in thousandths, rounded; none where that is above 10^9, or no number. Up to there a
// thousand times the size is below 2^53, so that its whole part is that of the float product.
pub fn in_thousandths(x: f64) -> Option<(bool, u64)>
    ensures { result ≡ thousandths_of x }
{
    let y = size(x) * 1000.0 + 0.5;
    if y > -1.0 {
        if y < 18446744073709551616.0 {
            let n = std::num::truncating_f64_to_u64(y);
            if n <= 1000000000000 {
                return Some((x < 0.0, n));
            }
        }
    }
    None
}
