// Quotients by 6, 12, 20, 72, 132 and 272 without a division. Each is a sum of two powers of 2, so that a product with it is two
// exact ones, and 1 less the quotient has the bits that it has with a division.
#![tactic(auto)]

ghost use Rattle.std.specs.Prelude.{◌≡◌};
ghost use Rattle.ieee_quotient.specs.Quick.{quick};

// x / (a + b), but for its last bits where x is below 2^-100. y is just below 1 / (a + b), and u just above.
pub fn quick(x: f64, a: f64, b: f64, y: f64, u: f64) -> f64
    ensures { result ≡ quick a b y u x }
{
    let q = x * y;
    let left = (x - x * (y * a)) - x * (y * b);
    q + left * u
}

pub const BELOW_6: f64 = 0.16666666666666663;

pub const ABOVE_6: f64 = 0.1666666666666667;

pub const BELOW_12: f64 = 0.08333333333333331;

pub const ABOVE_12: f64 = 0.08333333333333336;

pub const BELOW_20: f64 = 0.04999999999999999;

pub const ABOVE_20: f64 = 0.05000000000000001;

pub const BELOW_72: f64 = 0.013888888888888886;

pub const ABOVE_72: f64 = 0.013888888888888892;

pub const BELOW_132: f64 = 0.007575757575757574;

pub const ABOVE_132: f64 = 0.007575757575757577;

pub const BELOW_272: f64 = 0.0036764705882352936;

pub const ABOVE_272: f64 = 0.003676470588235295;
