// Indices off the data sheet: a low and a high reflectance of a bare surface met head-on, where both
// indices are known as ranges within 1 to 4.
#![tactic(auto)]

ghost use Rattle.std.specs.Prelude.{◌≡◌};
ghost use Rattle.reflectance_range.specs.Range.{index_valid, range_valid, head_on, upper, lower, high, low, reflectance_range};
ghost use Rattle.refusal.specs.Outcome.{outcome};

use refusal::Refusal;

// No pair of indices within the ranges reflects less than low or more than high.
#[derive(Clone, Copy)]
pub struct ReflectanceRange {
    pub low: f64,
    pub high: f64,
}

// An index from 1 to 4; a NaN is none.
fn index_valid(n: f64) -> bool
    ensures { result ≡ index_valid n }
{
    if 1.0 <= n {
        return n <= 4.0;
    }
    false
}

// Two ends of a range within 1 to 4.
fn range_valid(low: f64, high: f64) -> bool
    ensures { result ≡ range_valid low high }
{
    if !index_valid(low) {
        return false;
    }
    if !index_valid(high) {
        return false;
    }
    low <= high
}

// What a bare surface reflects head-on.
fn head_on(n1: f64, n2: f64) -> f64
    ensures { result ≡ head_on n1 n2 }
{
    let reflectances = fresnel::fresnel_dielectric(1.0, n1, n2);
    reflectances.rs
}

// No less than the exact fraction: 1 + 2^-49 is more than its roundings.
fn upper(n1: f64, n2: f64) -> f64
    ensures { result ≡ upper n1 n2 }
{
    head_on(n1, n2) * 1.0000000000000018
}

// No more than the exact fraction: 1 - 2^-49.
fn lower(n1: f64, n2: f64) -> f64
    ensures { result ≡ lower n1 n2 }
{
    head_on(n1, n2) * 0.9999999999999982
}

// At the corner where the indices are farthest apart.
fn high(n1_low: f64, n1_high: f64, n2_low: f64, n2_high: f64) -> f64
    ensures { result ≡ high n1_low n1_high n2_low n2_high }
{
    ieee::max(upper(n1_high, n2_low), upper(n1_low, n2_high))
}

// At the corner where they are nearest; zero where the ranges meet.
fn low(n1_low: f64, n1_high: f64, n2_low: f64, n2_high: f64) -> f64
    ensures { result ≡ low n1_low n1_high n2_low n2_high }
{
    if n1_high < n2_low {
        return lower(n1_high, n2_low);
    }
    if n2_high < n1_low {
        return lower(n1_low, n2_high);
    }
    0.0
}

// A low and a high reflectance; 13 for a low end above its high end, or an end that is NaN or outside
// 1 to 4.
pub fn reflectance_range(
    n1_low: f64,
    n1_high: f64,
    n2_low: f64,
    n2_high: f64,
) -> Result<ReflectanceRange, Refusal>
    ensures { outcome result ≡ reflectance_range n1_low n1_high n2_low n2_high }
{
    if !range_valid(n1_low, n1_high) {
        return Err(Refusal::Range);
    }
    if !range_valid(n2_low, n2_high) {
        return Err(Refusal::Range);
    }
    Ok(ReflectanceRange {
        low: low(n1_low, n1_high, n2_low, n2_high),
        high: high(n1_low, n1_high, n2_low, n2_high),
    })
}
