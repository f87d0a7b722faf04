// The functions of document 01's section 2 for callers in C and Rust: what the comparison at scale
// and the benchmark link.
ghost use Rattle.std.specs.Prelude.{◌≡◌};
ghost use Rattle.std.specs.Float.{binary64};
ghost use Rattle.math_root.specs.Root.{square_root};
ghost use Rattle.math_trig.specs.Trig.{sin, cos};
ghost use Rattle.math_exp.specs.Exp.{exp};
ghost use Rattle.math_atan.specs.Atan.{atan, asin, atan2};

pub fn dihkelu_sqrt(x: f64) -> f64
    ensures { result ≡ square_root binary64 x }
{
    math_sqrt::sqrt(x)
}

pub fn dihkelu_sin(x: f64) -> f64
    ensures { result ≡ sin x }
{
    math_trig::sin(x)
}

pub fn dihkelu_cos(x: f64) -> f64
    ensures { result ≡ cos x }
{
    math_trig::cos(x)
}

pub fn dihkelu_exp(x: f64) -> f64
    ensures { result ≡ exp x }
{
    math_exp::exp(x)
}

pub fn dihkelu_atan(x: f64) -> f64
    ensures { result ≡ atan x }
{
    math_atan::atan(x)
}

pub fn dihkelu_asin(x: f64) -> f64
    ensures { result ≡ asin x }
{
    math_atan::asin(x)
}

pub fn dihkelu_atan2(y: f64, x: f64) -> f64
    ensures { result ≡ atan2 y x }
{
    math_atan::atan2(y, x)
}
