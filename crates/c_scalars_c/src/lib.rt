// The calls of the library c_scalars as C sees them: each calls the function of its name there and states its clauses. The archive
// is handed on as libc_scalars.a.
#![tactic(auto)]

ghost use Rattle.std.specs.Prelude.{◌≡◌};
ghost use Rattle.std.specs.Float.{binary64};
ghost use Rattle.math_root.specs.Root.{square_root};
ghost use Rattle.math_trig.specs.Trig.{sin, cos};
ghost use Rattle.math_exp.specs.Exp.{exp};
ghost use Rattle.math_atan.specs.Atan.{atan, asin, atan2};

#[unsafe(no_mangle)]
pub extern "C" fn dihkelu_sqrt(x: f64) -> f64
    ensures { result ≡ square_root binary64 x }
{
    c_scalars::dihkelu_sqrt(x)
}

#[unsafe(no_mangle)]
pub extern "C" fn dihkelu_sin(x: f64) -> f64
    ensures { result ≡ sin x }
{
    c_scalars::dihkelu_sin(x)
}

#[unsafe(no_mangle)]
pub extern "C" fn dihkelu_cos(x: f64) -> f64
    ensures { result ≡ cos x }
{
    c_scalars::dihkelu_cos(x)
}

#[unsafe(no_mangle)]
pub extern "C" fn dihkelu_exp(x: f64) -> f64
    ensures { result ≡ exp x }
{
    c_scalars::dihkelu_exp(x)
}

#[unsafe(no_mangle)]
pub extern "C" fn dihkelu_atan(x: f64) -> f64
    ensures { result ≡ atan x }
{
    c_scalars::dihkelu_atan(x)
}

#[unsafe(no_mangle)]
pub extern "C" fn dihkelu_asin(x: f64) -> f64
    ensures { result ≡ asin x }
{
    c_scalars::dihkelu_asin(x)
}

#[unsafe(no_mangle)]
pub extern "C" fn dihkelu_atan2(y: f64, x: f64) -> f64
    ensures { result ≡ atan2 y x }
{
    c_scalars::dihkelu_atan2(y, x)
}
