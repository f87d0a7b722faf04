// Complex numbers of two f64, as thin_film.rs has them: every operation rounds, in the Rust's order.
#![tactic(auto)]

ghost use Rattle.std.specs.Prelude.{◌≡◌};
ghost use Rattle.thin_film_complex.specs.Complex.{real, zero, scale, norm_sq, norm, arg, exp, half_root, sqrt, add, sub, mul, div};

#[derive(Clone, Copy)]
pub struct Complex {
    pub re: f64,
    pub im: f64,
}

// The root of x / 2, of zero where that is below zero or a NaN.
fn half_root(x: f64) -> f64
    ensures { result ≡ half_root x }
{
    math_sqrt::sqrt(ieee::max(x / 2.0, 0.0))
}

impl Complex {
    // z = x + i y
    pub fn new(re: f64, im: f64) -> Self
        ensures { result ≡ record { re = re; im = im } }
    {
        Self { re, im }
    }

    // z = x + 0 i
    pub fn real(re: f64) -> Self
        ensures { result ≡ real re }
    {
        Self { re, im: 0.0 }
    }

    pub fn zero() -> Self
        ensures { result ≡ zero }
    {
        Self { re: 0.0, im: 0.0 }
    }

    pub fn scale(self, s: f64) -> Self
        ensures { result ≡ scale self s }
    {
        Self {
            re: self.re * s,
            im: self.im * s,
        }
    }

    // |z|^2 = x^2 + y^2
    pub fn norm_sq(self) -> f64
        ensures { result ≡ norm_sq self }
    {
        self.re * self.re + self.im * self.im
    }

    pub fn norm(self) -> f64
        ensures { result ≡ norm self }
    {
        math_sqrt::sqrt(self.norm_sq())
    }

    pub fn arg(self) -> f64
        ensures { result ≡ arg self }
    {
        math_atan::atan2(self.im, self.re)
    }

    // e^z = e^x (cos y + i sin y)
    pub fn exp(self) -> Self
        ensures { result ≡ exp self }
    {
        let exp_x = math_exp::exp(self.re);
        let y = math_trig::sin_cos(self.im);
        Self {
            re: exp_x * y.cos,
            im: exp_x * y.sin,
        }
    }

    // The principal root.
    pub fn sqrt(self) -> Self
        ensures { result ≡ sqrt self }
    {
        if self.im == 0.0 {
            if self.re >= 0.0009765625 {
                if self.re <= 1024.0 {
                    // the norm is the real part itself
                    return Self {
                        re: half_root(self.re + self.re),
                        im: 0.0,
                    };
                }
            }
        }
        let r = self.norm();
        let u = half_root(r + self.re);
        let v = half_root(r - self.re);
        if self.im >= 0.0 {
            Self { re: u, im: v }
        } else {
            Self { re: u, im: -v }
        }
    }

    pub fn add(self, rhs: Self) -> Self
        ensures { result ≡ add self rhs }
    {
        Self {
            re: self.re + rhs.re,
            im: self.im + rhs.im,
        }
    }

    pub fn sub(self, rhs: Self) -> Self
        ensures { result ≡ sub self rhs }
    {
        Self {
            re: self.re - rhs.re,
            im: self.im - rhs.im,
        }
    }

    pub fn mul(self, rhs: Self) -> Self
        ensures { result ≡ mul self rhs }
    {
        Self {
            re: self.re * rhs.re - self.im * rhs.im,
            im: self.re * rhs.im + self.im * rhs.re,
        }
    }

    pub fn div(self, rhs: Self) -> Self
        ensures { result ≡ div self rhs }
    {
        let denom = rhs.re * rhs.re + rhs.im * rhs.im;
        if denom < 1e-28 {
            return Self::zero();
        }
        Self {
            re: (self.re * rhs.re + self.im * rhs.im) / denom,
            im: (self.im * rhs.re - self.re * rhs.im) / denom,
        }
    }
}
