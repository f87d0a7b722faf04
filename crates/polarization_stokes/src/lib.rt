// Jones and Stokes vectors, as polarization.rs has them.
#![tactic(auto)]

ghost use Rattle.std.specs.Prelude.{◌≡◌};
ghost use Rattle.polarization_stokes.specs.Stokes.{unpolarized, degree_of_polarization, degree_of_linear_polarization, degree_of_circular_polarization, orientation_angle_rad, ellipticity_angle_rad};
ghost use Rattle.polarization_stokes.specs.Jones.{linear_horizontal, linear_vertical, linear_45, circular_right, circular_left, intensity, normalize, to_stokes};

use thin_film_complex::Complex;

const FRAC_1_SQRT_2: f64 = 0.7071067811865476;

// The transverse electric field: ex is x or s, ey is y or p.
#[derive(Clone, Copy)]
pub struct JonesVector {
    pub ex: Complex,
    pub ey: Complex,
}

// Intensity, horizontal against vertical, +45 against -45 degrees, and circular preference.
#[derive(Clone, Copy)]
pub struct StokesVector {
    pub s0: f64,
    pub s1: f64,
    pub s2: f64,
    pub s3: f64,
}

impl JonesVector {
    pub fn new(ex: Complex, ey: Complex) -> Self
        ensures { result ≡ record { ex = ex; ey = ey } }
    {
        Self { ex, ey }
    }

    pub fn linear_horizontal() -> Self
        ensures { result ≡ linear_horizontal }
    {
        Self::new(Complex::real(1.0), Complex::zero())
    }

    pub fn linear_vertical() -> Self
        ensures { result ≡ linear_vertical }
    {
        Self::new(Complex::zero(), Complex::real(1.0))
    }

    pub fn linear_45() -> Self
        ensures { result ≡ linear_45 }
    {
        Self::new(Complex::real(FRAC_1_SQRT_2), Complex::real(FRAC_1_SQRT_2))
    }

    // (1, -i) / sqrt(2): its Stokes S3 is negative.
    pub fn circular_right() -> Self
        ensures { result ≡ circular_right }
    {
        Self::new(
            Complex::real(FRAC_1_SQRT_2),
            Complex::new(0.0, -FRAC_1_SQRT_2),
        )
    }

    // (1, i) / sqrt(2)
    pub fn circular_left() -> Self
        ensures { result ≡ circular_left }
    {
        Self::new(
            Complex::real(FRAC_1_SQRT_2),
            Complex::new(0.0, FRAC_1_SQRT_2),
        )
    }

    // |Ex|^2 + |Ey|^2
    pub fn intensity(self) -> f64
        ensures { result ≡ intensity self }
    {
        self.ex.norm_sq() + self.ey.norm_sq()
    }

    // The same state at intensity 1; as it is where there is hardly any.
    pub fn normalize(self) -> Self
        ensures { result ≡ normalize self }
    {
        let i = self.intensity();
        if i <= 1e-28 {
            return self;
        }
        let inv_sqrt_i = 1.0 / math_sqrt::sqrt(i);
        Self {
            ex: self.ex.scale(inv_sqrt_i),
            ey: self.ey.scale(inv_sqrt_i),
        }
    }

    // The Stokes parameters after Born and Wolf, in parts.
    pub fn to_stokes(self) -> StokesVector
        ensures { result ≡ to_stokes self }
    {
        let i_x = self.ex.norm_sq();
        let i_y = self.ey.norm_sq();
        let ex_ey_conj_re = self.ex.re * self.ey.re + self.ex.im * self.ey.im;
        let ex_conj_ey_im = self.ex.re * self.ey.im - self.ex.im * self.ey.re;
        StokesVector {
            s0: i_x + i_y,
            s1: i_x - i_y,
            s2: 2.0 * ex_ey_conj_re,
            s3: 2.0 * ex_conj_ey_im,
        }
    }
}

impl StokesVector {
    pub fn new(s0: f64, s1: f64, s2: f64, s3: f64) -> Self
        ensures { result ≡ record { s0 = s0; s1 = s1; s2 = s2; s3 = s3 } }
    {
        Self { s0, s1, s2, s3 }
    }

    pub fn unpolarized(intensity: f64) -> Self
        ensures { result ≡ unpolarized intensity }
    {
        Self {
            s0: ieee::max(intensity, 0.0),
            s1: 0.0,
            s2: 0.0,
            s3: 0.0,
        }
    }

    pub fn degree_of_polarization(self) -> f64
        ensures { result ≡ degree_of_polarization self }
    {
        if self.s0 <= 1e-15 {
            return 0.0;
        }
        let p_sq = self.s1 * self.s1 + self.s2 * self.s2 + self.s3 * self.s3;
        ieee::clamp(math_sqrt::sqrt(p_sq) / self.s0, 0.0, 1.0)
    }

    pub fn degree_of_linear_polarization(self) -> f64
        ensures { result ≡ degree_of_linear_polarization self }
    {
        if self.s0 <= 1e-15 {
            return 0.0;
        }
        let lp = math_sqrt::sqrt(self.s1 * self.s1 + self.s2 * self.s2);
        ieee::clamp(lp / self.s0, 0.0, 1.0)
    }

    pub fn degree_of_circular_polarization(self) -> f64
        ensures { result ≡ degree_of_circular_polarization self }
    {
        if self.s0 <= 1e-15 {
            return 0.0;
        }
        ieee::clamp(ieee::abs(self.s3) / self.s0, 0.0, 1.0)
    }

    // Half of atan2(S2, S1).
    pub fn orientation_angle_rad(self) -> f64
        ensures { result ≡ orientation_angle_rad self }
    {
        0.5 * math_atan::atan2(self.s2, self.s1)
    }

    // Half of arcsin(S3 / S0).
    pub fn ellipticity_angle_rad(self) -> f64
        ensures { result ≡ ellipticity_angle_rad self }
    {
        if self.s0 <= 1e-15 {
            return 0.0;
        }
        let ratio = ieee::clamp(self.s3 / self.s0, -1.0, 1.0);
        0.5 * math_atan::asin(ratio)
    }
}
