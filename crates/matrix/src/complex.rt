// Complex numbers, with the arithmetic that lu.rs and linear.rs write out by hand.
ghost use Rattle.std.specs.Prelude.{◌≡◌};
ghost use Rattle.matrix.specs.Complex.{negated_complex, plus_complex, times_complex};
ghost use Rattle.matrix.specs.Complex.{square_complex, over_complex};

use std::ops::{Add, Div, Mul, Neg};

#[derive(Clone, Copy)]
pub struct Complex {
    pub re: f64,
    pub im: f64,
}

impl Complex {
    // The square of the absolute value.
    #[tactic(auto, unfolding(crate::specs::Complex::square_complex))]
    pub fn square(self) -> f64
        ensures { result ≡ square_complex self }
    {
        self.re * self.re + self.im * self.im
    }
}

impl Neg for Complex {
    type Output = Complex;

    ghost neg_gives = { λ z r. r ≡ negated_complex z };

    #[tactic(auto, unfolding(crate::specs::Complex::negated_complex))]
    fn neg(self) -> Complex {
        Complex {
            re: -self.re,
            im: -self.im,
        }
    }
}

impl Add for Complex {
    type Output = Complex;

    ghost add_gives = { λ x y r. r ≡ plus_complex x y };

    #[tactic(auto, unfolding(crate::specs::Complex::plus_complex))]
    fn add(self, y: Complex) -> Complex {
        Complex {
            re: self.re + y.re,
            im: self.im + y.im,
        }
    }
}

impl Mul for Complex {
    type Output = Complex;

    ghost mul_gives = { λ x t r. r ≡ times_complex x t };

    #[tactic(auto, unfolding(crate::specs::Complex::times_complex))]
    fn mul(self, t: Complex) -> Complex {
        Complex {
            re: self.re * t.re - self.im * t.im,
            im: self.im * t.re + self.re * t.im,
        }
    }
}

impl Div for Complex {
    type Output = Complex;

    ghost div_gives = { λ x z r. r ≡ over_complex x z };

    #[tactic(auto, unfolding(crate::specs::Complex::over_complex))]
    fn div(self, z: Complex) -> Complex {
        let den = z.square();
        Complex {
            re: (self.re * z.re + self.im * z.im) / den,
            im: (self.im * z.re - self.re * z.im) / den,
        }
    }
}
