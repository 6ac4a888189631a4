// Groups of the lent memory that travel as one. A clause `same` says that a group still holds the slices that it was
// made of, so that who lent them learns what they hold.
ghost use Rattle.std.specs.Prelude.{◌≡◌, ◌*◌, eqb};
ghost use Rattle.state.specs.Lent.{newton_of, SameNewton, newton_fits, zero_newton};
ghost use Rattle.state.specs.Lent.{factors_of, SameFactors, factors_fits, zero_factors};
ghost use Rattle.state.specs.Lent.{differences_of, SameDifferences, differences_fits, zero_differences};
ghost use Rattle.state.specs.Lent.{cleared_newton, cleared_factors, cleared_differences};

use crate::parts::{zero, zero_pivots};

#[derive(Drop)]
pub struct Newton<'a> {
    pub z1: &'a mut [f64],
    pub z2: &'a mut [f64],
    pub z3: &'a mut [f64],
    pub f1: &'a mut [f64],
    pub f2: &'a mut [f64],
    pub f3: &'a mut [f64],
}

#[derive(Drop)]
pub struct Factors<'a> {
    pub e1: &'a mut [f64],
    pub e2r: &'a mut [f64],
    pub e2i: &'a mut [f64],
    pub ip1: &'a mut [usize],
    pub ip2: &'a mut [usize],
}

#[derive(Drop)]
pub struct Differences<'a> {
    pub y_perturbed: &'a mut [f64],
    pub f_perturbed: &'a mut [f64],
    pub f_origin: &'a mut [f64],
}

// The parts that only the solver and the host's answers write: all of the lent memory but y, f0 and what is given.
#[derive(Drop)]
pub struct Work<'a> {
    pub scal: &'a mut [f64],
    pub cont: &'a mut [f64],
    pub z1: &'a mut [f64],
    pub z2: &'a mut [f64],
    pub z3: &'a mut [f64],
    pub f1: &'a mut [f64],
    pub f2: &'a mut [f64],
    pub f3: &'a mut [f64],
    pub jac: &'a mut [f64],
    pub e1: &'a mut [f64],
    pub e2r: &'a mut [f64],
    pub e2i: &'a mut [f64],
    pub ip1: &'a mut [usize],
    pub ip2: &'a mut [usize],
    pub y_perturbed: &'a mut [f64],
    pub f_perturbed: &'a mut [f64],
    pub f_origin: &'a mut [f64],
}

impl Newton<'_> {
    // Whether each slice has n entries.
    #[tactic(auto, unfolding(crate::specs::Memory::newton_fit))]
    pub fn fits(&self, n: usize) -> bool
        ensures { result ≡ newton_fits n (newton_of self.now) }
    {
        (self.z1.len() == n)
            & (self.z2.len() == n)
            & (self.z3.len() == n)
            & (self.f1.len() == n)
            & (self.f2.len() == n)
            & (self.f3.len() == n)
    }

    pub fn clear(&mut self)
        ensures same { SameNewton self.new self.old }
        ensures cleared { newton_of self.new ≡ zero_newton (newton_of self.old) }
        ensures whole { self.new ≡ cleared_newton self.old }
    {
        zero(self.z1);
        zero(self.z2);
        zero(self.z3);
        zero(self.f1);
        zero(self.f2);
        zero(self.f3);
    }
}

// Whether a matrix of n rows has so many entries. Where n * n wraps, none has.
fn is_square(entries: usize, n: usize) -> bool
    ensures { result ≡ eqb entries (n * n) }
{
    match n.checked_mul(n) {
        Some(square) => entries == square,
        None => false,
    }
}

impl Factors<'_> {
    // Whether the matrices have n * n entries, the pivots n.
    #[tactic(auto, unfolding(crate::specs::Memory::factors_fit))]
    pub fn fits(&self, n: usize) -> bool
        ensures { result ≡ factors_fits n (factors_of self.now) }
    {
        is_square(self.e1.len(), n)
            & is_square(self.e2r.len(), n)
            & is_square(self.e2i.len(), n)
            & (self.ip1.len() == n)
            & (self.ip2.len() == n)
    }

    pub fn clear(&mut self)
        ensures same { SameFactors self.new self.old }
        ensures cleared { factors_of self.new ≡ zero_factors (factors_of self.old) }
        ensures whole { self.new ≡ cleared_factors self.old }
    {
        zero(self.e1);
        zero(self.e2r);
        zero(self.e2i);
        zero_pivots(self.ip1);
        zero_pivots(self.ip2);
    }
}

impl Differences<'_> {
    // Whether each slice has n entries.
    #[tactic(auto, unfolding(crate::specs::Memory::differences_fit))]
    pub fn fits(&self, n: usize) -> bool
        ensures { result ≡ differences_fits n (differences_of self.now) }
    {
        (self.y_perturbed.len() == n) & (self.f_perturbed.len() == n) & (self.f_origin.len() == n)
    }

    pub fn clear(&mut self)
        ensures same { SameDifferences self.new self.old }
        ensures cleared { differences_of self.new ≡ zero_differences (differences_of self.old) }
        ensures whole { self.new ≡ cleared_differences self.old }
    {
        zero(self.y_perturbed);
        zero(self.f_perturbed);
        zero(self.f_origin);
    }
}
