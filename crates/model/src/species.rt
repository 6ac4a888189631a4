// What is done with a species that a reaction names: counted from 1, and 0 where the reaction names none.
ghost use Rattle.std.specs.Prelude.{◌≡◌, ◌≤◌, length, nat_lt};
ghost use Rattle.std.specs.List.{list_any};
ghost use Rattle.model.specs.Model.{times_amount, raised};

// Whether one of the numbers is above n, so that it is no species of n.
pub fn unknown_among(n: usize, numbers: &[usize]) -> bool
    ensures { result ≡ list_any (λ s. nat_lt n s) numbers.now }
{
    numbers.iter().any(|s| n < *s)
}

// v times the amount of the species.
#[tactic(auto, unfolding(crate::specs::Model::times_amount, words::specs::Loop::pick))]
pub fn times_amount(y: &[f64], species: usize, v: f64) -> f64
    requires { species ≤ length y.now }
    ensures { result ≡ times_amount y.now species v }
{
    if species == 0 { v } else { v * y[species - 1] }
}

// v is added at the species.
#[tactic(auto, unfolding(crate::specs::Model::raised, words::specs::Loop::pick))]
pub fn raise(dy: &mut [f64], species: usize, v: f64)
    requires { species ≤ length dy.old }
    ensures { dy.new ≡ raised v species dy.old }
{
    if species != 0 {
        dy[species - 1] += v;
    }
}
