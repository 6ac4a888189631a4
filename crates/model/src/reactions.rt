// The reactions of a model, in order, on slices whose lengths and numbers of species were tested.
ghost use Rattle.std.specs.Prelude.{◌≡◌, ℕ, ◌*◌, ◌<◌, ◌≤◌, length, get_or};
ghost use Rattle.model.specs.Model.{reaction, reacted, all_reacted};
ghost use Rattle.model.specs.Derivative.{reactions_of};

use crate::species::{raise, times_amount};

// One reaction's share of the derivative.
pub fn react(
    y: &[f64],
    dy: &mut [f64],
    rate: f64,
    reactant1: usize,
    reactant2: usize,
    product1: usize,
    product2: usize,
)
    requires { (length dy.old ≡ length y.now)
        × (reactant1 ≤ length y.now)
        × (reactant2 ≤ length y.now)
        × (product1 ≤ length y.now)
        × (product2 ≤ length y.now) }
    ensures { dy.new
        ≡ reacted y.now (reaction rate reactant1 reactant2 product1 product2) dy.old }
{
    let v = times_amount(y, reactant2, times_amount(y, reactant1, rate));
    raise(dy, reactant1, -v);
    raise(dy, reactant2, -v);
    raise(dy, product1, v);
    raise(dy, product2, v);
}

// The shares of the first `reactions` reactions: reaction i has the rate rates[i], and its four species
// stand from species[4 * i] on.
pub fn react_all(reactions: usize, y: &[f64], rates: &[f64], species: &[usize], dy: &mut [f64])
    requires dy_len { (length dy.old ≡ length y.now)
        × (reactions ≤ length rates.now)
        × (4 * reactions ≤ length species.now) }
    requires by_index { (k : ℕ) → k < 4 * reactions → get_or species.now k 0 ≤ length y.now }
    ensures { dy.new
        ≡ all_reacted y.now
        (reactions_of rates.now species.now reactions) dy.old }
{
    for i in 0..reactions {
        let k = 4 * i;
        react(
            y,
            dy,
            rates[i],
            species[k],
            species[k + 1],
            species[k + 2],
            species[k + 3],
        );
    }
}
