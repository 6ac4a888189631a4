// The derivative of a model.
ghost use Rattle.std.specs.Prelude.{◌≡◌};
ghost use Rattle.model.specs.Answers.{derivation};
ghost use Rattle.model.specs.Derivative.{derived_of};

use crate::answers::DerivativeError;
use crate::reactions::react_all;
use crate::species::unknown_among;
use state::parts::zero;

// Writes to dy the derivative of the amounts y. Reaction i has the rate rates[i], and from species[4 * i] on its two
// reactants and two products, counted from 1, and 0 for none. A refusal of lengths or species writes nothing.
#[tactic(auto, unfolding(crate::specs::Derivative::derived_of, words::specs::Loop::pick))]
pub fn derivative(
    reactions: usize,
    y: &[f64],
    rates: &[f64],
    species: &[usize],
    dy: &mut [f64],
) -> Result<(), DerivativeError>
    ensures { derivation result dy.new
        ≡ derived_of reactions y.now rates.now species.now dy.old }
{
    if dy.len() != y.len() || rates.len() < reactions || species.len() / 4 < reactions {
        return Err(DerivativeError::Length);
    }
    if unknown_among(y.len(), &species[..4 * reactions]) {
        return Err(DerivativeError::Species);
    }
    zero(dy);
    react_all(reactions, y, rates, species, dy);
    Ok(())
}
