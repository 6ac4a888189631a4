// What the host does between two advances: asked for a derivative it fills in that of the model's reactions, and every
// report it answers with 'continue'. It goes by the plan of the model, or without one where there is none.
ghost use Rattle.std.specs.Prelude.{◌≡◌, List, length, take, Float, IfSome};
ghost use Rattle.state.specs.Memory.{Given, Factors, memory, amounts, newton, differences};
ghost use Rattle.history.specs.Host.{filled, wrote};
ghost use Rattle.model.specs.Derivative.{derived_of};
ghost use Rattle.model.specs.Plan.{IsPlanOf};
ghost use Rattle.model_run.specs.Host.{derived_at, answered_by, reply_to};

use model::planned::{CHANGES, Plan, derivative_by_plan};
use state::talk::{Place, Reply, Request};

// The derivative of the amounts that are the first n entries of a part, or all of it where it is shorter.
fn derive_first(
    reactions: usize,
    n: usize,
    cont: &[f64],
    rates: &[f64],
    species: &[usize],
    part: &mut [f64],
    plan: Option<&Plan>,
    changes: &mut [f64; CHANGES],
)
    requires { IfSome plan (λ p. IsPlanOf p.now reactions species.now) }
    ensures part_after { part.new
        ≡ (derived_of reactions (take n cont.now) rates.now
        species.now part.old).dy }
    ensures changes_len { length changes.new ≡ 128 }
{
    if n < cont.len() {
        derivative_by_plan(plan, changes, reactions, &cont[..n], rates, species, part);
    } else {
        derivative_by_plan(plan, changes, reactions, cont, rates, species, part);
    }
}

// Fills the part that a place names.
fn fill(
    place: Place,
    reactions: usize,
    rates: &[f64],
    species: &[usize],
    y: &[f64],
    f0: &mut [f64],
    cont: &[f64],
    z1: &mut [f64],
    z2: &mut [f64],
    z3: &mut [f64],
    f1: &mut [f64],
    y_perturbed: &[f64],
    f_perturbed: &mut [f64],
    f_origin: &mut [f64],
    plan: Option<&Plan>,
    changes: &mut [f64; CHANGES],
)
    requires { IfSome plan (λ p. IsPlanOf p.now reactions species.now) }
    ensures f_origin_after { (scal f2 f3 : List Float) (g : Given) (f : Factors) → memory
        (amounts y.now f0.new scal cont.now)
        (newton z1.new z2.new z3.new f1.new f2 f3)
        g f
        (differences y_perturbed.now f_perturbed.new f_origin.new)
        ≡ filled place (derived_at reactions rates.now species.now place
        (memory
        (amounts y.now f0.old scal cont.now)
        (newton z1.old z2.old z3.old f1.old f2 f3)
        g f
        (differences y_perturbed.now f_perturbed.old f_origin.old)))
        (memory
        (amounts y.now f0.old scal cont.now)
        (newton z1.old z2.old z3.old f1.old f2 f3)
        g f
        (differences y_perturbed.now f_perturbed.old f_origin.old)) }
    ensures changes_len { length changes.new ≡ 128 }
{
    let n = y.len();
    match place {
        Place::Nowhere => {}
        Place::YToF0 => {
            derivative_by_plan(plan, changes, reactions, y, rates, species, f0);
        }
        Place::ContToZ1 => derive_first(reactions, n, cont, rates, species, z1, plan, changes),
        Place::ContToZ2 => derive_first(reactions, n, cont, rates, species, z2, plan, changes),
        Place::ContToZ3 => derive_first(reactions, n, cont, rates, species, z3, plan, changes),
        Place::ContToF1 => derive_first(reactions, n, cont, rates, species, f1, plan, changes),
        Place::YToFOrigin => {
            derivative_by_plan(plan, changes, reactions, y, rates, species, f_origin);
        }
        Place::YPerturbedToFPerturbed => {
            derivative_by_plan(
                plan,
                changes,
                reactions,
                y_perturbed,
                rates,
                species,
                f_perturbed,
            );
        }
    }
}

// Does what a request asks, and replies. A Jacobian is not asked for: it is made by differences.
pub fn answer_by_plan(
    request: Request,
    place: Place,
    reactions: usize,
    rates: &[f64],
    species: &[usize],
    y: &[f64],
    f0: &mut [f64],
    cont: &[f64],
    z1: &mut [f64],
    z2: &mut [f64],
    z3: &mut [f64],
    f1: &mut [f64],
    y_perturbed: &[f64],
    f_perturbed: &mut [f64],
    f_origin: &mut [f64],
    plan: Option<&Plan>,
    changes: &mut [f64; CHANGES],
) -> Reply
    requires { IfSome plan (λ p. IsPlanOf p.now reactions species.now) }
    ensures value { result ≡ reply_to request }
    ensures f_origin_after { (scal f2 f3 : List Float) (g : Given) (f : Factors) → memory
        (amounts y.now f0.new scal cont.now)
        (newton z1.new z2.new z3.new f1.new f2 f3)
        g f
        (differences y_perturbed.now f_perturbed.new f_origin.new)
        ≡ wrote request place (answered_by reactions rates.now species.now request place
        (memory
        (amounts y.now f0.old scal cont.now)
        (newton z1.old z2.old z3.old f1.old f2 f3)
        g f
        (differences y_perturbed.now f_perturbed.old f_origin.old)))
        (memory
        (amounts y.now f0.old scal cont.now)
        (newton z1.old z2.old z3.old f1.old f2 f3)
        g f
        (differences y_perturbed.now f_perturbed.old f_origin.old)) }
    ensures changes_len { length changes.new ≡ 128 }
{
    match request {
        Request::Derivative(_) => {
            fill(
                place,
                reactions,
                rates,
                species,
                y,
                f0,
                cont,
                z1,
                z2,
                z3,
                f1,
                y_perturbed,
                f_perturbed,
                f_origin,
                plan,
                changes,
            );
            Reply::Filled
        }
        Request::Jacobian(_) => Reply::Filled,
        Request::Report(_, _, _) => Reply::Continue,
        Request::Ended(_) => Reply::Filled,
    }
}
