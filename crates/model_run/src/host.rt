// The host of a model, where no plan of it was made.
ghost use Rattle.std.specs.Prelude.{◌≡◌, List, Float};
ghost use Rattle.state.specs.Memory.{Given, Factors, memory, amounts, newton, differences};
ghost use Rattle.history.specs.Host.{wrote};
ghost use Rattle.model_run.specs.Host.{answered_by, reply_to};

use crate::planned::answer_by_plan;
use model::planned::CHANGES;
use state::talk::{Place, Reply, Request};

// Does what a request asks, and replies.
pub fn answer(
    request: Request,
    place: Place,
    reactions: usize,
    rates: &[f64],
    species: &[usize],
    y: &[f64],
    f0: &mut [f64],
    cont: &[f64],
    z1: &mut [f64],
    z2: &mut [f64],
    z3: &mut [f64],
    f1: &mut [f64],
    y_perturbed: &[f64],
    f_perturbed: &mut [f64],
    f_origin: &mut [f64],
) -> Reply
    ensures value { result ≡ reply_to request }
    ensures f_origin_after { (scal f2 f3 : List Float) (g : Given) (f : Factors) → memory
        (amounts y.now f0.new scal cont.now)
        (newton z1.new z2.new z3.new f1.new f2 f3)
        g f
        (differences y_perturbed.now f_perturbed.new f_origin.new)
        ≡ wrote request place (answered_by reactions rates.now species.now request place
        (memory
        (amounts y.now f0.old scal cont.now)
        (newton z1.old z2.old z3.old f1.old f2 f3)
        g f
        (differences y_perturbed.now f_perturbed.old f_origin.old)))
        (memory
        (amounts y.now f0.old scal cont.now)
        (newton z1.old z2.old z3.old f1.old f2 f3)
        g f
        (differences y_perturbed.now f_perturbed.old f_origin.old)) }
{
    let mut changes = [0.0; CHANGES];
    answer_by_plan(
        request,
        place,
        reactions,
        rates,
        species,
        y,
        f0,
        cont,
        z1,
        z2,
        z3,
        f1,
        y_perturbed,
        f_perturbed,
        f_origin,
        None,
        &mut changes,
    )
}
