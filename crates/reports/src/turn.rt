// A run in lent memory, answered and advanced by one turn.
ghost use Rattle.std.specs.Prelude.{◌≡◌};
ghost use Rattle.state.specs.Memory.{Memory, memory, amounts, newton, given, factors, differences};
ghost use Rattle.history.specs.History.{point, next_point};
ghost use Rattle.model_run.specs.Host.{answered_by};
ghost use Rattle.model_run.specs.Budget.{turn_of};

use model_run::host::answer;
use radau::advance::Resumed;
use state::talk::{Call, Refused};

// Where an answer leaves the talk; a refusal leaves the request open.
fn next(pending: Call, answer: Result<Call, Refused>) -> Call
    ensures { (m w : Memory)
        → point result.run result.request result.place w
        ≡ next_point (point pending.run pending.request pending.place m) answer w }
{
    match answer {
        Ok(call) => call,
        Err(refused) => Call {
            run: refused.run,
            request: pending.request,
            place: pending.place,
        },
    }
}

// The host does what is asked, and the run is advanced by its reply.
pub fn turned(
    pending: Call,
    reactions: usize,
    rates: &[f64],
    species: &[usize],
    y: &mut [f64],
    f0: &mut [f64],
    scal: &mut [f64],
    cont: &mut [f64],
    z1: &mut [f64],
    z2: &mut [f64],
    z3: &mut [f64],
    f1: &mut [f64],
    f2: &mut [f64],
    f3: &mut [f64],
    rtol: &[f64],
    atol: &[f64],
    mass: &[f64],
    jac: &mut [f64],
    e1: &mut [f64],
    e2r: &mut [f64],
    e2i: &mut [f64],
    ip1: &mut [usize],
    ip2: &mut [usize],
    y_perturbed: &mut [f64],
    f_perturbed: &mut [f64],
    f_origin: &mut [f64],
) -> Call
    ensures { point result.run result.request result.place
        (memory
        (amounts y.new f0.new scal.new cont.new)
        (newton z1.new z2.new z3.new f1.new f2.new f3.new)
        (given rtol.now atol.now mass.now jac.new)
        (factors e1.new e2r.new e2i.new ip1.new ip2.new)
        (differences y_perturbed.new f_perturbed.new f_origin.new))
        ≡ turn_of (answered_by reactions rates.now species.now)
        (point pending.run pending.request pending.place
        (memory
        (amounts y.old f0.old scal.old cont.old)
        (newton z1.old z2.old z3.old
        f1.old f2.old f3.old)
        (given rtol.now atol.now mass.now jac.old)
        (factors e1.old e2r.old e2i.old ip1.old ip2.old)
        (differences y_perturbed.old f_perturbed.old f_origin.old))) }
{
    let run = pending.run;
    let request = pending.request;
    let place = pending.place;
    let reply = answer(
        request,
        place,
        reactions,
        rates,
        species,
        y,
        f0,
        cont,
        z1,
        z2,
        z3,
        f1,
        y_perturbed,
        f_perturbed,
        f_origin,
    );
    let turn = Resumed { run, reply };
    let led = turn.advance(
        y,
        f0,
        scal,
        cont,
        z1,
        z2,
        z3,
        f1,
        f2,
        f3,
        rtol,
        atol,
        mass,
        jac,
        e1,
        e2r,
        e2i,
        ip1,
        ip2,
        y_perturbed,
        f_perturbed,
        f_origin,
    );
    next(pending, led)
}
