// From one report of a run to the next: a host that wants every reported point stops there.
ghost use Rattle.std.specs.Prelude.{◌≡◌};
ghost use Rattle.state.specs.Memory.{memory, amounts, newton, given, factors, differences};
ghost use Rattle.history.specs.History.{point};
ghost use Rattle.model_run.specs.Host.{answered_by};
ghost use Rattle.model_run.specs.Budget.{budget};
ghost use Rattle.reports.specs.Step.{is_told, told_of};

use crate::turn::turned;
use state::talk::{Call, Request};

// More requests than any run has: 2 to the 28th.
pub const BUDGET: u64 = 268_435_456;

fn is_told(request: Request) -> bool
    ensures { result ≡ is_told request }
{
    match request {
        Request::Derivative(_) => false,
        Request::Jacobian(_) => false,
        Request::Report(_, _, _) => true,
        Request::Ended(_) => true,
    }
}

// One turn at least, and on until a point is reported or the run has ended.
pub fn next_report(
    pending: Call,
    reactions: usize,
    rates: &[f64],
    species: &[usize],
    y: &mut [f64],
    f0: &mut [f64],
    scal: &mut [f64],
    cont: &mut [f64],
    z1: &mut [f64],
    z2: &mut [f64],
    z3: &mut [f64],
    f1: &mut [f64],
    f2: &mut [f64],
    f3: &mut [f64],
    rtol: &[f64],
    atol: &[f64],
    mass: &[f64],
    jac: &mut [f64],
    e1: &mut [f64],
    e2r: &mut [f64],
    e2i: &mut [f64],
    ip1: &mut [usize],
    ip2: &mut [usize],
    y_perturbed: &mut [f64],
    f_perturbed: &mut [f64],
    f_origin: &mut [f64],
) -> Call
    ensures { point result.run result.request result.place (memory
        (amounts y.new f0.new scal.new cont.new)
        (newton z1.new z2.new z3.new f1.new f2.new f3.new)
        (given rtol.now atol.now mass.now jac.new)
        (factors e1.new e2r.new e2i.new ip1.new ip2.new)
        (differences y_perturbed.new f_perturbed.new f_origin.new))
        ≡ told_of (answered_by reactions rates.now species.now) budget
        (point pending.run pending.request pending.place
        (memory
        (amounts y.old f0.old scal.old cont.old)
        (newton z1.old z2.old z3.old
        f1.old f2.old f3.old)
        (given rtol.now atol.now mass.now jac.old)
        (factors e1.old e2r.old e2i.old ip1.old ip2.old)
        (differences y_perturbed.old f_perturbed.old f_origin.old))) }
{
    let mut here = pending;
    for _ in 0..BUDGET {
        here = turned(
            here,
            reactions,
            rates,
            species,
            y,
            f0,
            scal,
            cont,
            z1,
            z2,
            z3,
            f1,
            f2,
            f3,
            rtol,
            atol,
            mass,
            jac,
            e1,
            e2r,
            e2i,
            ip1,
            ip2,
            y_perturbed,
            f_perturbed,
            f_origin,
        );
        let request = here.request;
        if is_told(request) {
            return here;
        }
    }
    here
}
