// A run in lent memory, answered and advanced turn by turn up to its end.
ghost use Rattle.std.specs.Prelude.{◌≡◌, length, IfSome};
ghost use Rattle.state.specs.Memory.{memory, amounts, newton, given, factors, differences};
ghost use Rattle.state.specs.Lent.{memory_of, SameWork};
ghost use Rattle.history.specs.Host.{is_end};
ghost use Rattle.history.specs.History.{point};
ghost use Rattle.model.specs.Plan.{IsPlanOf};
ghost use Rattle.radau_core.specs.Places.{run_at, Sized};
ghost use Rattle.model_run.specs.Host.{answered_by};
ghost use Rattle.model_run.specs.Budget.{turn_of, last_of, budget, standing, standing_at, Admits, NoneRefused};

use crate::planned::answer_by_plan;
use model::planned::{CHANGES, Plan};
use radau_core::advance::advanced;
use radau_core::pack::{doubles_of, run_at, words_of};
use radau_core::places::{DOUBLES, WORDS};
use radau_core::step::Call;
use state::lent::Work;
use state::run::Run;
use state::talk::{self, Request};

// More requests than any run has: 2 to the 28th.
const BUDGET: u64 = 268_435_456;

// The host does what is asked, and the run is advanced by its reply.
fn turned(
    words: &mut [usize; WORDS],
    doubles: &mut [f64; DOUBLES],
    call: Call,
    reactions: usize,
    rates: &[f64],
    species: &[usize],
    y: &mut [f64],
    f0: &mut [f64],
    rtol: &[f64],
    atol: &[f64],
    mass: &[f64],
    work: &mut Work<'_>,
    plan: Option<&Plan>,
    changes: &mut [f64; CHANGES],
) -> Call
    requires sized { Sized words.old doubles.old }
    requires admits { Admits (answered_by reactions rates.now species.now)
        (point (run_at words.old doubles.old) call.request call.place
        (memory_of y.old f0.old rtol.now atol.now mass.now work.old)) }
    requires planned { IfSome plan (λ p. IsPlanOf p.now reactions species.now) }
    ensures same { SameWork work.new work.old }
    ensures sized_2 { Sized words.new doubles.new }
    ensures f_origin_after { point (run_at words.new doubles.new) result.request result.place
        (memory_of y.new f0.new rtol.now atol.now mass.now work.new)
        ≡ turn_of (answered_by reactions rates.now species.now)
        (point (run_at words.old doubles.old) call.request call.place
        (memory_of y.old f0.old rtol.now atol.now mass.now work.old)) }
    ensures changes_len { length changes.new ≡ 128 }
{
    let request = call.request;
    let place = call.place;
    let cont = &mut *work.cont;
    let y_perturbed = &mut *work.y_perturbed;
    let reply = answer_by_plan(
        request,
        place,
        reactions,
        rates,
        species,
        y,
        f0,
        cont,
        work.z1,
        work.z2,
        work.z3,
        work.f1,
        y_perturbed,
        work.f_perturbed,
        work.f_origin,
        plan,
        changes,
    );
    advanced(words, doubles, reply, y, f0, rtol, atol, mass, work)
}

fn is_end(request: Request) -> bool
    ensures { result ≡ is_end request }
{
    match request {
        Request::Derivative(_) => false,
        Request::Jacobian(_) => false,
        Request::Report(_, _, _) => false,
        Request::Ended(_) => true,
    }
}

// As `to_end`, the working parts as one.
fn ended_lent(
    pending: talk::Call,
    reactions: usize,
    rates: &[f64],
    species: &[usize],
    y: &mut [f64],
    f0: &mut [f64],
    rtol: &[f64],
    atol: &[f64],
    mass: &[f64],
    work: &mut Work<'_>,
) -> Run
    requires { NoneRefused (answered_by reactions rates.now species.now)
        (point pending.run pending.request pending.place
        (memory_of y.old f0.old rtol.now atol.now mass.now work.old)) }
    ensures same { SameWork work.new work.old }
    ensures outcome { standing result (memory_of y.new f0.new rtol.now atol.now mass.now work.new)
        ≡ standing_at (last_of (answered_by reactions rates.now species.now) budget
        (point pending.run pending.request pending.place
        (memory_of y.old f0.old rtol.now atol.now mass.now work.old))) }
{
    let run = pending.run;
    let request = pending.request;
    let place = pending.place;
    let mut changes = [0.0; CHANGES];
    let plan = Plan::new(y.len(), reactions, species);
    let mut words = words_of(run);
    let mut doubles = doubles_of(run);
    let mut here = Call { request, place };
    for _ in 0..BUDGET {
        let request = here.request;
        if is_end(request) {
            return run_at(&words, &doubles);
        }
        here = turned(
            &mut words,
            &mut doubles,
            here,
            reactions,
            rates,
            species,
            y,
            f0,
            rtol,
            atol,
            mass,
            work,
            plan.as_ref(),
            &mut changes,
        );
    }
    run_at(&words, &doubles)
}

// Turn after turn, until nothing more is asked.
pub fn to_end(
    pending: talk::Call,
    reactions: usize,
    rates: &[f64],
    species: &[usize],
    y: &mut [f64],
    f0: &mut [f64],
    scal: &mut [f64],
    cont: &mut [f64],
    z1: &mut [f64],
    z2: &mut [f64],
    z3: &mut [f64],
    f1: &mut [f64],
    f2: &mut [f64],
    f3: &mut [f64],
    rtol: &[f64],
    atol: &[f64],
    mass: &[f64],
    jac: &mut [f64],
    e1: &mut [f64],
    e2r: &mut [f64],
    e2i: &mut [f64],
    ip1: &mut [usize],
    ip2: &mut [usize],
    y_perturbed: &mut [f64],
    f_perturbed: &mut [f64],
    f_origin: &mut [f64],
) -> Run
    requires { NoneRefused (answered_by reactions rates.now species.now)
        (point pending.run pending.request pending.place (memory
        (amounts y.old f0.old scal.old cont.old)
        (newton z1.old z2.old z3.old f1.old f2.old f3.old)
        (given rtol.now atol.now mass.now jac.old)
        (factors e1.old e2r.old e2i.old ip1.old ip2.old)
        (differences y_perturbed.old f_perturbed.old f_origin.old))) }
    ensures { standing result (memory
        (amounts y.new f0.new scal.new cont.new)
        (newton z1.new z2.new z3.new f1.new f2.new f3.new)
        (given rtol.now atol.now mass.now jac.new)
        (factors e1.new e2r.new e2i.new ip1.new ip2.new)
        (differences y_perturbed.new f_perturbed.new f_origin.new))
        ≡ standing_at (last_of (answered_by reactions rates.now species.now) budget
        (point pending.run pending.request pending.place
        (memory
        (amounts y.old f0.old scal.old cont.old)
        (newton z1.old z2.old z3.old
        f1.old f2.old f3.old)
        (given rtol.now atol.now mass.now jac.old)
        (factors e1.old e2r.old e2i.old ip1.old ip2.old)
        (differences y_perturbed.old f_perturbed.old f_origin.old)))) }
{
    let mut work = Work {
        scal,
        cont,
        z1,
        z2,
        z3,
        f1,
        f2,
        f3,
        jac,
        e1,
        e2r,
        e2i,
        ip1,
        ip2,
        y_perturbed,
        f_perturbed,
        f_origin,
    };
    ended_lent(
        pending, reactions, rates, species, y, f0, rtol, atol, mass, &mut work,
    )
}
