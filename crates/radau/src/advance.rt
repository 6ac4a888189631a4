// An advance of a run that comes by value: refused where it is not fit, else taken by `radau_core` from one call of the
// host in `solve` to the next.
ghost use Rattle.std.specs.Prelude.{◌≡◌};
ghost use Rattle.state.specs.Memory.{memory, amounts, newton, given, factors, differences};
ghost use Rattle.state.specs.Lent.{memory_of, SameWork};
ghost use Rattle.solve_blocks.specs.Advance.{advance_outcome, advance_of};

use opening::admission::admission_lent;
use radau_core::advance::advanced;
use radau_core::pack::{doubles_of, run_at, words_of};
use state::lent::Work;
use state::run::Run;
use state::talk::{Call, Refused, Reply};

// Refused by the admission, or taken.
fn taken(
    run: Run,
    reply: Reply,
    y: &mut [f64],
    f0: &[f64],
    rtol: &[f64],
    atol: &[f64],
    mass: &[f64],
    work: &mut Work<'_>,
) -> Result<Call, Refused>
    ensures same { SameWork work.new work.old }
    ensures outcome { advance_outcome result (memory_of y.new f0.now rtol.now atol.now mass.now work.new)
        ≡ (advance_of run reply (memory_of y.old f0.now rtol.now atol.now mass.now work.old)).core }
{
    if let Err(refusal) = admission_lent(run, reply, y, f0, rtol, atol, mass, work) {
        return Err(Refused { run, refusal });
    }
    let mut words = words_of(run);
    let mut doubles = doubles_of(run);
    let call = advanced(
        &mut words,
        &mut doubles,
        reply,
        y,
        f0,
        rtol,
        atol,
        mass,
        work,
    );
    Ok(Call {
        run: run_at(&words, &doubles),
        request: call.request,
        place: call.place,
    })
}

// A reply of the host to the run that it answers.
#[derive(Clone, Copy)]
pub struct Resumed {
    pub run: Run,
    pub reply: Reply,
}

impl Resumed {
    // The next request with the new state of the run, or the refusal with the run as it came. A refusal writes
    // nothing.
    pub fn advance(
        self,
        y: &mut [f64],
        f0: &[f64],
        scal: &mut [f64],
        cont: &mut [f64],
        z1: &mut [f64],
        z2: &mut [f64],
        z3: &mut [f64],
        f1: &mut [f64],
        f2: &mut [f64],
        f3: &mut [f64],
        rtol: &[f64],
        atol: &[f64],
        mass: &[f64],
        jac: &mut [f64],
        e1: &mut [f64],
        e2r: &mut [f64],
        e2i: &mut [f64],
        ip1: &mut [usize],
        ip2: &mut [usize],
        y_perturbed: &mut [f64],
        f_perturbed: &mut [f64],
        f_origin: &mut [f64],
    ) -> Result<Call, Refused>
        ensures { advance_outcome result (memory
            (amounts y.new f0.now scal.new cont.new)
            (newton z1.new z2.new z3.new f1.new
            f2.new f3.new)
            (given rtol.now atol.now mass.now jac.new)
            (factors e1.new e2r.new e2i.new ip1.new ip2.new)
            (differences y_perturbed.new f_perturbed.new f_origin.new))
            ≡ (advance_of self.run self.reply (memory
            (amounts y.old f0.now scal.old cont.old)
            (newton z1.old z2.old z3.old
            f1.old f2.old f3.old)
            (given rtol.now atol.now mass.now jac.old)
            (factors e1.old e2r.old e2i.old ip1.old ip2.old)
            (differences y_perturbed.old f_perturbed.old f_origin.old))).core }
    {
        let mut work = Work {
            scal,
            cont,
            z1,
            z2,
            z3,
            f1,
            f2,
            f3,
            jac,
            e1,
            e2r,
            e2i,
            ip1,
            ip2,
            y_perturbed,
            f_perturbed,
            f_origin,
        };
        taken(self.run, self.reply, y, f0, rtol, atol, mass, &mut work)
    }
}
