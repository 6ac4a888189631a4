// A run over the border: opened, advanced, and its result told. The state goes in and out as the two arrays of
// `radau_core`, the request as three numbers and two points.
ghost use Rattle.std.specs.Prelude.{◌≡◌};
ghost use Rattle.state.specs.Memory.{memory, amounts, newton, given, factors, differences};
ghost use Rattle.state.specs.Lent.{memory_of, SameWork};
ghost use Rattle.opening.specs.Rows.{opening};
ghost use Rattle.radau_core.specs.Choices.{tolerances_of};
ghost use Rattle.export.specs.Talk.{settings_given, crossed, left, open_left, advance_left, ended, result_left};

use crate::choices::tolerances;
use crate::settings::given_settings;
use crate::talk::{reply_of, tell_call, tell_opened, tell_result};
use opening::admission::admission_lent;
use opening::open;
use radau_core::advance::advanced;
use radau_core::pack::{doubles_of, run_at, words_of};
use radau_core::places::{DOUBLES, WORDS};
use state::lent::Work;
use state::refusal_number;

// Opens a run: 0, or document 01's number, and then nothing is written. Where `lists` is not 0 the tolerances are the
// lists in `rtol` and `atol`.
#[unsafe(no_mangle)]
pub extern "C" fn elchepur_open(
    numbers: &[u64; 17],
    floats: &[f64; 8],
    n: usize,
    x0: f64,
    xend: f64,
    lists: u64,
    rtol_scalar: f64,
    atol_scalar: f64,
    words: &mut [usize; WORDS],
    doubles: &mut [f64; DOUBLES],
    told: &mut [u64; 3],
    at: &mut [f64; 2],
    y: &[f64],
    f0: &mut [f64],
    scal: &mut [f64],
    cont: &mut [f64],
    z1: &mut [f64],
    z2: &mut [f64],
    z3: &mut [f64],
    f1: &mut [f64],
    f2: &mut [f64],
    f3: &mut [f64],
    rtol: &mut [f64],
    atol: &mut [f64],
    mass: &mut [f64],
    jac: &mut [f64],
    e1: &mut [f64],
    e2r: &mut [f64],
    e2i: &mut [f64],
    ip1: &mut [usize],
    ip2: &mut [usize],
    y_perturbed: &mut [f64],
    f_perturbed: &mut [f64],
    f_origin: &mut [f64],
) -> u64
    ensures { left
        (crossed result words.new doubles.new told.new at.new)
        (memory
        (amounts y.now f0.new scal.new cont.new)
        (newton z1.new z2.new z3.new f1.new f2.new f3.new)
        (given rtol.new atol.new mass.new jac.new)
        (factors e1.new e2r.new e2i.new ip1.new ip2.new)
        (differences y_perturbed.new f_perturbed.new f_origin.new))
        ≡ open_left (opening (settings_given numbers.now floats.now) n x0 xend
        (tolerances_of lists rtol_scalar atol_scalar) (memory
        (amounts y.now f0.old scal.old cont.old)
        (newton z1.old z2.old z3.old
        f1.old f2.old f3.old)
        (given rtol.old atol.old mass.old jac.old)
        (factors e1.old e2r.old e2i.old ip1.old ip2.old)
        (differences y_perturbed.old f_perturbed.old f_origin.old)))
        words.old doubles.old told.old at.old }
{
    let opened = open(
        given_settings(numbers, floats),
        n,
        x0,
        xend,
        tolerances(lists, rtol_scalar, atol_scalar),
        y,
        f0,
        scal,
        cont,
        z1,
        z2,
        z3,
        f1,
        f2,
        f3,
        rtol,
        atol,
        mass,
        jac,
        e1,
        e2r,
        e2i,
        ip1,
        ip2,
        y_perturbed,
        f_perturbed,
        f_origin,
    );
    tell_opened(opened, words, doubles, told, at)
}

// As `elchepur_advance`, the working parts as one.
fn advance_lent(
    words: &mut [usize; WORDS],
    doubles: &mut [f64; DOUBLES],
    reply: u64,
    value: f64,
    told: &mut [u64; 3],
    at: &mut [f64; 2],
    y: &mut [f64],
    f0: &[f64],
    rtol: &[f64],
    atol: &[f64],
    mass: &[f64],
    work: &mut Work<'_>,
) -> u64
    ensures same { SameWork work.new work.old }
    ensures outcome { left (crossed result words.new doubles.new told.new at.new)
        (memory_of y.new f0.now rtol.now atol.now mass.now work.new)
        ≡ advance_left reply value words.old doubles.old told.old at.old
        (memory_of y.old f0.now rtol.now atol.now mass.now work.old) }
{
    let run = run_at(words, doubles);
    let stage = run.stage;
    let reply = reply_of(stage, reply, value);
    if let Err(refusal) = admission_lent(run, reply, y, f0, rtol, atol, mass, work) {
        return refusal_number(refusal);
    }
    *words = words_of(run);
    *doubles = doubles_of(run);
    let call = advanced(words, doubles, reply, y, f0, rtol, atol, mass, work);
    tell_call(call, words, doubles, told, at)
}

// Advances a run by a reply: 1 filled, 2 continue, 3 interrupt, 4 modified with the new x, 5 a mark. 0, or 13, 14 or
// 15, and then nothing is written.
#[unsafe(no_mangle)]
pub extern "C" fn elchepur_advance(
    words: &mut [usize; WORDS],
    doubles: &mut [f64; DOUBLES],
    reply: u64,
    value: f64,
    told: &mut [u64; 3],
    at: &mut [f64; 2],
    y: &mut [f64],
    f0: &[f64],
    scal: &mut [f64],
    cont: &mut [f64],
    z1: &mut [f64],
    z2: &mut [f64],
    z3: &mut [f64],
    f1: &mut [f64],
    f2: &mut [f64],
    f3: &mut [f64],
    rtol: &[f64],
    atol: &[f64],
    mass: &[f64],
    jac: &mut [f64],
    e1: &mut [f64],
    e2r: &mut [f64],
    e2i: &mut [f64],
    ip1: &mut [usize],
    ip2: &mut [usize],
    y_perturbed: &mut [f64],
    f_perturbed: &mut [f64],
    f_origin: &mut [f64],
) -> u64
    ensures { left
        (crossed result words.new doubles.new told.new at.new)
        (memory
        (amounts y.new f0.now scal.new cont.new)
        (newton z1.new z2.new z3.new f1.new f2.new f3.new)
        (given rtol.now atol.now mass.now jac.new)
        (factors e1.new e2r.new e2i.new ip1.new ip2.new)
        (differences y_perturbed.new f_perturbed.new f_origin.new))
        ≡ advance_left reply value words.old doubles.old told.old
        at.old
        (memory
        (amounts y.old f0.now scal.old cont.old)
        (newton z1.old z2.old z3.old
        f1.old f2.old f3.old)
        (given rtol.now atol.now mass.now jac.old)
        (factors e1.old e2r.old e2i.old ip1.old ip2.old)
        (differences y_perturbed.old f_perturbed.old f_origin.old)) }
{
    let mut work = Work {
        scal,
        cont,
        z1,
        z2,
        z3,
        f1,
        f2,
        f3,
        jac,
        e1,
        e2r,
        e2i,
        ip1,
        ip2,
        y_perturbed,
        f_perturbed,
        f_origin,
    };
    advance_lent(
        words, doubles, reply, value, told, at, y, f0, rtol, atol, mass, &mut work,
    )
}

// Tells the result of a run that has ended: 0, with the status, the counts and what status 5 blames, h, x and the two
// strides; 29 where it has not.
#[unsafe(no_mangle)]
pub extern "C" fn elchepur_result(
    words: &[usize; WORDS],
    doubles: &[f64; DOUBLES],
    numbers: &mut [u64; 9],
    floats: &mut [f64; 4],
) -> u64
    ensures { ended result numbers.new floats.new
        ≡ result_left words.now doubles.now numbers.old floats.old }
{
    let run = run_at(words, doubles);
    tell_result(run.result(), numbers, floats)
}
