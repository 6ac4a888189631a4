// The two calls that are replayed: each is lent the 22 parts of a memory, cut to the lengths of the run's order.
use crate::memory::lengths;
use opening::open;
use radau::advance::Resumed;
use replay::memory::{Lent, Memory};
use state::run::Tolerances;
use state::settings::Settings;
use state::talk::Call;

// What an opening is asked with.
#[derive(Clone, Copy)]
pub struct Ask {
    pub settings: Settings,
    pub n: usize,
    pub x0: f64,
    pub xend: f64,
    pub tolerances: Tolerances,
}

// The opening of a run, or nothing where it is refused.
pub fn start(ask: Ask, memory: &mut Memory) -> Option<Call> {
    let Lent {
        y,
        f0,
        scal,
        cont,
        z1,
        z2,
        z3,
        f1,
        f2,
        f3,
        rtol,
        atol,
        mass,
        jac,
        e1,
        e2r,
        e2i,
        ip1,
        ip2,
        y_perturbed,
        f_perturbed,
        f_origin,
    } = memory.lend(lengths(ask.n));
    let answer = open(
        ask.settings,
        ask.n,
        ask.x0,
        ask.xend,
        ask.tolerances,
        y,
        f0,
        scal,
        cont,
        z1,
        z2,
        z3,
        f1,
        f2,
        f3,
        rtol,
        atol,
        mass,
        jac,
        e1,
        e2r,
        e2i,
        ip1,
        ip2,
        y_perturbed,
        f_perturbed,
        f_origin,
    );
    answer.ok()
}

// An advance of a run of order n, or nothing where it is refused.
pub fn advance(turn: Resumed, n: usize, memory: &mut Memory) -> Option<Call> {
    let Lent {
        y,
        f0,
        scal,
        cont,
        z1,
        z2,
        z3,
        f1,
        f2,
        f3,
        rtol,
        atol,
        mass,
        jac,
        e1,
        e2r,
        e2i,
        ip1,
        ip2,
        y_perturbed,
        f_perturbed,
        f_origin,
    } = memory.lend(lengths(n));
    let answer = turn.advance(
        y,
        f0,
        scal,
        cont,
        z1,
        z2,
        z3,
        f1,
        f2,
        f3,
        rtol,
        atol,
        mass,
        jac,
        e1,
        e2r,
        e2i,
        ip1,
        ip2,
        y_perturbed,
        f_perturbed,
        f_origin,
    );
    answer.ok()
}
