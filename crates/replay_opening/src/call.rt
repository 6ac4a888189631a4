// The call of an opening, which is lent the 22 parts of a memory, cut to the lengths of the case.
use crate::answer::met_answer;
use crate::case::{Ask, Case};
use crate::memory::{lent, met_memory};
use crate::part::lengths;
use opening::open;
use replay::found::Found;
use replay::memory::{Lent, Memory, PARTS};
use state::talk::{Call, Refusal};

fn opened(ask: Ask, lengths: [usize; PARTS], memory: &mut Memory) -> Result<Call, Refusal> {
    let Lent {
        y,
        f0,
        scal,
        cont,
        z1,
        z2,
        z3,
        f1,
        f2,
        f3,
        rtol,
        atol,
        mass,
        jac,
        e1,
        e2r,
        e2i,
        ip1,
        ip2,
        y_perturbed,
        f_perturbed,
        f_origin,
    } = memory.lend(lengths);
    open(
        ask.settings,
        ask.n,
        ask.x0,
        ask.xend,
        ask.tolerances,
        y,
        f0,
        scal,
        cont,
        z1,
        z2,
        z3,
        f1,
        f2,
        f3,
        rtol,
        atol,
        mass,
        jac,
        e1,
        e2r,
        e2i,
        ip1,
        ip2,
        y_perturbed,
        f_perturbed,
        f_origin,
    )
}

// Opens, and holds the answer and the memory against what is wanted.
pub fn judged(case: Case) -> Found {
    let mut memory = lent(case);
    let answer = opened(case.ask(), lengths(case), &mut memory);
    met_memory(met_answer(case, answer), case, &memory)
}
