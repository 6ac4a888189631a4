// The lent memory of an opening: filled as the case says, and all of it held against what is wanted after the call.
use crate::case::Case;
use crate::part::{filled, met, met_tolerances};
use replay::found::Found;
use replay::memory::Memory;

// What the case lends.
pub fn lent(case: Case) -> Memory {
    Memory {
        y: filled(case, 0),
        f0: filled(case, 1),
        scal: filled(case, 2),
        cont: filled(case, 3),
        z1: filled(case, 4),
        z2: filled(case, 5),
        z3: filled(case, 6),
        f1: filled(case, 7),
        f2: filled(case, 8),
        f3: filled(case, 9),
        rtol: filled(case, 10),
        atol: filled(case, 11),
        mass: filled(case, 12),
        jac: filled(case, 13),
        e1: filled(case, 14),
        e2r: filled(case, 15),
        e2i: filled(case, 16),
        ip1: filled(case, 17),
        ip2: filled(case, 18),
        y_perturbed: filled(case, 19),
        f_perturbed: filled(case, 20),
        f_origin: filled(case, 21),
    }
}

// Holds all 22 parts against what is wanted, in the order in which `open` takes them.
pub fn met_memory(found: Found, case: Case, memory: &Memory) -> Found {
    let now = met(found, case, 0, &memory.y);
    let now = met(now, case, 1, &memory.f0);
    let now = met(now, case, 2, &memory.scal);
    let now = met(now, case, 3, &memory.cont);
    let now = met(now, case, 4, &memory.z1);
    let now = met(now, case, 5, &memory.z2);
    let now = met(now, case, 6, &memory.z3);
    let now = met(now, case, 7, &memory.f1);
    let now = met(now, case, 8, &memory.f2);
    let now = met(now, case, 9, &memory.f3);
    let now = met_tolerances(now, case, 10, &memory.rtol);
    let now = met_tolerances(now, case, 11, &memory.atol);
    let now = met(now, case, 12, &memory.mass);
    let now = met(now, case, 13, &memory.jac);
    let now = met(now, case, 14, &memory.e1);
    let now = met(now, case, 15, &memory.e2r);
    let now = met(now, case, 16, &memory.e2i);
    let now = met(now, case, 17, &memory.ip1);
    let now = met(now, case, 18, &memory.ip2);
    let now = met(now, case, 19, &memory.y_perturbed);
    let now = met(now, case, 20, &memory.f_perturbed);
    met(now, case, 21, &memory.f_origin)
}
