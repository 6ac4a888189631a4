// The lent memory of a run between two advances: filled from words, written by the host, and taken into a digest. What
// lies behind a part's length is never looked at.
ghost use Rattle.std.specs.Prelude.{◌≤◌};

use bits::double;
use replay::memory::{COEFFICIENTS, Entry, MATRIX, Memory, PARTS, VECTOR};
use replay::settings::word;
use std::array;

// The greatest order of a stored run.
pub const ORDER: usize = 4;

// The places of `cont`, and of the parts that are matrices, among the parts.
const CONT: usize = 3;

const FIRST_MATRIX: usize = 12;

const BEHIND_MATRICES: usize = 17;

// The lengths of the parts at an order, which is taken as 4 where it is greater.
pub fn vector_length(n: usize) -> usize
    ensures { result ≤ 4 }
{
    n.min(ORDER)
}

pub fn matrix_length(n: usize) -> usize
    ensures { result ≤ 16 }
{
    match n {
        0 => 0,
        1 => 1,
        2 => 4,
        3 => 9,
        _ => 16,
    }
}

pub fn lengths(n: usize) -> [usize; PARTS] {
    let mut made = [vector_length(n); PARTS];
    made[CONT] = 4 * vector_length(n);
    for length in &mut made[FIRST_MATRIX..BEHIND_MATRICES] {
        *length = matrix_length(n);
    }
    made
}

// Words from a place on become the entries of a part.
pub fn part<const N: usize>(words: &[u64], from: usize) -> [f64; N] {
    array::from_fn(|i| double(word(words, from.wrapping_add(i))))
}

// What stands in memory before the opening, which clears it.
const UNUSED: f64 = -7.25;

const UNUSED_PIVOT: usize = 77;

// Memory before an opening: what is given, and what is to be cleared.
pub fn lent(
    y: [f64; VECTOR],
    mass: [f64; MATRIX],
    rtol: [f64; VECTOR],
    atol: [f64; VECTOR],
) -> Memory {
    let vector = [UNUSED; VECTOR];
    let matrix = [UNUSED; MATRIX];
    let pivots = [UNUSED_PIVOT; VECTOR];
    Memory {
        y,
        f0: vector,
        scal: vector,
        cont: [UNUSED; COEFFICIENTS],
        z1: vector,
        z2: vector,
        z3: vector,
        f1: vector,
        f2: vector,
        f3: vector,
        rtol,
        atol,
        mass,
        jac: matrix,
        e1: matrix,
        e2r: matrix,
        e2i: matrix,
        ip1: pivots,
        ip2: pivots,
        y_perturbed: vector,
        f_perturbed: vector,
        f_origin: vector,
    }
}

// The host fills the part that a derivative goes to, by the number of its place.
pub fn write_derivative(memory: &mut Memory, place: u64, part: [f64; VECTOR]) {
    match place {
        1 => memory.f0 = part,
        2 => memory.z1 = part,
        3 => memory.z2 = part,
        4 => memory.z3 = part,
        5 => memory.f1 = part,
        6 => memory.f_origin = part,
        7 => memory.f_perturbed = part,
        _ => {}
    }
}

// Takes one more word into a digest (`hash` of tests/replays/runs.rs).
fn mixed(digest: u64, word: u64) -> u64 {
    let sum = digest.wrapping_add(word);
    let up = sum.wrapping_add(sum << 25);
    up.wrapping_add(up >> 31)
}

// Takes the first entries of a part.
fn taken<E: Entry>(digest: u64, part: &[E], count: usize) -> u64 {
    part.iter()
        .take(count)
        .fold(digest, |now, entry| mixed(now, entry.to_word()))
}

// The digest of all 22 parts, in the order in which an advance takes them.
pub fn digest(memory: &Memory, n: usize) -> u64 {
    let vector = vector_length(n);
    let matrix = matrix_length(n);
    let now = taken(0, &memory.y, vector);
    let now = taken(now, &memory.f0, vector);
    let now = taken(now, &memory.scal, vector);
    let now = taken(now, &memory.cont, 4 * vector);
    let now = taken(now, &memory.z1, vector);
    let now = taken(now, &memory.z2, vector);
    let now = taken(now, &memory.z3, vector);
    let now = taken(now, &memory.f1, vector);
    let now = taken(now, &memory.f2, vector);
    let now = taken(now, &memory.f3, vector);
    let now = taken(now, &memory.rtol, vector);
    let now = taken(now, &memory.atol, vector);
    let now = taken(now, &memory.mass, matrix);
    let now = taken(now, &memory.jac, matrix);
    let now = taken(now, &memory.e1, matrix);
    let now = taken(now, &memory.e2r, matrix);
    let now = taken(now, &memory.e2i, matrix);
    let now = taken(now, &memory.ip1, vector);
    let now = taken(now, &memory.ip2, vector);
    let now = taken(now, &memory.y_perturbed, vector);
    let now = taken(now, &memory.f_perturbed, vector);
    taken(now, &memory.f_origin, vector)
}
