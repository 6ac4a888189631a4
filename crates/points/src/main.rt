// The program `points`: reads a sheet on standard input and prints the points of its run as CSV, or, of a sheet that is
// refused, what `decay` prints. The lines are those that `put_header` and `put_report` put, the points those where
// `next_report` stops; here is only reading, room for a run, and writing.
#![tactic(auto)]

ghost use Rattle.std.specs.Prelude.{◌≤◌, ◌≡◌, length};
ghost use Rattle.state.specs.Memory.{zeros, noughts};

use csv_table::answers::ExportError;
use csv_table::table::put_header;
use forecast::forecast;
use forecast::task::{amounts_from, rates_from};
use forecast_text::print;
use replay::out::Out;
use reports::beginning::{Begun, begin};
use reports::line::put_report;
use reports::step::{BUDGET, next_report};
use sheet_input::read_all;
use sheet_input::reading::KEPT;
use state::talk::Call;
use std::io;

// Room for every line, and for all that is printed of a refused sheet.
const OUT: usize = 1024;

// Room for 32 amounts, for their coefficients and for a matrix of them.
const VECTOR: usize = 32;

const COEFFICIENTS: usize = 128;

const MATRIX: usize = 1024;

// Room for 64 reactions, and for four species of each.
const RATES: usize = 64;

const SPECIES: usize = 256;

// Of what lies behind a reference the length is known.
fn write_first(to: &Out, out: &[u8; OUT], count: usize) {
    let bytes: &[u8] = out;
    to.write(&bytes[0..count.min(bytes.len())]);
}

// Writes the line that was put. None is refused: a sheet that runs has 1 to 32 amounts, and there is room for them.
fn write_line(to: &Out, answer: Result<usize, ExportError>, out: &[u8; OUT]) {
    if let Ok(count) = answer {
        write_first(to, out, count);
    }
}

fn write_header(to: &Out, n: usize) {
    let mut out = [0u8; OUT];
    let answer = put_header(n, &mut out);
    write_line(to, answer, &out);
}

// Writes the record of a report; true at the end, which is none.
fn is_over(to: &Out, pending: Call, y: &[f64]) -> bool {
    let request = pending.request;
    let mut out = [0u8; OUT];
    match put_report(request, y, &mut out) {
        Some(answer) => {
            write_line(to, answer, &out);
            false
        }
        None => true,
    }
}

// Memory that is +0: made in functions of their own, since the checker is slow where many arrays are made in one.
fn vector() -> [f64; VECTOR]
    ensures { result ≡ zeros 32 }
{
    [0.0; VECTOR]
}

fn coefficients() -> [f64; COEFFICIENTS]
    ensures { result ≡ zeros 128 }
{
    [0.0; COEFFICIENTS]
}

fn matrix() -> [f64; MATRIX]
    ensures { result ≡ zeros 1024 }
{
    [0.0; MATRIX]
}

fn pivots() -> [usize; VECTOR]
    ensures { result ≡ noughts 32 }
{
    [0; VECTOR]
}

// From report to report, up to the end.
fn write_reports(
    to: &Out,
    begun: Begun,
    rates: &[f64],
    species: &[usize],
    y: &mut [f64],
    f0: &mut [f64],
    scal: &mut [f64],
    cont: &mut [f64],
    z1: &mut [f64],
    z2: &mut [f64],
    z3: &mut [f64],
    f1: &mut [f64],
    f2: &mut [f64],
    f3: &mut [f64],
    rtol: &[f64],
    atol: &[f64],
    mass: &[f64],
    jac: &mut [f64],
    e1: &mut [f64],
    e2r: &mut [f64],
    e2i: &mut [f64],
    ip1: &mut [usize],
    ip2: &mut [usize],
    y_perturbed: &mut [f64],
    f_perturbed: &mut [f64],
    f_origin: &mut [f64],
) {
    let reactions = begun.reactions;
    let mut pending = begun.pending;
    for _ in 0..BUDGET {
        pending = next_report(
            pending,
            reactions,
            rates,
            species,
            y,
            f0,
            scal,
            cont,
            z1,
            z2,
            z3,
            f1,
            f2,
            f3,
            rtol,
            atol,
            mass,
            jac,
            e1,
            e2r,
            e2i,
            ip1,
            ip2,
            y_perturbed,
            f_perturbed,
            f_origin,
        );
        if is_over(to, pending, y) {
            return;
        }
    }
}

fn amounts_of(bits: &[u64; VECTOR]) -> [f64; VECTOR]
    ensures { length result ≡ 32 }
{
    amounts_from(bits)
}

// The points of a run, in memory that is its amounts and else +0: the front of each array is lent.
fn write_points(
    to: &Out,
    begun: Begun,
    amounts: &[u64; VECTOR],
    n: usize,
    n4: usize,
    nn: usize,
    rates: &[f64],
    species: &[usize],
)
    requires { (n ≤ 32) × (n4 ≤ 128) × (nn ≤ 1024) }
{
    let mut y = amounts_of(amounts);
    let mut f0 = vector();
    let mut scal = vector();
    let mut cont = coefficients();
    let mut z1 = vector();
    let mut z2 = vector();
    let mut z3 = vector();
    let mut f1 = vector();
    let mut f2 = vector();
    let mut f3 = vector();
    let rtol = vector();
    let atol = vector();
    let mass = matrix();
    let mut jac = matrix();
    let mut e1 = matrix();
    let mut e2r = matrix();
    let mut e2i = matrix();
    let mut ip1 = pivots();
    let mut ip2 = pivots();
    let mut y_perturbed = vector();
    let mut f_perturbed = vector();
    let mut f_origin = vector();
    write_reports(
        to,
        begun,
        rates,
        species,
        &mut y[0..n],
        &mut f0[0..n],
        &mut scal[0..n],
        &mut cont[0..n4],
        &mut z1[0..n],
        &mut z2[0..n],
        &mut z3[0..n],
        &mut f1[0..n],
        &mut f2[0..n],
        &mut f3[0..n],
        &rtol[0..n],
        &atol[0..n],
        &mass[0..nn],
        &mut jac[0..nn],
        &mut e1[0..nn],
        &mut e2r[0..nn],
        &mut e2i[0..nn],
        &mut ip1[0..n],
        &mut ip2[0..n],
        &mut y_perturbed[0..n],
        &mut f_perturbed[0..n],
        &mut f_origin[0..n],
    );
}

// How many entries a square matrix of n rows has.
fn square(n: usize) -> usize {
    let side = n.min(VECTOR);
    side * side
}

// A sheet has at most 32 amounts, so that nothing is cut off here.
fn write_run(to: &Out, begun: Begun, amounts: &[u64; VECTOR], rates: &[f64], species: &[usize]) {
    let n = begun.n.min(VECTOR);
    let n4 = (4 * n).min(COEFFICIENTS);
    let nn = square(n).min(MATRIX);
    write_points(to, begun, amounts, n, n4, nn, rates, species);
}

// The table of a run that was begun, of what the reader left.
fn write_table(
    to: &Out,
    begun: Begun,
    amounts: &[u64; VECTOR],
    rates: &[u64; RATES],
    species: &[usize; SPECIES],
) {
    write_header(to, begun.n);
    let speeds = rates_from(rates);
    write_run(to, begun, amounts, &speeds, species);
}

fn tell(to: &Out, kept: &[u8; KEPT], length: usize) {
    let bytes: &[u8] = kept;
    let sheet = &bytes[0..length.min(bytes.len())];
    let mut amounts = [0u64; VECTOR];
    let mut rates = [0u64; RATES];
    let mut species = [0usize; SPECIES];
    match begin(sheet, &mut amounts, &mut rates, &mut species) {
        Some(begun) => write_table(to, begun, &amounts, &rates, &species),
        None => {
            let mut out = [0u8; OUT];
            let printed = print(forecast(sheet), &mut out);
            write_first(to, &out, printed);
        }
    }
}

fn main(rt: HostRuntime) -> io::Result<()> {
    let to = Out::new(rt.stdout());
    let mut kept = [0u8; KEPT];
    match read_all(&mut rt.stdin(), &mut kept) {
        Ok(length) => tell(&to, &kept, length),
        Err(_) => {
            to.write(b"unreadable\n");
        }
    }
    to.end()
}
