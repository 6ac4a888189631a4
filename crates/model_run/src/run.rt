// A task and how it came out, in memory of its own: room for 32 amounts.
ghost use Rattle.std.specs.Prelude.{◌*◌, ◌≤◌, ◌≡◌};
ghost use Rattle.state.specs.Memory.{zeros, noughts};
ghost use Rattle.opening.specs.Opening.{open_of};
ghost use Rattle.history.specs.History.{point};
ghost use Rattle.model_run.specs.Budget.{NoneRefused, host_for, memory_of, room_of, opening_of, ran_of, run_of};

use crate::lent::to_end;
use opening::open;
use state::run::{Run, Tolerances};
use state::settings::Settings;
use state::talk::{Call, Refusal};

// What a run is opened with, the amounts by value, and how many reactions there are. Both tolerances are scalars.
#[derive(Clone, Copy)]
pub struct Task {
    pub settings: Settings,
    pub n: usize,
    pub x0: f64,
    pub xend: f64,
    pub rtol: f64,
    pub atol: f64,
    pub amounts: [f64; 32],
    pub reactions: usize,
}

#[derive(Clone, Copy)]
pub struct TaskOutcome {
    // The run as it stood at its end, or why its opening was refused.
    pub finish: Result<Run, Refusal>,
    pub amounts: [f64; 32],
}

// Memory that is +0: made in functions of their own, since the checker is slow where many arrays are made in one.
fn vector() -> [f64; 32]
    ensures { result ≡ zeros 32 }
{
    [0.0; 32]
}

fn coefficients() -> [f64; 128]
    ensures { result ≡ zeros 128 }
{
    [0.0; 128]
}

fn matrix() -> [f64; 1024]
    ensures { result ≡ zeros 1024 }
{
    [0.0; 1024]
}

fn pivots() -> [usize; 32]
    ensures { result ≡ noughts 32 }
{
    [0; 32]
}

fn room(n: usize) -> usize
    ensures { (result ≤ 32) × (result ≡ room_of n) }
{
    if n <= 32 { n } else { 32 }
}

// The answer to the opening. Its memory is not kept: what an accepted opening of a task leaves is the memory that it
// was given, the amounts and +0.
fn opened(task: Task, n: usize, n4: usize, nn: usize) -> Result<Call, Refusal>
    requires { (n ≤ 32) × (n ≡ room_of task.n) × (n4 ≡ 4 * n) × (nn ≡ n * n) }
    ensures { result ≡ (open_of (opening_of task)).answer }
{
    let settings = task.settings;
    let y = task.amounts;
    let mut f0 = vector();
    let mut scal = vector();
    let mut cont = coefficients();
    let mut z1 = vector();
    let mut z2 = vector();
    let mut z3 = vector();
    let mut f1 = vector();
    let mut f2 = vector();
    let mut f3 = vector();
    let mut rtol = vector();
    let mut atol = vector();
    let mut mass = matrix();
    let mut jac = matrix();
    let mut e1 = matrix();
    let mut e2r = matrix();
    let mut e2i = matrix();
    let mut ip1 = pivots();
    let mut ip2 = pivots();
    let mut y_perturbed = vector();
    let mut f_perturbed = vector();
    let mut f_origin = vector();
    open(
        settings,
        task.n,
        task.x0,
        task.xend,
        Tolerances::Scalars(task.rtol, task.atol),
        &y[0..n],
        &mut f0[0..n],
        &mut scal[0..n],
        &mut cont[0..n4],
        &mut z1[0..n],
        &mut z2[0..n],
        &mut z3[0..n],
        &mut f1[0..n],
        &mut f2[0..n],
        &mut f3[0..n],
        &mut rtol[0..n],
        &mut atol[0..n],
        &mut mass[0..nn],
        &mut jac[0..nn],
        &mut e1[0..nn],
        &mut e2r[0..nn],
        &mut e2i[0..nn],
        &mut ip1[0..n],
        &mut ip2[0..n],
        &mut y_perturbed[0..n],
        &mut f_perturbed[0..n],
        &mut f_origin[0..n],
    )
}

// Opens the run of a task.
pub fn start(task: Task) -> Result<Call, Refusal>
    ensures { result ≡ (open_of (opening_of task)).answer }
{
    let n = room(task.n);
    opened(task, n, 4 * n, n * n)
}

// The run that was opened, from its first request to its end.
fn ran(
    task: Task,
    pending: Call,
    n: usize,
    n4: usize,
    nn: usize,
    rates: &[f64],
    species: &[usize],
) -> TaskOutcome
    requires n_bound { (n ≤ 32) × (n ≡ room_of task.n) × (n4 ≡ 4 * n) × (nn ≡ n * n) }
    requires none_refused { NoneRefused (host_for task rates.now species.now)
        (point pending.run pending.request pending.place (memory_of task)) }
    ensures { result
        ≡ ran_of task rates.now species.now pending.run pending.request pending.place }
{
    let mut y = task.amounts;
    let mut f0 = vector();
    let mut scal = vector();
    let mut cont = coefficients();
    let mut z1 = vector();
    let mut z2 = vector();
    let mut z3 = vector();
    let mut f1 = vector();
    let mut f2 = vector();
    let mut f3 = vector();
    let rtol = vector();
    let atol = vector();
    let mass = matrix();
    let mut jac = matrix();
    let mut e1 = matrix();
    let mut e2r = matrix();
    let mut e2i = matrix();
    let mut ip1 = pivots();
    let mut ip2 = pivots();
    let mut y_perturbed = vector();
    let mut f_perturbed = vector();
    let mut f_origin = vector();
    let run = to_end(
        pending,
        task.reactions,
        rates,
        species,
        &mut y[0..n],
        &mut f0[0..n],
        &mut scal[0..n],
        &mut cont[0..n4],
        &mut z1[0..n],
        &mut z2[0..n],
        &mut z3[0..n],
        &mut f1[0..n],
        &mut f2[0..n],
        &mut f3[0..n],
        &rtol[0..n],
        &atol[0..n],
        &mass[0..nn],
        &mut jac[0..nn],
        &mut e1[0..nn],
        &mut e2r[0..nn],
        &mut e2i[0..nn],
        &mut ip1[0..n],
        &mut ip2[0..n],
        &mut y_perturbed[0..n],
        &mut f_perturbed[0..n],
        &mut f_origin[0..n],
    );
    TaskOutcome {
        finish: Ok(run),
        amounts: y,
    }
}

// Runs a task to its end. Reaction i has the rate rates[i], and its four species stand from species[4 * i] on.
pub fn run(task: Task, rates: &[f64], species: &[usize]) -> TaskOutcome
    ensures { result ≡ run_of task rates.now species.now }
{
    let n = room(task.n);
    let amounts = task.amounts;
    match opened(task, n, 4 * n, n * n) {
        Err(refusal) => TaskOutcome {
            finish: Err(refusal),
            amounts,
        },
        Ok(call) => ran(task, call, n, 4 * n, n * n, rates, species),
    }
}
