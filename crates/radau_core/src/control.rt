// The step that the error asks for, and what an acceptance or a rejection leaves in the run
// (radau.rs:671-697, 780-795).
ghost use Rattle.std.specs.Prelude.{◌≡◌, ◌+◌, ◌≤◌, ◌<◌, ◌^◌};
ghost use Rattle.solve_blocks.specs.Judge.{fac_of, between, quot_of, predictive_quot, remembered};
ghost use Rattle.solve_blocks.specs.Judge.{accepted_point, accepted_of, rejected_of};
ghost use Rattle.radau_core.specs.Places.{run_at, settings_at, Sized, control_at, counts_at};

use crate::entries::as_float;
use crate::notes::strode;
use crate::passes::missed;
use crate::places::{
    ACCEPTED, DOUBLES, ERR_ACC, FIRST, H, H_ACC, HHFAC, HNEW, HOLD, MADE_HERE, NEWT_ITER,
    NEWTON_MAXITER, PREDICTIVE, REJECTED, SAFETY_FACTOR, SCALE_MAX, SCALE_MIN, WORDS, X, XOLD, XPH,
};
use scalar::{max, min, quarter};

// The safety factor, lessened by the rounds that were needed.
fn fac(words: &[usize; WORDS], doubles: &[f64; DOUBLES]) -> f64
    requires { ((settings_at words.now doubles.now).newton_maxiter ≤ 16)
        × ((control_at words.now).newt_iter ≤ 17) }
    ensures { result
        ≡ fac_of (settings_at words.now doubles.now)
        (control_at words.now).newt_iter }
{
    let safety = doubles[SAFETY_FACTOR];
    let rounds = 2.0 * as_float(words[NEWTON_MAXITER]);
    let cfac = safety * (1.0 + rounds);
    min(safety, cfac / (as_float(words[NEWT_ITER]) + rounds))
}

// Between 1 / scale_max and 1 / scale_min.
fn between(words: &[usize; WORDS], doubles: &[f64; DOUBLES], q: f64) -> f64
    ensures { result ≡ between (settings_at words.now doubles.now) q }
{
    max(1.0 / doubles[SCALE_MAX], min(1.0 / doubles[SCALE_MIN], q))
}

pub fn quot(words: &[usize; WORDS], doubles: &[f64; DOUBLES], err: f64) -> f64
    requires { ((settings_at words.now doubles.now).newton_maxiter ≤ 16)
        × ((control_at words.now).newt_iter ≤ 17) }
    ensures { result
        ≡ quot_of (settings_at words.now doubles.now)
        (control_at words.now).newt_iter err }
{
    between(words, doubles, quarter(err) / fac(words, doubles))
}

// The predictive controller, from the second acceptance on.
fn predictive_quot(words: &[usize; WORDS], doubles: &[f64; DOUBLES], err: f64, quot: f64) -> f64
    requires { (counts_at words.now).accepted + 1 < 2 ^ 64 }
    ensures { result ≡ predictive_quot (run_at words.now doubles.now) err quot }
{
    if (words[PREDICTIVE] != 0) & (1 < words[ACCEPTED] + 1) {
        let facgus = (doubles[H_ACC] / doubles[H]) * quarter(err * err / doubles[ERR_ACC])
            / doubles[SAFETY_FACTOR];
        return max(quot, between(words, doubles, facgus));
    }
    quot
}

// What the predictive controller remembers.
fn remembered(words: &mut [usize; WORDS], doubles: &mut [f64; DOUBLES], err: f64)
    requires { Sized words.old doubles.old }
    ensures sized { Sized words.new doubles.new }
    ensures doubles_after { run_at words.new doubles.new
        ≡ remembered err (run_at words.old doubles.old) }
{
    if words[PREDICTIVE] != 0 {
        doubles[H_ACC] = doubles[H];
        doubles[ERR_ACC] = max(err, 1e-2);
    }
}

// What every acceptance leaves in the run, whatever its error was.
fn accepted_point(words: &mut [usize; WORDS], doubles: &mut [f64; DOUBLES])
    requires sized { Sized words.old doubles.old }
    requires doubles_bound { (run_at words.old doubles.old).counts.accepted + 1 < 2 ^ 64 }
    ensures sized_2 { Sized words.new doubles.new }
    ensures doubles_after { run_at words.new doubles.new
        ≡ accepted_point (run_at words.old doubles.old) }
{
    words[ACCEPTED] = words[ACCEPTED] + 1;
    words[FIRST] = 0;
    words[MADE_HERE] = 0;
    doubles[XOLD] = doubles[X];
    doubles[HOLD] = doubles[H];
    doubles[X] = doubles[XPH];
    strode(words, doubles);
}

pub fn accepted(words: &mut [usize; WORDS], doubles: &mut [f64; DOUBLES], err: f64, quot: f64)
    requires sized { Sized words.old doubles.old }
    requires doubles_bound { (run_at words.old doubles.old).counts.accepted + 1 < 2 ^ 64 }
    ensures sized_2 { Sized words.new doubles.new }
    ensures doubles_after { run_at words.new doubles.new
        ≡ accepted_of (run_at words.old doubles.old) err quot }
{
    doubles[HNEW] = doubles[H] / predictive_quot(words, doubles, err, quot);
    remembered(words, doubles, err);
    accepted_point(words, doubles);
}

pub fn rejected(words: &mut [usize; WORDS], doubles: &mut [f64; DOUBLES], hnew: f64)
    requires sized { Sized words.old doubles.old }
    requires doubles_bound { (run_at words.old doubles.old).counts.rejected + 1 < 2 ^ 64 }
    ensures sized_2 { Sized words.new doubles.new }
    ensures doubles_after { run_at words.new doubles.new
        ≡ rejected_of (run_at words.old doubles.old) hnew }
{
    if words[FIRST] != 0 {
        doubles[H] = doubles[H] * 0.1;
        doubles[HHFAC] = 0.1;
        missed(words, doubles);
        return;
    }
    doubles[HHFAC] = hnew / doubles[H];
    doubles[H] = hnew;
    words[REJECTED] = words[REJECTED] + 1;
    missed(words, doubles);
}
