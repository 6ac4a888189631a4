// A run put into its places, and read off them.
ghost use Rattle.std.specs.Prelude.{◌≡◌};
ghost use Rattle.radau_core.specs.Choices.{flag_word, mass_word, source_word};
ghost use Rattle.radau_core.specs.Choices.{rule_word, tolerances_tag, rtol_value, atol_value};
ghost use Rattle.radau_core.specs.Places.{counts_at, control_at, numbers_at, fixed_at, settings_at, run_at};
ghost use Rattle.radau_core.specs.Places.{words_of, doubles_of};

use crate::kept::{mass_mode, rule_mode, shape_at, source_mode, tolerances_at};
use crate::notes::notes_at;
use crate::optional::{option_at, option_tag};
use crate::places::{
    ACCEPTED, CALL_DECOMP, CALL_JAC, DENSE_OUTPUT, DOUBLES, DYNOLD, ERR_ACC, FACCON, FIRST,
    GIVEN_FIRST_STEP, GIVEN_MAX_STEP, GIVEN_MIN_STEP, GIVEN_NEWTON_TOL, GIVEN_NIND1, GIVEN_NIND2,
    GIVEN_NIND3, H, H_ACC, HAS_FIRST_STEP, HAS_MAX_STEP, HAS_MIN_STEP, HAS_NEWTON_TOL, HAS_NIND1,
    HAS_NIND2, HAS_NIND3, HHFAC, HMAX, HMIN, HNEW, HOLD, JAC, LAST, LU, MADE_HERE, MARKED, MASS,
    MAX_STEPS, NEWT_ITER, NEWTON_MAXITER, NEWTON_TOL, ODE, POSNEG, PREDICTIVE, REJECT, REJECTED,
    RULE, SAFETY_FACTOR, SCALE_MAX, SCALE_MIN, SINGULAR_COUNT, SOURCE, THETA, THQOLD, TOTAL,
    UROUND, WORDS, X, XEND, XOLD, XOUT, XPH,
};
use crate::stage::{stage_at, stage_part, stage_tag};
use state::numbers::{largest_stride, singular_column, singular_kind, smallest_stride};
use state::run::{Control, Counts, Fixed, Numbers, Run, Tolerances};
use state::settings::{Mass, Rule, Settings, Source};

fn flag_word(flag: bool) -> usize
    ensures { result ≡ flag_word flag }
{
    if flag {
        return 1;
    }
    0
}

fn mass_word(mass: Mass) -> usize
    ensures { result ≡ mass_word mass }
{
    match mass {
        Mass::Identity => 0,
        Mass::Full => 1,
    }
}

fn source_word(source: Source) -> usize
    ensures { result ≡ source_word source }
{
    match source {
        Source::Host => 0,
        Source::Differences => 1,
    }
}

fn rule_word(rule: Rule) -> usize
    ensures { result ≡ rule_word rule }
{
    match rule {
        Rule::Rust => 0,
        Rule::Book => 1,
    }
}

fn tolerances_tag(tolerances: Tolerances) -> usize
    ensures { result ≡ tolerances_tag tolerances }
{
    match tolerances {
        Tolerances::Scalars(_, _) => 0,
        Tolerances::Lists => 1,
    }
}

fn rtol_value(tolerances: Tolerances) -> f64
    ensures { result ≡ rtol_value tolerances }
{
    match tolerances {
        Tolerances::Scalars(relative, _) => relative,
        Tolerances::Lists => 0.0,
    }
}

fn atol_value(tolerances: Tolerances) -> f64
    ensures { result ≡ atol_value tolerances }
{
    match tolerances {
        Tolerances::Scalars(_, absolute) => absolute,
        Tolerances::Lists => 0.0,
    }
}

// The whole numbers of a run, in the order of the places.
pub fn words_of(run: Run) -> [usize; WORDS]
    ensures { result ≡ words_of run }
{
    let stage = run.stage;
    let c = run.control;
    let v = run.numbers;
    let xout = v.xout;
    let f = run.fixed;
    let tolerances = f.tolerances;
    let s = run.settings;
    let max_step = s.max_step;
    let min_step = s.min_step;
    let newton_tol = s.newton_tol;
    let first_step = s.first_step;
    let nind1 = s.nind1;
    let nind2 = s.nind2;
    let nind3 = s.nind3;
    let mass = s.mass;
    let source = s.source;
    let rule = s.rule;
    let notes = run.notes;
    let singular = notes.singular;
    let strides = notes.strides;
    [
        stage_tag(stage),
        stage_part(stage),
        run.counts.ode,
        run.counts.jac,
        run.counts.lu,
        run.counts.total,
        run.counts.accepted,
        run.counts.rejected,
        flag_word(c.first),
        flag_word(c.last),
        flag_word(c.reject),
        flag_word(c.call_jac),
        flag_word(c.call_decomp),
        c.singular_count,
        c.newt_iter,
        option_tag(xout),
        run.shape.n,
        run.shape.nind1,
        run.shape.nind2,
        run.shape.nind3,
        tolerances_tag(tolerances),
        s.max_steps,
        s.newton_maxiter,
        flag_word(s.predictive),
        mass_word(mass),
        source_word(source),
        flag_word(s.dense_output),
        rule_word(rule),
        option_tag(max_step),
        option_tag(min_step),
        option_tag(newton_tol),
        option_tag(first_step),
        option_tag(nind1),
        nind1.unwrap_or(0),
        option_tag(nind2),
        nind2.unwrap_or(0),
        option_tag(nind3),
        nind3.unwrap_or(0),
        flag_word(c.made_here),
        singular_kind(singular),
        singular_column(singular),
        option_tag(strides),
    ]
}

// The doubles of a run, in the order of the places.
pub fn doubles_of(run: Run) -> [f64; DOUBLES]
    ensures { result ≡ doubles_of run }
{
    let v = run.numbers;
    let xout = v.xout;
    let f = run.fixed;
    let tolerances = f.tolerances;
    let s = run.settings;
    let max_step = s.max_step;
    let min_step = s.min_step;
    let newton_tol = s.newton_tol;
    let first_step = s.first_step;
    let notes = run.notes;
    let strides = notes.strides;
    [
        v.x,
        v.xold,
        v.xph,
        v.h,
        v.hold,
        v.hnew,
        v.hhfac,
        v.h_acc,
        v.err_acc,
        v.faccon,
        v.theta,
        v.dynold,
        v.thqold,
        xout.unwrap_or(0.0),
        f.newton_tol,
        f.xend,
        f.posneg,
        f.hmax,
        f.hmin,
        rtol_value(tolerances),
        atol_value(tolerances),
        s.uround,
        s.safety_factor,
        s.scale_min,
        s.scale_max,
        max_step.unwrap_or(0.0),
        min_step.unwrap_or(0.0),
        newton_tol.unwrap_or(0.0),
        first_step.unwrap_or(0.0),
        smallest_stride(strides),
        largest_stride(strides),
    ]
}

fn counts_at(words: &[usize; WORDS]) -> Counts
    ensures { result ≡ counts_at words.now }
{
    Counts {
        ode: words[ODE],
        jac: words[JAC],
        lu: words[LU],
        total: words[TOTAL],
        accepted: words[ACCEPTED],
        rejected: words[REJECTED],
    }
}

fn control_at(words: &[usize; WORDS]) -> Control
    ensures { result ≡ control_at words.now }
{
    Control {
        first: words[FIRST] != 0,
        last: words[LAST] != 0,
        reject: words[REJECT] != 0,
        call_jac: words[CALL_JAC] != 0,
        call_decomp: words[CALL_DECOMP] != 0,
        singular_count: words[SINGULAR_COUNT],
        newt_iter: words[NEWT_ITER],
        made_here: words[MADE_HERE] != 0,
    }
}

fn numbers_at(words: &[usize; WORDS], doubles: &[f64; DOUBLES]) -> Numbers
    ensures { result ≡ numbers_at words.now doubles.now }
{
    Numbers {
        x: doubles[X],
        xold: doubles[XOLD],
        xph: doubles[XPH],
        h: doubles[H],
        hold: doubles[HOLD],
        hnew: doubles[HNEW],
        hhfac: doubles[HHFAC],
        h_acc: doubles[H_ACC],
        err_acc: doubles[ERR_ACC],
        faccon: doubles[FACCON],
        theta: doubles[THETA],
        dynold: doubles[DYNOLD],
        thqold: doubles[THQOLD],
        xout: option_at(words[MARKED], doubles[XOUT]),
    }
}

fn fixed_at(words: &[usize; WORDS], doubles: &[f64; DOUBLES]) -> Fixed
    ensures { result ≡ fixed_at words.now doubles.now }
{
    Fixed {
        tolerances: tolerances_at(words, doubles),
        newton_tol: doubles[NEWTON_TOL],
        xend: doubles[XEND],
        posneg: doubles[POSNEG],
        hmax: doubles[HMAX],
        hmin: doubles[HMIN],
    }
}

fn settings_at(words: &[usize; WORDS], doubles: &[f64; DOUBLES]) -> Settings
    ensures { result ≡ settings_at words.now doubles.now }
{
    Settings {
        max_steps: words[MAX_STEPS],
        uround: doubles[UROUND],
        safety_factor: doubles[SAFETY_FACTOR],
        scale_min: doubles[SCALE_MIN],
        scale_max: doubles[SCALE_MAX],
        max_step: option_at(words[HAS_MAX_STEP], doubles[GIVEN_MAX_STEP]),
        min_step: option_at(words[HAS_MIN_STEP], doubles[GIVEN_MIN_STEP]),
        newton_maxiter: words[NEWTON_MAXITER],
        newton_tol: option_at(words[HAS_NEWTON_TOL], doubles[GIVEN_NEWTON_TOL]),
        predictive: words[PREDICTIVE] != 0,
        nind1: option_at(words[HAS_NIND1], words[GIVEN_NIND1]),
        nind2: option_at(words[HAS_NIND2], words[GIVEN_NIND2]),
        nind3: option_at(words[HAS_NIND3], words[GIVEN_NIND3]),
        mass: mass_mode(words[MASS]),
        source: source_mode(words[SOURCE]),
        first_step: option_at(words[HAS_FIRST_STEP], doubles[GIVEN_FIRST_STEP]),
        dense_output: words[DENSE_OUTPUT] != 0,
        rule: rule_mode(words[RULE]),
    }
}

// The run that two arrays hold.
pub fn run_at(words: &[usize; WORDS], doubles: &[f64; DOUBLES]) -> Run
    ensures { result ≡ run_at words.now doubles.now }
{
    Run {
        settings: settings_at(words, doubles),
        shape: shape_at(words),
        fixed: fixed_at(words, doubles),
        counts: counts_at(words),
        control: control_at(words),
        numbers: numbers_at(words, doubles),
        stage: stage_at(words),
        notes: notes_at(words, doubles),
    }
}
