// A case: the state of a run, forged at will, the reply that is handed with it, the lengths and pivots of the lent
// memory, and the verdict that is wanted. Its words stand in one block; tests/replays/replay_admission.py, which writes
// them, says what they are.
use bits::double;
use replay::settings::{N, X0, XEND, choice, number, settings_of, tolerances_of, word};
use replay::word::{ReadError, quarter, read_block};
use state::run::{
    Control, Counts, Fixed, Notes, Numbers, Run, Shape, Singular, Stage, Status, Strides,
};
use state::talk::Reply;
use std::io::Read;

pub const WORDS: usize = 48;

// The row of the summary, and 01's number of the verdict, 0 where the advance is admitted.
const OUTCOME: usize = 19;

// The lengths of the parts, four to a word.
const LENGTHS: usize = 20;

const NIND1: usize = 26;

const NIND2: usize = 27;

const NIND3: usize = 28;

const NEWT_ITER: usize = 29;

const SINGULAR_COUNT: usize = 30;

const ODE: usize = 31;

const JAC: usize = 32;

const LU: usize = 33;

const TOTAL: usize = 34;

const ACCEPTED: usize = 35;

const REJECTED: usize = 36;

// The number of the stage, that of the status of an ended run, and that of the reply.
const TALK: usize = 37;

const COLUMN: usize = 38;

const REPLY_FLOAT: usize = 39;

// Of each list of pivots the place of one entry, and what all others are; then what that entry is, in each list.
const PIVOTS: usize = 40;

const ODD_PIVOT: usize = 41;

// What the floats of the state are that no test looks at, and the column of its notes.
const FLOATS: usize = 43;

// Whether there are strides, the smallest and the largest.
const STRIDES: usize = 44;

const SMALLEST: usize = 45;

const LARGEST: usize = 46;

// The entries of an array that holds the pivots of up to 33 amounts, and one more.
pub const ROOM: usize = 34;

// The bits of the word of choices behind those of the settings.
const FIRST: u64 = 8192;

const LAST: u64 = 16384;

const REJECT: u64 = 32768;

const CALL_JAC: u64 = 65536;

const CALL_DECOMP: u64 = 131_072;

const XOUT_GIVEN: u64 = 262_144;

const MADE_HERE: u64 = 524_288;

#[derive(Clone, Copy)]
pub struct Case {
    words: [u64; WORDS],
}

// By 01's numbers.
fn status_of(number: u64) -> Status {
    match number {
        0 => Status::Success,
        1 => Status::UserInterrupt,
        2 => Status::NeedLargerNMax,
        3 => Status::StepSizeTooSmall,
        _ => Status::SingularMatrix,
    }
}

fn stage_of(number: u64, column: usize, status: Status) -> Stage {
    match number {
        0 => Stage::FirstDerivative,
        1 => Stage::FirstReport,
        2 => Stage::FirstDerivativeAgain,
        3 => Stage::Jacobian,
        4 => Stage::Column(column),
        5 => Stage::Newton1,
        6 => Stage::Newton2,
        7 => Stage::Newton3,
        8 => Stage::Refinement,
        9 => Stage::Accepted,
        10 => Stage::Report,
        11 => Stage::DerivativeAgain,
        _ => Stage::Ended(status),
    }
}

impl Case {
    pub fn row(self) -> usize {
        quarter(self.words[OUTCOME], 0) as usize
    }

    pub fn wanted(self) -> u64 {
        quarter(self.words[OUTCOME], 1)
    }

    pub fn length(self, part: usize) -> usize {
        quarter(word(&self.words, LENGTHS + part % 64 / 4), part % 4) as usize
    }

    // The first list of pivots (side 0) or the second (side 1).
    pub fn pivots(self, side: usize) -> [usize; ROOM] {
        let words = self.words;
        let at = side % 2;
        let place = quarter(words[PIVOTS], 2 * at) as usize;
        let others = quarter(words[PIVOTS], 2 * at + 1) as usize;
        let mut made = [others; ROOM];
        if place < ROOM {
            made[place] = words[ODD_PIVOT + at] as usize;
        }
        made
    }

    pub fn reply(self) -> Reply {
        let words = self.words;
        let float = double(words[REPLY_FLOAT]);
        match quarter(words[TALK], 2) {
            0 => Reply::Filled,
            1 => Reply::Continue,
            2 => Reply::Interrupt,
            3 => Reply::Modified(float),
            _ => Reply::Mark(float),
        }
    }

    fn stage(self) -> Stage {
        let words = self.words;
        let status = status_of(quarter(words[TALK], 1));
        stage_of(quarter(words[TALK], 0), words[COLUMN] as usize, status)
    }

    fn shape(self) -> Shape {
        let words = self.words;
        Shape {
            n: words[N] as usize,
            nind1: words[NIND1] as usize,
            nind2: words[NIND2] as usize,
            nind3: words[NIND3] as usize,
        }
    }

    fn fixed(self) -> Fixed {
        let words = self.words;
        let float = double(words[FLOATS]);
        Fixed {
            tolerances: tolerances_of(&words),
            newton_tol: float,
            xend: double(words[XEND]),
            posneg: float,
            hmax: float,
            hmin: float,
        }
    }

    fn counts(self) -> Counts {
        let words = self.words;
        Counts {
            ode: words[ODE] as usize,
            jac: words[JAC] as usize,
            lu: words[LU] as usize,
            total: words[TOTAL] as usize,
            accepted: words[ACCEPTED] as usize,
            rejected: words[REJECTED] as usize,
        }
    }

    fn control(self) -> Control {
        let words = self.words;
        Control {
            first: choice(&words, FIRST),
            last: choice(&words, LAST),
            reject: choice(&words, REJECT),
            call_jac: choice(&words, CALL_JAC),
            call_decomp: choice(&words, CALL_DECOMP),
            singular_count: words[SINGULAR_COUNT] as usize,
            newt_iter: words[NEWT_ITER] as usize,
            made_here: choice(&words, MADE_HERE),
        }
    }

    fn numbers(self) -> Numbers {
        let words = self.words;
        let float = double(words[FLOATS]);
        Numbers {
            x: double(words[X0]),
            xold: float,
            xph: float,
            h: float,
            hold: float,
            hnew: float,
            hhfac: float,
            h_acc: float,
            err_acc: float,
            faccon: float,
            theta: float,
            dynold: float,
            thqold: float,
            xout: number(&words, XOUT_GIVEN, FLOATS),
        }
    }

    // Any is fit: a column of n or more too.
    fn singular(self) -> Option<Singular> {
        let words = self.words;
        let column = words[FLOATS] as usize;
        match words[FLOATS] % 3 {
            0 => None,
            1 => Some(Singular::Real(column)),
            _ => Some(Singular::Complex(column)),
        }
    }

    fn strides(self) -> Option<Strides> {
        let words = self.words;
        let strides = Strides {
            smallest: double(words[SMALLEST]),
            largest: double(words[LARGEST]),
        };
        (words[STRIDES] != 0).then_some(strides)
    }

    pub fn run(self) -> Run {
        let words = self.words;
        Run {
            settings: settings_of(&words),
            shape: self.shape(),
            fixed: self.fixed(),
            counts: self.counts(),
            control: self.control(),
            numbers: self.numbers(),
            stage: self.stage(),
            notes: Notes {
                singular: self.singular(),
                strides: self.strides(),
            },
        }
    }
}

// The next case of standard input.
pub fn read_case<R: Read>(input: &mut R) -> Result<Case, ReadError> {
    let mut words = [0; WORDS];
    read_block(input, &mut words, WORDS)?;
    Ok(Case { words })
}
