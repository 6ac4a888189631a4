// The settings of a run: the Rust's struct RADAU (radau.rs:22-66), in its order. What may be absent is an Option, as
// there.
ghost use Rattle.std.specs.Prelude.{◌≡◌};
ghost use Rattle.state.specs.Settings.{defaults_of};

// The mass matrix: the identity, or the n by n matrix that stands in the part `mass` at opening.
#[derive(Clone, Copy)]
pub enum Mass {
    Identity,
    Full,
}

// Who makes the Jacobian: the host, or this solver by differences.
#[derive(Clone, Copy)]
pub enum Source {
    Host,
    Differences,
}

// Which text decides where the Rust departs from the book.
#[derive(Clone, Copy)]
pub enum Rule {
    Rust,
    Book,
}

#[derive(Clone, Copy)]
pub struct Settings {
    pub max_steps: usize,
    pub uround: f64,
    pub safety_factor: f64,
    pub scale_min: f64,
    pub scale_max: f64,
    pub max_step: Option<f64>,
    pub min_step: Option<f64>,
    pub newton_maxiter: usize,
    pub newton_tol: Option<f64>,
    pub predictive: bool,
    pub nind1: Option<usize>,
    pub nind2: Option<usize>,
    pub nind3: Option<usize>,
    pub mass: Mass,
    pub source: Source,
    pub first_step: Option<f64>,
    pub dense_output: bool,
    pub rule: Rule,
}

impl Settings {
    pub const MAX_STEPS: usize = 100_000;

    pub const UROUND: f64 = 2.3e-16;

    pub const SAFETY_FACTOR: f64 = 0.9;

    pub const SCALE_MIN: f64 = 0.2;

    pub const SCALE_MAX: f64 = 8.0;

    pub const NEWTON_MAXITER: usize = 7;

    pub const PREDICTIVE: bool = true;

    pub const DENSE_OUTPUT: bool = true;

    // The Rust's defaults. As there, the mass matrix is Full, so a host that wants the identity says so.
    pub fn new() -> Settings
        ensures { result ≡ defaults_of }
    {
        Settings {
            max_steps: Settings::MAX_STEPS,
            uround: Settings::UROUND,
            safety_factor: Settings::SAFETY_FACTOR,
            scale_min: Settings::SCALE_MIN,
            scale_max: Settings::SCALE_MAX,
            max_step: None,
            min_step: None,
            newton_maxiter: Settings::NEWTON_MAXITER,
            newton_tol: None,
            predictive: Settings::PREDICTIVE,
            nind1: None,
            nind2: None,
            nind3: None,
            mass: Mass::Full,
            source: Source::Differences,
            first_step: None,
            dense_output: Settings::DENSE_OUTPUT,
            rule: Rule::Rust,
        }
    }
}
