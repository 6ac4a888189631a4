// Opening a run: the tests of document 01's table, then the run before its first request.
ghost use Rattle.std.specs.Prelude.{◌≡◌};
ghost use Rattle.state.specs.Memory.{memory, amounts, newton, given, factors, differences};
ghost use Rattle.opening.specs.Rows.{opening};
ghost use Rattle.opening.specs.Opening.{opening_outcome, open_of};

use crate::groups::opened;
use state::lent::{Differences, Factors, Newton};
use state::run::Tolerances;
use state::settings::Settings;
use state::talk::{Call, Refusal};

// Opens a run of n amounts from x0 to xend. The first row of 01's table that holds refuses it, and nothing is written.
// Else given tolerance lists are converted where they stand, and parts that were not given are set to +0.
pub fn open(
    settings: Settings,
    n: usize,
    x0: f64,
    xend: f64,
    tolerances: Tolerances,
    y: &[f64],
    f0: &mut [f64],
    scal: &mut [f64],
    cont: &mut [f64],
    z1: &mut [f64],
    z2: &mut [f64],
    z3: &mut [f64],
    f1: &mut [f64],
    f2: &mut [f64],
    f3: &mut [f64],
    rtol: &mut [f64],
    atol: &mut [f64],
    mass: &mut [f64],
    jac: &mut [f64],
    e1: &mut [f64],
    e2r: &mut [f64],
    e2i: &mut [f64],
    ip1: &mut [usize],
    ip2: &mut [usize],
    y_perturbed: &mut [f64],
    f_perturbed: &mut [f64],
    f_origin: &mut [f64],
) -> Result<Call, Refusal>
    ensures { opening_outcome result (memory
        (amounts y.now f0.new scal.new cont.new)
        (newton z1.new z2.new z3.new f1.new f2.new f3.new)
        (given rtol.new atol.new mass.new jac.new)
        (factors e1.new e2r.new e2i.new ip1.new ip2.new)
        (differences y_perturbed.new f_perturbed.new f_origin.new))
        ≡ open_of (opening settings n x0 xend tolerances (memory
        (amounts y.now f0.old scal.old cont.old)
        (newton z1.old z2.old z3.old
        f1.old f2.old f3.old)
        (given rtol.old atol.old mass.old jac.old)
        (factors e1.old e2r.old e2i.old ip1.old ip2.old)
        (differences y_perturbed.old f_perturbed.old f_origin.old))) }
{
    let mut lent_newton = Newton {
        z1,
        z2,
        z3,
        f1,
        f2,
        f3,
    };
    let mut lent_factors = Factors {
        e1,
        e2r,
        e2i,
        ip1,
        ip2,
    };
    let mut lent_differences = Differences {
        y_perturbed,
        f_perturbed,
        f_origin,
    };
    opened(
        settings,
        n,
        x0,
        xend,
        tolerances,
        y,
        f0,
        scal,
        cont,
        &mut lent_newton,
        rtol,
        atol,
        mass,
        jac,
        &mut lent_factors,
        &mut lent_differences,
    )
}
