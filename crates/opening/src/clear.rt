// Setting what was not given to +0, group by group of the lent memory.
ghost use Rattle.std.specs.Prelude.{◌≡◌, length};
ghost use Rattle.state.specs.Memory.{zeros};
ghost use Rattle.opening.specs.Opening.{Working, working};

use state::parts::zero;

pub fn clear_working(f0: &mut [f64], scal: &mut [f64], cont: &mut [f64], jac: &mut [f64])
    ensures { working f0.new scal.new cont.new jac.new
        ≡ working (zeros (length f0.old)) (zeros (length scal.old))
        (zeros (length cont.old)) (zeros (length jac.old)) }
{
    zero(f0);
    zero(scal);
    zero(cont);
    zero(jac);
}
