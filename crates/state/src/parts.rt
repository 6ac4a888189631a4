// A part of lent memory is set to +0.
ghost use Rattle.std.specs.Prelude.{◌≡◌, length};
ghost use Rattle.state.specs.Memory.{zeros, noughts};

// Sets every entry to +0.
pub fn zero(part: &mut [f64])
    ensures { part.new ≡ zeros (length part.old) }
{
    part.fill(0.0);
}

pub fn zero_pivots(part: &mut [usize])
    ensures { part.new ≡ noughts (length part.old) }
{
    part.fill(0);
}
