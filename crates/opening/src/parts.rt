// Searches through one part of lent memory that opening needs.
ghost use Rattle.std.specs.Prelude.{◌≡◌, Bool, Float};
ghost use Rattle.opening.specs.Rows.{not_finite, not_above, below, first_of};

// Whether x is a NaN or an infinity.
pub fn is_not_finite(x: f64) -> bool
    ensures { result ≡ not_finite x }
{
    !((-1.0 / 0.0 < x) & (x < 1.0 / 0.0))
}

// A property for which an entry is refused.
pub trait Property {
    ghost property: { Float → Bool };

    fn holds(x: f64) -> bool
        ensures { result ≡ property x };
}

pub struct NotFinite;

impl Property for NotFinite {
    ghost property = { not_finite };

    fn holds(x: f64) -> bool {
        is_not_finite(x)
    }
}

// 0 or less.
pub struct NotAbove;

impl Property for NotAbove {
    ghost property = { not_above };

    fn holds(x: f64) -> bool {
        x <= 0.0
    }
}

// Below 0.
pub struct Below;

impl Property for Below {
    ghost property = { below };

    fn holds(x: f64) -> bool {
        x < 0.0
    }
}

// The place of the first entry with a property, if there is one.
pub fn first<P: Property>(part: &[f64]) -> Option<usize>
    ensures { result ≡ first_of P.property part.now }
{
    for (place, &x) in part.iter().enumerate() {
        if P::holds(x) {
            return Some(place);
        }
    }
    None
}
