// A matrix of doubles, row by row in one slice.
ghost use Rattle.std.specs.Prelude.{◌≡◌, ◌<◌};
ghost use Rattle.words.specs.Grid as grid;
ghost use Rattle.words.specs.Grid.{Square};

#[tactic(auto, unfolding(words::specs::Grid::at))]
pub fn at(n: usize, a: &[f64], i: usize, k: usize) -> f64
    requires square { Square n a.now }
    requires i_lt_n { (i < n) × (k < n) }
    ensures { result ≡ grid.at a.now n i k }
{
    a[i * n + k]
}

#[tactic(auto, unfolding(words::specs::Grid::put))]
pub fn put(n: usize, a: &mut [f64], i: usize, k: usize, x: f64)
    requires square { Square n a.old }
    requires i_lt_n { (i < n) × (k < n) }
    ensures { a.new ≡ grid.put a.old n i k x }
{
    a[i * n + k] = x;
}
