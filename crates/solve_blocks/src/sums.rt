// Three sums that are taken side by side: row i of the mass times each of the stages (radau.rs:528-541).
#[derive(Clone, Copy)]
pub struct Sums {
    pub sum1: f64,
    pub sum2: f64,
    pub sum3: f64,
}
