// How far a text of a fixed form has come.

// A number that a text is to have at its place.
#[derive(Clone, Copy)]
pub enum Number {
    // It has not begun, and the value means nothing; a record that no bytes lead to keeps it.
    Awaited(u64),
    // It has come so far.
    Begun(u64),
}

#[derive(Clone, Copy)]
pub struct Filling {
    // The place in the form.
    pub at: usize,
    // The number that stands there, or comes next.
    pub number: Number,
    // The numbers before that place, and how many they are.
    pub filled: usize,
    pub values: [u64; 16],
}
