// The call under test: a case is handed to `admission`, and its verdict is told as document 01's number.
use crate::case::Case;
use opening::admission::admission;
use state::refusal_number;
use state::talk::Refusal;

// The entries of a matrix of the first order that is refused, and one more: no part is longer.
const MOST: usize = 1090;

// As much of an array as a part of the case is long. What floats it holds is nothing to the tests before an advance.
fn cut<E>(entries: &[E], case: Case, part: usize) -> &[E] {
    let count = case.length(part).min(entries.len());
    &entries[..count]
}

// The one function that calls what is under test. One array is lent for all floats.
fn verdict(case: Case, floats: &[f64], ip1: &[usize], ip2: &[usize]) -> Result<(), Refusal> {
    admission(
        case.run(),
        case.reply(),
        cut(floats, case, 0),
        cut(floats, case, 1),
        cut(floats, case, 2),
        cut(floats, case, 3),
        cut(floats, case, 4),
        cut(floats, case, 5),
        cut(floats, case, 6),
        cut(floats, case, 7),
        cut(floats, case, 8),
        cut(floats, case, 9),
        cut(floats, case, 10),
        cut(floats, case, 11),
        cut(floats, case, 12),
        cut(floats, case, 13),
        cut(floats, case, 14),
        cut(floats, case, 15),
        cut(floats, case, 16),
        cut(ip1, case, 17),
        cut(ip2, case, 18),
        cut(floats, case, 19),
        cut(floats, case, 20),
        cut(floats, case, 21),
    )
}

// 01's number of the verdict, 0 where the advance is admitted.
pub fn number_told(case: Case) -> u64 {
    let floats = [0.0; MOST];
    let ip1 = case.pivots(0);
    let ip2 = case.pivots(1);
    match verdict(case, &floats, &ip1, &ip2) {
        Ok(()) => 0,
        Err(refusal) => refusal_number(refusal),
    }
}
