// Guesses at roots, in plain arithmetic on doubles. Nothing rests on them: whoever takes a guess tests it, and
// a bad one only costs time. A guess starts from the pattern b of v, divided by the order, which is the
// logarithm cut to a few digits.
ghost use Rattle.std.specs.Prelude.{◌<◌, ◌≤◌, ◌/◌, ◌^◌};
ghost use Rattle.words.specs.Patterns.{infinity_pattern};

use crate::patterns::{INFINITY, number, pattern};

// Orders 2 to 5: y is the inverse root to four digits, r how far it is off (v * y^m is 1 - r), w * series the root
// to 29 digits, and a step by the tangent doubles them. The series are fits to (1 - r)^(1/m - 1) on r's range.
const THIRD: [f64; 8] = [
    0.999_999_999_967_272_1,
    0.666_666_667_736_782_3,
    0.555_555_655_578_379,
    0.493_826_215_659_810_94,
    0.452_626_685_658_632,
    0.422_687_133_174_813_27,
    0.406_518_400_795_604_3,
    0.372_203_158_339_860_2,
];

const FOURTH: [f64; 8] = [
    0.999_999_999_804_089_4,
    0.750_000_006_628_792,
    0.656_250_407_930_447_3,
    0.601_558_530_694_406_1,
    0.563_830_249_657_843_8,
    0.536_310_119_258_258_8,
    0.527_814_822_937_592_1,
    0.479_993_049_666_199_3,
];

const FIFTH: [f64; 8] = [
    0.999_999_998_725_153_1,
    0.800_000_045_521_438_3,
    0.720_001_713_569_191_7,
    0.671_982_555_695_476_7,
    0.638_031_994_990_906_7,
    0.614_395_711_056_249_6,
    0.618_158_281_303_895_4,
    0.548_255_963_484_277,
];

const SECOND: [f64; 8] = [
    1.000_000_000_722_237_2,
    0.499_999_987_686_855_9,
    0.374_997_229_288_931_1,
    0.312_512_124_481_047,
    0.275_017_717_654_847_8,
    0.244_436_937_131_224_9,
    0.0,
    0.0,
];

// c[0] + c[1] * r + .. + c[7] * r^7, by pairs.
fn series(c: [f64; 8], r: f64) -> f64 {
    let s = r * r;
    c[0] + c[1] * r + (c[2] + c[3] * r) * s + (c[4] + c[5] * r + (c[6] + c[7] * r) * s) * (s * s)
}

// A guess at the root of order M, by the series of that order, and the pattern that is less b / M the inverse root's.
fn fitted<const M: u32>(from: u64, c: [f64; 8], b: u64, v: f64) -> f64
    requires { (0 < M) × (M < 8) × (infinity_pattern / M ≤ from) × (from ≤ infinity_pattern) × (b < infinity_pattern) }
{
    let m = u64::from(M);
    let y = number(from - b / m);
    let p = about_power(m - 1, y);
    let x = v * p * series(c, 1.0 - v * y * p);
    x - (about_power(m, x) - v) * (x * (1.0 / f64::from(M) / v))
}

// About x to the power m, for an m below 32: by squares, where the definition multiplies m times.
#[inline(always)]
fn about_power(m: u64, x: f64) -> f64 {
    let x2 = x * x;
    let x4 = x2 * x2;
    let x8 = x4 * x4;
    let mut p = 1.0;
    if m % 2 == 1 {
        p = x;
    }
    if m / 2 % 2 == 1 {
        p *= x2;
    }
    if m / 4 % 2 == 1 {
        p *= x4;
    }
    if m / 8 % 2 == 1 {
        p *= x8;
    }
    if m / 16 == 1 {
        p *= (x8 * x8);
    }
    p
}

// A guess x at the root of order m of v made better, to five times its digits: a quotient of polynomials in u, how far
// x^m is off. f is m, c is (2 m + 1) (m + 1) / (12 m), and inverse is 1 / v.
fn better(m: u64, v: f64, f: f64, c: f64, inverse: f64, x: f64) -> f64 {
    let u = (about_power(m, x) - v) * inverse;
    x - x * ((u + 0.5 * u * u) / (f + (f + 0.5) * u + c * u * u))
}

// For any order.
fn other(m: u64, b: u64, v: f64) -> f64
    requires { (1 ≤ m) × (m ≤ 17) × (b < infinity_pattern) }
{
    let k = m as u32;
    let f = k as f64;
    let c = (2.0 * f + 1.0) * (f + 1.0) / (12.0 * f);
    let inverse = 1.0 / v;
    let g = 0x3fef_4000_0000_0000 - 0x3fef_4000_0000_0000 / m + b / m;
    if INFINITY < g {
        return 1.0;
    }
    better(m, v, f, c, inverse, better(m, v, f, c, inverse, number(g)))
}

// The pattern of a guess at the root of order m of v, the number with the pattern b.
pub fn root_guess(m: u64, b: u64, v: f64) -> u64
    requires { (1 ≤ m) × (m ≤ 17) × (b < infinity_pattern) }
    ensures { result < infinity_pattern }
{
    pattern(match m {
        3 => fitted::<3>(0x553e_f4c7_9b20_5241, THIRD, b, v),
        4 => fitted::<4>(0x4feb_0f10_8648_2b73, FOURTH, b, v),
        5 => fitted::<5>(0x4cb8_abd6_f191_fd58, FIFTH, b, v),
        _ => other(m, b, v),
    })
}

// A guess at the 53 digits of the square root of the number with the pattern b, less one: so the root that the digits
// are cut from is seldom below it.
pub fn digits_guess(b: u64) -> u64
    requires { b < infinity_pattern }
    ensures { result < 2 ^ 53 }
{
    let guess = fitted::<2>(0x5fe6_f011_1b84_788f, SECOND, b, number(b));
    pattern(guess) % 0x10_0000_0000_0000 + 0xf_ffff_ffff_ffff
}
