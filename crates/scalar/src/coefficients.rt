// The coefficients of the three-stage Radau IIA method, copied from radau.rs:816-846, and the table of them all.
ghost use Rattle.std.specs.Prelude.{◌≡◌};
ghost use Rattle.scalar.specs.Coefficients.{entry_of};
ghost use Rattle.scalar.specs.Exact.{RightAt};

pub const C1: f64 = 0.155_051_025_721_682_2;

pub const C2: f64 = 0.644_948_974_278_317_8;

pub const C1M1: f64 = -0.844_948_974_278_317_8;

pub const C2M1: f64 = -0.355_051_025_721_682_2;

pub const C1MC2: f64 = -0.489_897_948_556_635_6;

pub const DD1: f64 = -10.048_809_399_827_416;

pub const DD2: f64 = 1.382_142_733_160_749;

pub const DD3: f64 = -0.333_333_333_333_333_3;

pub const U1: f64 = 3.637_834_252_744_496;

pub const ALPH: f64 = 2.681_082_873_627_752_3;

pub const BETA: f64 = 3.050_430_199_247_410_5;

// Transformation matrix
pub const T00: f64 = 9.123_239_487_089_295E-2;

pub const T01: f64 = -1.412_552_950_209_542E-1;

pub const T02: f64 = -3.002_919_410_514_742_4E-2;

pub const T10: f64 = 2.417_179_327_071_07E-1;

pub const T11: f64 = 2.041_293_522_937_999_4E-1;

pub const T12: f64 = 3.829_421_127_572_619E-1;

pub const T20: f64 = 9.660_481_826_150_93E-1;

// Inverse transformation matrix
pub const TI00: f64 = 4.325_579_890_063_155;

pub const TI01: f64 = 3.391_992_518_158_098_4E-1;

pub const TI02: f64 = 5.417_705_399_358_749E-1;

pub const TI10: f64 = -4.178_718_591_551_905;

pub const TI11: f64 = -3.276_828_207_610_623_7E-1;

pub const TI12: f64 = 4.766_235_545_005_504_4E-1;

pub const TI20: f64 = -5.028_726_349_457_868E-1;

pub const TI21: f64 = 2.571_926_949_855_605;

pub const TI22: f64 = -5.960_392_048_282_249E-1;

const TABLE: [f64; 27] = [
    C1, C2, C1M1, C2M1, C1MC2, DD1, DD2, DD3, U1, ALPH, BETA, T00, T01, T02, T10, T11, T12, T20,
    TI00, TI01, TI02, TI10, TI11, TI12, TI20, TI21, TI22,
];

// Entry k of the table, in the order of the text, from 0 on. Its exact number lies where 01 says: strictly between the
// neighbours of the double.
pub fn coefficient(k: usize) -> Option<f64>
    ensures { (result ≡ entry_of k) × RightAt k result }
{
    TABLE.get(k).copied()
}
