// Doubles: the double of a bit pattern, the floor, and the folding of arithmetic on numerals (document 01, "Lowering"; rilua's `const_fold`).
#![tactic(auto)]

ghost use Rattle.std.specs.Prelude.{◌≡◌};
ghost use Rattle.std.specs.Float.{binary64};
ghost use Rattle.std.specs.Float.Ieee.{nan_bits};
ghost use Rattle.folding.specs.Floor.{floor as floor_of};
ghost use Rattle.folding.specs.Numeral.{numeral_of, folded};
ghost use Rattle.folding.specs.Folding.{fold_of, modulo as modulo_of};

// A numeral: its bits, and beside them the double that they stand for. The bits tell two NaNs apart, which as doubles are one.
#[derive(Clone, Copy)]
pub struct Numeral {
    pub value: f64,
    pub bits: u64,
}

// Whether a pattern is a NaN's: below the sign, more than an infinity's.
fn is_nan_pattern(bits: u64) -> bool
    ensures { nan_bits binary64 bits ≡ result }
{
    bits % 0x8000_0000_0000_0000 > 0x7ff0_0000_0000_0000
}

impl Numeral {
    // The numeral of any pattern, with a NaN for every NaN's.
    #[tactic(auto, using(crate::proofs::Floats::nan_made))]
    pub fn from_bits(bits: u64) -> Numeral
        ensures { numeral_of bits ≡ result }
    {
        if is_nan_pattern(bits) {
            return Numeral {
                value: f64::NAN,
                bits,
            };
        }
        Numeral {
            value: f64::from_bits(bits),
            bits,
        }
    }
}

// The operators that make a number of numbers; Unm has one operand, its first.
#[derive(Clone, Copy, PartialEq, Eq, Debug)]
pub enum Arith {
    Add,
    Sub,
    Mul,
    Div,
    Mod,
    Pow,
    Unm,
}

// The largest whole number that is not above x; x itself where it is a NaN, an infinity or a zero. Worked out here, as document 01 asks ("Forms and where they belong"), and not by the library's `floor`.
pub fn floor(x: f64) -> f64
    ensures { floor_of x ≡ result }
{
    if x < 4503599627370496.0 {
        if x > -4503599627370496.0 {
            if x < 0.0 {
                let y = -x;
                let q = std::num::truncating_f64_to_u64(y);
                if std::num::nearest_u64_to_f64(q) == y {
                    return x;
                }
                return -std::num::nearest_u64_to_f64(q + 1);
            }
            if x > 0.0 {
                return std::num::nearest_u64_to_f64(std::num::truncating_f64_to_u64(x));
            }
        }
    }
    x
}

// a - floor(a / b) * b, each operation rounded once.
fn modulo(a: f64, b: f64) -> f64
    ensures { modulo_of a b ≡ result }
{
    a - floor(a / b) * b
}

// A result, with its bits, unless it is a NaN.
fn result(x: f64) -> Option<Numeral>
    ensures { folded x ≡ result }
{
    if x.is_nan() {
        return None;
    }
    Some(Numeral {
        value: x,
        bits: x.to_bits(),
    })
}

// The numeral that an operation on numerals is folded to, or that it is kept for the run.
#[tactic(auto, unfolding(crate::specs::Folding::fold_of))]
pub fn const_fold(op: Arith, a: f64, b: f64) -> Option<Numeral>
    ensures { fold_of op a b ≡ result }
{
    match op {
        Arith::Add => result(a + b),
        Arith::Sub => result(a - b),
        Arith::Mul => result(a * b),
        Arith::Div => {
            if b == 0.0 { // a / 0 is kept, and a / -0
                return None;
            }
            result(a / b)
        }
        Arith::Mod => {
            if b == 0.0 { // a % 0 is kept, and a % -0
                return None;
            }
            result(modulo(a, b))
        }
        Arith::Pow => None,
        Arith::Unm => result(-a),
    }
}
