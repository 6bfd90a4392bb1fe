// Code words: opcode in bits 0-5, A in 6-13, C in 14-22, B in 23-31, Bx in 14-31; sBx is Bx less 131,071 (rilua's instructions.rs).
#![tactic(auto)]

ghost use Rattle.std.specs.Prelude.{◌≡◌, ◌*◌, ◌/◌, ◌^◌, ◌<◌};
ghost use Rattle.instructions.specs.Field.{get_at, set_at};
ghost use Rattle.instructions.specs.Word.{op_of, opcode_of, a_of, b_of, c_of, bx_of, sbx_of, set_a_of, set_b_of, set_c_of, excess as excess_of, set_sbx_of, abc_of, a_bx_of, a_sbx_of};

use opcodes::OpCode;

// ---- limits of the word layout and of the machine, by their names in instructions.rs where it has them (the definitions have all from specs/Limits.antt)

// How many values A has; B, and C too; Bx. The lowering cuts operands to these, for a cast must be shown to fit.
pub const A_SIZE: usize = 256;

pub const B_SIZE: usize = 512;

pub const BX_SIZE: usize = 262144;

// An RK operand below this is a register, else the constant RK - 256.
pub const BITRK: usize = 256;

// The last constant that an RK operand can name.
pub const MAXINDEXRK: usize = BITRK - 1;

// Stands for no register.
pub const NO_REG: usize = 255;

// The most registers of a frame.
pub const MAXSTACK: usize = 250;

// The largest Bx.
pub const MAXARG_BX: usize = BX_SIZE - 1;

// sBx is Bx less this.
pub const MAXARG_SBX: usize = MAXARG_BX / 2;

// The most entries of a constant table, so that Bx can name each (document 01, refusal 11).
pub const MAX_CONSTANTS: usize = MAXARG_BX + 1;

// The most words of a code, so that every jump fits sBx (document 01, refusal 13).
pub const MAX_WORDS: usize = MAXARG_SBX;

// ---- words

// The field of `size` values at the place value `place`.
#[tactic(auto, unfolding(crate::specs::Field::get_at))]
fn field(x: u32, place: u32, size: u32) -> u32
    requires { (0 < place) × (0 < size) }
    ensures { get_at place size x ≡ result }
{
    x / place % size
}

// The number with that field set to `v`, of which only what fits the field counts.
fn with_field(x: u32, place: u32, size: u32, v: u32) -> u32
    requires { (0 < place) × (0 < size) × (2 ^ 32 / (place * size) * size * place ≡ 2 ^ 32) }
    ensures { set_at place size x v ≡ result }
{
    (x / place / size * size + v % size) * place + x % place
}

// v + 131,071 modulo the field of Bx. 2 ^ 31, a multiple of it, is added too, so that no sum is negative.
fn excess(v: i32) -> u32
    ensures { excess_of v ≡ result }
{
    let n = (v as i64) + 2147614719;
    ((n as u64) % 262144) as u32
}

#[derive(Clone, Copy, PartialEq, Eq, Debug)]
pub struct Instruction {
    pub raw: u32,
}

impl Instruction {
    #[tactic(auto, unfolding(crate::specs::Word::abc_of))]
    pub fn abc(op: OpCode, a: u32, b: u32, c: u32) -> Self
        ensures { abc_of op a b c ≡ result.raw }
    {
        Self {
            raw: u32::from(op) + a % 256 * 64 + c % 512 * 16384 + b % 512 * 8388608,
        }
    }

    #[tactic(auto, unfolding(crate::specs::Word::a_bx_of))]
    pub fn a_bx(op: OpCode, a: u32, bx: u32) -> Self
        ensures { a_bx_of op a bx ≡ result.raw }
    {
        Self {
            raw: u32::from(op) + a % 256 * 64 + bx % 262144 * 16384,
        }
    }

    pub fn a_sbx(op: OpCode, a: u32, sbx: i32) -> Self
        ensures { a_sbx_of op a sbx ≡ result.raw }
    {
        Self::a_bx(op, a, excess(sbx))
    }

    pub fn opcode(self) -> OpCode
        ensures { opcode_of self.raw ≡ result }
    {
        OpCode::from(field(self.raw, 1, 64))
    }

    // The opcode field as a number, 0 to 63.
    pub fn op(self) -> u32
        ensures { op_of self.raw ≡ result }
    {
        field(self.raw, 1, 64)
    }

    pub fn a(self) -> u32
        ensures { a_of self.raw ≡ result }
    {
        field(self.raw, 64, 256)
    }

    pub fn b(self) -> u32
        ensures { b_of self.raw ≡ result }
    {
        field(self.raw, 8388608, 512)
    }

    pub fn c(self) -> u32
        ensures { c_of self.raw ≡ result }
    {
        field(self.raw, 16384, 512)
    }

    pub fn bx(self) -> u32
        ensures { bx_of self.raw ≡ result }
    {
        field(self.raw, 16384, 262144)
    }

    pub fn sbx(self) -> i32
        ensures { sbx_of self.raw ≡ result }
    {
        let b = self.bx();
        (b as i32) - 131071
    }

    pub fn set_a(self, a: u32) -> Self
        ensures { set_a_of self.raw a ≡ result.raw }
    {
        Self {
            raw: with_field(self.raw, 64, 256, a),
        }
    }

    pub fn set_b(self, b: u32) -> Self
        ensures { set_b_of self.raw b ≡ result.raw }
    {
        Self {
            raw: with_field(self.raw, 8388608, 512, b),
        }
    }

    pub fn set_c(self, c: u32) -> Self
        ensures { set_c_of self.raw c ≡ result.raw }
    {
        Self {
            raw: with_field(self.raw, 16384, 512, c),
        }
    }

    pub fn set_sbx(self, sbx: i32) -> Self
        ensures { set_sbx_of self.raw sbx ≡ result.raw }
    {
        Self {
            raw: with_field(self.raw, 16384, 262144, excess(sbx)),
        }
    }
}
