// Operands: the kind of a descriptor, a value as an RK operand, registers that are free again, and of what sort an operator is (rilua's codegen.rs).
// Nothing is assumed of the state.
#![tactic(auto)]

ghost use Rattle.std.specs.Prelude.{◌≡◌, leb};
ghost use Rattle.instructions.specs.Limits.{max_index_rk};
ghost use Rattle.model.specs.Relations.{Yields};
ghost use Rattle.model.specs.Descriptor.{is_kind};
ghost use Rattle.model.specs.Discharge.{free_expr, rk as rk_of};
ghost use Rattle.model.specs.Operators.{free_both};
ghost use Rattle.operands.specs.Operations.{operation_of};

use ast::BinOp;
use emission::free_reg;
use folding::Arith;
use instructions::{BITRK, MAXINDEXRK};
use model::{ExprContext, ExprKind, FuncState};
use opcodes::OpCode;

// ---- kinds

// A function, since the definitions ask by `is_kind` and the edit kinds_up_to is made on it.
pub fn is_kind(e: &ExprContext, kind: ExprKind) -> bool
    ensures { is_kind kind e.now ≡ result }
{
    e.kind == kind
}

// ---- RK operands

// Whether an RK operand can name the constant at an index.
pub fn fits_rk(k: usize) -> bool
    ensures { leb k max_index_rk ≡ result }
{
    k <= MAXINDEXRK
}

// The operand that a register or a constant is.
pub fn rk(e: &ExprContext) -> usize
    ensures { rk_of e.now ≡ result }
{
    if is_kind(e, ExprKind::K) {
        return e.info % BITRK + BITRK;
    }
    e.info
}

// ---- registers

// The register of a value in one is free again.
#[tactic(auto, unfolding(model::specs::Discharge::free_expr, model::specs::Steps::and_then))]
pub fn free_expr(fs: &mut FuncState, e: &ExprContext)
    ensures { Yields (free_expr e.now) fs.old tt fs.new }
{
    if is_kind(e, ExprKind::NonReloc) {
        free_reg(fs, e.info);
    }
}

// Two operands are freed, the higher register first (difference 2).
#[tactic(auto, unfolding(model::specs::Operators::free_both, model::specs::Operators::free_in_turn, model::specs::Steps::and_then))]
pub fn free_both(fs: &mut FuncState, e1: &ExprContext, e2: &ExprContext)
    ensures { Yields (free_both e1.now e2.now) fs.old tt fs.new }
{
    if rk(e2) < rk(e1) {
        free_expr(fs, e1);
        free_expr(fs, e2);
    } else {
        free_expr(fs, e2);
        free_expr(fs, e1);
    }
}

// ---- operators

// `and`, `or`, `..`, arithmetic, or a comparison: its opcode, the answer for which its jump is taken, and whether the operands change places, one by one as the definitions of comparisons take them.
#[derive(Clone, Copy)]
pub enum Operation {
    And,
    Or,
    Concat,
    Arithmetic(Arith),
    Comparison(OpCode, bool, bool),
}

// a > b is b < a, and a >= b is b <= a.
impl From<BinOp> for Operation {
    ghost from_gives = { λ op sort. operation_of op ≡ sort };

    fn from(op: BinOp) -> Operation {
        match op {
            BinOp::Add => Operation::Arithmetic(Arith::Add),
            BinOp::Sub => Operation::Arithmetic(Arith::Sub),
            BinOp::Mul => Operation::Arithmetic(Arith::Mul),
            BinOp::Div => Operation::Arithmetic(Arith::Div),
            BinOp::Mod => Operation::Arithmetic(Arith::Mod),
            BinOp::Pow => Operation::Arithmetic(Arith::Pow),
            BinOp::Concat => Operation::Concat,
            BinOp::Lt => Operation::Comparison(OpCode::Lt, true, false),
            BinOp::Le => Operation::Comparison(OpCode::Le, true, false),
            BinOp::Gt => Operation::Comparison(OpCode::Lt, true, true),
            BinOp::Ge => Operation::Comparison(OpCode::Le, true, true),
            BinOp::Eq => Operation::Comparison(OpCode::Eq, true, false),
            BinOp::Ne => Operation::Comparison(OpCode::Eq, false, false),
            BinOp::And => Operation::And,
            BinOp::Or => Operation::Or,
        }
    }
}
