// Operators: infix, postfix and prefix, with folding, arithmetic, comparisons and concatenation (rilua's codegen.rs). Nothing is assumed of the state.
// Of two operands the left one becomes the result; the right one is used up.
#![tactic(auto, unfolding(model::specs::Steps::and_then))]

ghost use Rattle.std.specs.Prelude.{◌≡◌, ◌&&◌, ℕ, List};
ghost use Rattle.opcodes.specs.declared.OpCode.TheVariants.{Concat};
ghost use Rattle.model.specs.declared.ExprKind.TheVariants.{Relocable};
ghost use Rattle.model.specs.Descriptor.{is_kind};
ghost use Rattle.model.specs.Jumps.{word, is_op};
ghost use Rattle.model.specs.Relations.{Does, Makes, Yields, bufs_of};
ghost use Rattle.model.specs.Steps.{bufs, done};
ghost use Rattle.model.specs.Operators.{arith_op, const_fold, code_arith, code_unary, code_concat, is_far, far_numeral, either as either_of, emit_comp, code_comp, operand as operand_of, before_right, code_and, code_or, join_concat, after_right, code_unop};

use ast::{BinOp, UnOp};
use conditions::{
    bit, code_not, emit_relocable, emit_test, emit_unary, goiffalse, goiftrue, is_relocable,
};
use constants::find_numeral;
use discharge::{discharge_vars, exp2anyreg, exp2nextreg, exp2rk, exp2val, set_b_at};
use folding::{Arith, Numeral};
use instructions::{B_SIZE, MAXINDEXRK};
use jumps::concat_jumps;
use model::{ExprContext, ExprKind, FuncState, State};
use opcodes::OpCode;
use operands::{Operation, free_both, free_expr, rk};
use refusals::Refusal;

// ---- folding

// Of numerals without jumps.
fn const_fold(op: Arith, e1: &ExprContext, e2: &ExprContext) -> Option<Numeral>
    ensures { const_fold op e1.now e2.now ≡ result }
{
    if e1.is_numeral() && e2.is_numeral() {
        return folding::const_fold(op, e1.nval, e2.nval);
    }
    None
}

// ---- arithmetic

fn arith_op(op: Arith) -> OpCode
    ensures { arith_op op ≡ result }
{
    match op {
        Arith::Add => OpCode::Add,
        Arith::Sub => OpCode::Sub,
        Arith::Mul => OpCode::Mul,
        Arith::Div => OpCode::Div,
        Arith::Mod => OpCode::Mod,
        Arith::Pow => OpCode::Pow,
        Arith::Unm => OpCode::Unm,
    }
}

// For + - * / % ^. The right operand goes to RK first.
#[tactic(auto, unfolding(model::specs::Steps::and_then, model::specs::Operators::code_arith, model::specs::Operators::emit_arith))]
pub fn code_arith(
    fs: &mut FuncState,
    op: Arith,
    e1: &mut ExprContext,
    e2: &mut ExprContext,
) -> Result<(), Refusal>
    ensures { Makes (code_arith op e1.old e2.old) fs.old result fs.new e1.new }
{
    if let Some(n) = const_fold(op, e1, e2) {
        e1.nval = n.value;
        e1.bits = n.bits;
        return Ok(());
    }
    exp2rk(fs, e2)?;
    exp2rk(fs, e1)?;
    free_both(fs, e1, e2);
    let b = rk(e1);
    emit_relocable(fs, e1, arith_op(op), b, rk(e2))
}

// For a unary operator, whose operand is a register.
#[tactic(auto, unfolding(model::specs::Steps::and_then, model::specs::Operators::code_unary))]
pub fn code_unary(fs: &mut FuncState, op: OpCode, e: &mut ExprContext) -> Result<(), Refusal>
    ensures { Makes (code_unary op e.old) fs.old result fs.new e.new }
{
    exp2anyreg(fs, e)?;
    emit_unary(fs, e, op)
}

// For `Concat`, whose operands are registers one above the other.
#[tactic(auto, unfolding(model::specs::Steps::and_then, model::specs::Operators::code_concat))]
pub fn code_concat(
    fs: &mut FuncState,
    e1: &mut ExprContext,
    e2: &mut ExprContext,
) -> Result<(), Refusal>
    ensures { Makes (code_concat e1.old e2.old) fs.old result fs.new e1.new }
{
    exp2nextreg(fs, e2)?;
    exp2anyreg(fs, e1)?;
    free_expr(fs, e2);
    free_expr(fs, e1);
    let b = e1.info;
    emit_relocable(fs, e1, OpCode::Concat, b, e2.info)
}

// ---- comparisons

// No RK operand can name an entry above 255, nor the next one of a table with 256.
fn is_far(found: Option<usize>, count: usize) -> bool
    ensures { is_far found count ≡ result }
{
    match found {
        Some(k) => MAXINDEXRK < k,
        None => MAXINDEXRK < count,
    }
}

// A numeral that is listed above 255, or unlisted with 256 entries or more (difference 2). It asks for kinds and values alone, shared.
#[tactic(auto, unfolding(model::specs::Operators::far_numeral))]
pub fn far_numeral(kinds: &[u8], values: &[u64], st: &State, e: &ExprContext) -> bool
    ensures { (code lines pool : List ℕ) → far_numeral e.now st.now (bufs code lines kinds.now values.now pool) ≡ done result st.now (bufs code lines kinds.now values.now pool) }
{
    let count = st.table.count;
    e.is_numeral() && is_far(find_numeral(kinds, values, count, e.bits), count)
}

// .. by a state's constants. A call of its own, as `control_at` of conditions.
fn is_far_operand(fs: &FuncState, e: &ExprContext) -> bool
    ensures { far_numeral e.now fs.now.state (bufs_of fs.now) ≡ done result fs.now.state (bufs_of fs.now) }
{
    far_numeral(fs.kinds, fs.values, &fs.state, e)
}

// The second where they change places.
fn either(swapped: bool, b: usize, c: usize) -> usize
    ensures { either_of swapped b c ≡ result }
{
    if swapped { c } else { b }
}

// The comparison of two RK operands, and its jump.
#[tactic(auto, unfolding(model::specs::Steps::and_then, model::specs::Operators::emit_comp))]
fn emit_comp(
    fs: &mut FuncState,
    op: OpCode,
    cond: bool,
    swapped: bool,
    e1: &mut ExprContext,
    e2: &ExprContext,
) -> Result<(), Refusal>
    ensures { Makes (emit_comp op cond swapped e1.old e2.now) fs.old result fs.new e1.new }
{
    free_both(fs, e1, e2);
    let x = rk(e1);
    let y = rk(e2);
    let list = emit_test(
        fs,
        op,
        bit(cond),
        either(swapped, x, y),
        either(swapped, y, x),
    )?;
    e1.kind = ExprKind::Jmp;
    e1.info = list.saturating_sub(1);
    e1.t = 0;
    e1.f = 0;
    Ok(())
}

// The left operand goes to RK first, unless it is a far numeral (difference 2).
#[tactic(auto, unfolding(model::specs::Steps::and_then, model::specs::Operators::code_comp, model::specs::Operators::compare_operands))]
pub fn code_comp(
    fs: &mut FuncState,
    op: OpCode,
    cond: bool,
    swapped: bool,
    e1: &mut ExprContext,
    e2: &mut ExprContext,
) -> Result<(), Refusal>
    ensures { Makes (code_comp op cond swapped e1.old e2.old) fs.old result fs.new e1.new }
{
    if is_far_operand(fs, e1) {
        exp2rk(fs, e2)?;
        exp2rk(fs, e1)?;
        return emit_comp(fs, op, cond, swapped, e1, e2);
    }
    exp2rk(fs, e1)?;
    exp2rk(fs, e2)?;
    emit_comp(fs, op, cond, swapped, e1, e2)
}

// ---- before and after the right operand

// An operand of arithmetic or of a comparison: a numeral stays as it is.
#[tactic(auto, unfolding(model::specs::Operators::operand))]
fn operand(fs: &mut FuncState, e: &mut ExprContext) -> Result<(), Refusal>
    ensures { Makes (operand_of e.old) fs.old result fs.new e.new }
{
    if e.is_numeral() {
        return Ok(());
    }
    exp2rk(fs, e)
}

#[tactic(auto, unfolding(model::specs::Operators::before_right))]
pub fn infix(fs: &mut FuncState, op: BinOp, e: &mut ExprContext) -> Result<(), Refusal>
    ensures { Makes (before_right op e.old) fs.old result fs.new e.new }
{
    match op {
        BinOp::And => goiftrue(fs, e),
        BinOp::Or => goiffalse(fs, e),
        BinOp::Concat => exp2nextreg(fs, e),
        _ => operand(fs, e),
    }
}

// The right value, with the jumps of the left. This and `code_or` are two, as in the Rust: one function that takes the list would be no plainer.
#[tactic(auto, unfolding(model::specs::Steps::and_then, model::specs::Operators::code_and, model::specs::Emission::concat))]
fn code_and(fs: &mut FuncState, e1: &mut ExprContext, e2: &mut ExprContext) -> Result<(), Refusal>
    ensures { Makes (code_and e1.old e2.old) fs.old result fs.new e1.new }
{
    discharge_vars(fs, e2)?;
    e2.f = concat_jumps(fs.code, e2.f, e1.f);
    *e1 = *e2;
    Ok(())
}

#[tactic(auto, unfolding(model::specs::Steps::and_then, model::specs::Operators::code_or, model::specs::Emission::concat))]
fn code_or(fs: &mut FuncState, e1: &mut ExprContext, e2: &mut ExprContext) -> Result<(), Refusal>
    ensures { Makes (code_or e1.old e2.old) fs.old result fs.new e1.new }
{
    discharge_vars(fs, e2)?;
    e2.t = concat_jumps(fs.code, e2.t, e1.t);
    *e1 = *e2;
    Ok(())
}

// Whether the value is a `Concat` that is still to get its register.
fn is_concat(fs: &FuncState, e: &ExprContext) -> bool
    ensures { (is_kind Relocable e.now && is_op Concat (word fs.now.code.now e.now.info)) ≡ result }
{
    is_relocable(fs.code, e, OpCode::Concat)
}

// A concatenation on the right is lengthened to the left; another value goes to the next register.
#[tactic(auto, using(instructions::specs::Laws::set_b_mod), unfolding(model::specs::Steps::and_then, model::specs::Operators::join_concat))]
fn join_concat(
    fs: &mut FuncState,
    e1: &mut ExprContext,
    e2: &mut ExprContext,
) -> Result<(), Refusal>
    ensures { Makes (join_concat e1.old e2.old) fs.old result fs.new e1.new }
{
    exp2val(fs, e2)?;
    if is_concat(fs, e2) {
        free_expr(fs, e1);
        set_b_at(fs.code, e2.info, (e1.info % B_SIZE) as u32);
        e1.kind = ExprKind::Relocable;
        e1.info = e2.info;
        return Ok(());
    }
    exp2nextreg(fs, e2)?;
    code_concat(fs, e1, e2)
}

#[tactic(auto, unfolding(model::specs::Operators::after_right))]
pub fn postfix(
    fs: &mut FuncState,
    op: BinOp,
    e1: &mut ExprContext,
    e2: &mut ExprContext,
) -> Result<(), Refusal>
    ensures { Makes (after_right op e1.old e2.old) fs.old result fs.new e1.new }
{
    match Operation::from(op) {
        Operation::And => code_and(fs, e1, e2),
        Operation::Or => code_or(fs, e1, e2),
        Operation::Concat => join_concat(fs, e1, e2),
        Operation::Arithmetic(a) => code_arith(fs, a, e1, e2),
        Operation::Comparison(o, cond, swapped) => code_comp(fs, o, cond, swapped, e1, e2),
    }
}

// ---- unary operators

// A negated numeral is folded, unless it is a NaN. The operand of `Len` is a register, and that of `Unm` too (difference 6).
#[tactic(auto, unfolding(model::specs::Operators::code_unop))]
pub fn prefix(fs: &mut FuncState, op: UnOp, e: &mut ExprContext) -> Result<(), Refusal>
    ensures { Makes (code_unop op e.old) fs.old result fs.new e.new }
{
    match op {
        UnOp::Not => code_not(fs, e),
        UnOp::Len => code_unary(fs, OpCode::Len, e),
        UnOp::Neg => {
            if let Some(n) = const_fold(Arith::Unm, e, &ExprContext::new(ExprKind::KNum, 0)) {
                e.nval = n.value;
                e.bits = n.bits;
                return Ok(());
            }
            code_unary(fs, OpCode::Unm, e)
        }
    }
}
