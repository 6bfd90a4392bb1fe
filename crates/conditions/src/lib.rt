// Conditional jumps, and `not`: goiftrue, goiffalse and what they call (rilua's codegen.rs). Nothing is assumed of the state.
#![tactic(auto, unfolding(model::specs::Steps::and_then))]

ghost use Rattle.std.specs.Prelude.{◌&&◌, ◌≡◌, ◌-◌};
ghost use Rattle.opcodes.specs.declared.OpCode.TheVariants.{Not};
ghost use Rattle.buffers.specs.Lent.{bytes};
ghost use Rattle.model.specs.declared.ExprKind.TheVariants.{Relocable};
ghost use Rattle.model.specs.Relations.{Does, Makes, Yields};
ghost use Rattle.model.specs.Descriptor.{is_kind};
ghost use Rattle.model.specs.Jumps.{word, is_op, get_jump_control};
ghost use Rattle.model.specs.Conditions.{bit as bit_of, pop, invertjump, jumponcond, jump_if_false, jump_if_true, goiftrue, goiffalse, emit_not, negate, code_not};
ghost use Rattle.conditions.specs.Parts.{relocable, unary, tested};

use discharge::{discharge_vars, discharge2anyreg, set_a_at};
use emission::{emit_abc, emit_jump, get_instruction, patch_to_here};
use instructions::{Instruction, NO_REG};
use jumps::{concat_jumps, get_jump_control, jump_list, put_word, remove_values, word_at};
use model::{ExprContext, ExprKind, FuncState};
use opcodes::OpCode;
use operands::{free_expr, is_kind};
use refusals::Refusal;

// A truth value as a field.
pub fn bit(b: bool) -> usize
    ensures { bit_of b ≡ result }
{
    usize::from(b)
}

// ---- words

// The last word and its line are taken back.
#[tactic(auto, unfolding(model::specs::Conditions::pop))]
pub fn pop(fs: &mut FuncState)
    ensures { Yields pop fs.old tt fs.new }
{
    let last = fs.state.pc.saturating_sub(1);
    put_word(fs.code, last, 0);
    put_word(fs.lines, last, 0);
    fs.state.pc = last;
}

// The test before the jump at a word, else the jump itself. A call of its own that reads the words: read in place, they are lost to the check behind it.
fn control_at(fs: &FuncState, pc: usize) -> usize
    ensures { get_jump_control fs.now.code.now pc ≡ result }
{
    get_jump_control(fs.code, pc)
}

// The comparison before the jump tests for the other answer.
#[tactic(auto, unfolding(model::specs::Steps::and_then, model::specs::Conditions::invertjump))]
pub fn invertjump(fs: &mut FuncState, e: &ExprContext)
    ensures { Yields (invertjump e.now) fs.old tt fs.new }
{
    let at = control_at(fs, e.info);
    let i = get_instruction(fs, at);
    set_a_at(fs.code, at, bit(i.a() == 0));
}

// Whether the value is a word of this opcode that is still to get its register. It asks for the words alone, shared.
pub fn is_relocable(code: &[u32], e: &ExprContext, op: OpCode) -> bool
    ensures { (is_kind Relocable e.now && is_op op (word (bytes code) e.now.info)) ≡ result }
{
    if !is_kind(e, ExprKind::Relocable) {
        return false;
    }
    let i = Instruction {
        raw: word_at(code, e.info),
    };
    i.op() == u32::from(op)
}

// .. of a state's words. A call of its own, as `control_at`.
fn is_not(fs: &FuncState, e: &ExprContext) -> bool
    ensures { (is_kind Relocable e.now && is_op Not (word fs.now.code.now e.now.info)) ≡ result }
{
    is_relocable(fs.code, e, OpCode::Not)
}

// A word whose register is still to be set.
pub fn emit_relocable(
    fs: &mut FuncState,
    e: &mut ExprContext,
    op: OpCode,
    b: usize,
    c: usize,
) -> Result<(), Refusal>
    ensures { Makes (relocable op b c e.old) fs.old result fs.new e.new }
{
    e.info = emit_abc(fs, op, 0, b, c)?;
    e.kind = ExprKind::Relocable;
    Ok(())
}

// The word of a unary operator, whose operand's register is free again.
pub fn emit_unary(fs: &mut FuncState, e: &mut ExprContext, op: OpCode) -> Result<(), Refusal>
    ensures { Makes (unary op e.old) fs.old result fs.new e.new }
{
    free_expr(fs, e);
    let b = e.info;
    emit_relocable(fs, e, op, b, 0)
}

// A test, and the jump that it decides on.
pub fn emit_test(
    fs: &mut FuncState,
    op: OpCode,
    a: usize,
    b: usize,
    c: usize,
) -> Result<usize, Refusal>
    ensures { Does (tested op a b c) fs.old result fs.new }
{
    emit_abc(fs, op, a, b, c)?;
    emit_jump(fs)
}

// ---- jumps by a value's truth

// The list of the jump that is taken where the value's truth is cond. A `Not` that is still to get its register is taken back, and the other truth is tested.
#[tactic(auto, unfolding(model::specs::Steps::and_then, model::specs::Conditions::jumponcond))]
pub fn jumponcond(fs: &mut FuncState, e: &ExprContext, cond: bool) -> Result<usize, Refusal>
    ensures { Does (jumponcond e.now cond) fs.old result fs.new }
{
    if is_not(fs, e) {
        let i = get_instruction(fs, e.info);
        pop(fs);
        return emit_test(fs, OpCode::Test, i.b() as usize, 0, bit(!cond));
    }
    let mut d = *e;
    discharge2anyreg(fs, &mut d)?;
    free_expr(fs, &d);
    emit_test(fs, OpCode::TestSet, NO_REG, d.info, bit(cond))
}

// The jump that a false value takes; none where the value is true. This and `jump_if_true` are two, as what follows them: their cases differ kind by kind.
#[tactic(auto, unfolding(model::specs::Steps::and_then, model::specs::Conditions::jump_if_false))]
fn jump_if_false(fs: &mut FuncState, e: &ExprContext) -> Result<usize, Refusal>
    ensures { Does (jump_if_false e.now.kind e.now) fs.old result fs.new }
{
    match e.kind {
        ExprKind::True | ExprKind::K | ExprKind::KNum => Ok(0),
        ExprKind::False => emit_jump(fs),
        ExprKind::Jmp => {
            invertjump(fs, e);
            Ok(jump_list(e.info))
        }
        _ => jumponcond(fs, e, false),
    }
}

// The jump that a true value takes; none where the value is false.
#[tactic(auto, unfolding(model::specs::Steps::and_then, model::specs::Conditions::jump_if_true))]
fn jump_if_true(fs: &mut FuncState, e: &ExprContext) -> Result<usize, Refusal>
    ensures { Does (jump_if_true e.now.kind e.now) fs.old result fs.new }
{
    match e.kind {
        ExprKind::Nil | ExprKind::False => Ok(0),
        ExprKind::True => emit_jump(fs),
        ExprKind::Jmp => Ok(jump_list(e.info)),
        _ => jumponcond(fs, e, true),
    }
}

// Goes on if true, and jumps to the false list if not. This and `goiffalse` are two, as in the Rust: one function with a flag for the list and the jump would be no plainer.
#[tactic(auto, unfolding(model::specs::Steps::and_then, model::specs::Conditions::goiftrue, model::specs::Emission::concat))]
pub fn goiftrue(fs: &mut FuncState, e: &mut ExprContext) -> Result<(), Refusal>
    ensures { Makes (goiftrue e.old) fs.old result fs.new e.new }
{
    discharge_vars(fs, e)?;
    let list = jump_if_false(fs, e)?;
    e.f = concat_jumps(fs.code, e.f, list);
    patch_to_here(fs, e.t);
    e.t = 0;
    Ok(())
}

// Goes on if false, and jumps to the true list if not.
#[tactic(auto, unfolding(model::specs::Steps::and_then, model::specs::Conditions::goiffalse, model::specs::Emission::concat))]
pub fn goiffalse(fs: &mut FuncState, e: &mut ExprContext) -> Result<(), Refusal>
    ensures { Makes (goiffalse e.old) fs.old result fs.new e.new }
{
    discharge_vars(fs, e)?;
    let list = jump_if_true(fs, e)?;
    e.t = concat_jumps(fs.code, e.t, list);
    patch_to_here(fs, e.f);
    e.f = 0;
    Ok(())
}

// ---- not

#[tactic(auto, unfolding(model::specs::Steps::and_then, model::specs::Conditions::emit_not))]
fn emit_not(fs: &mut FuncState, e: &mut ExprContext) -> Result<(), Refusal>
    ensures { Makes (emit_not e.old) fs.old result fs.new e.new }
{
    discharge2anyreg(fs, e)?;
    emit_unary(fs, e, OpCode::Not)
}

// The negated value.
#[tactic(auto, unfolding(model::specs::Steps::and_then, model::specs::Conditions::negate))]
fn negate(fs: &mut FuncState, e: &mut ExprContext) -> Result<(), Refusal>
    ensures { Makes (negate e.old.kind e.old) fs.old result fs.new e.new }
{
    match e.kind {
        ExprKind::Nil | ExprKind::False => e.kind = ExprKind::True,
        ExprKind::True | ExprKind::K | ExprKind::KNum => e.kind = ExprKind::False,
        ExprKind::Jmp => invertjump(fs, e),
        ExprKind::Relocable | ExprKind::NonReloc => {
            return emit_not(fs, e);
        }
        _ => {}
    }
    Ok(())
}

// The lists change places, and none of their jumps brings a value any more.
#[tactic(auto, unfolding(model::specs::Steps::and_then, model::specs::Conditions::code_not))]
pub fn code_not(fs: &mut FuncState, e: &mut ExprContext) -> Result<(), Refusal>
    ensures { Makes (code_not e.old) fs.old result fs.new e.new }
{
    discharge_vars(fs, e)?;
    negate(fs, e)?;
    remove_values(fs.code, e.t);
    remove_values(fs.code, e.f);
    (e.t, e.f) = (e.f, e.t);
    Ok(())
}
