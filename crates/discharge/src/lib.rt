// Discharging: a descriptor becomes a value, a register or an RK operand, in place. The middle part of rilua's codegen.rs. Nothing is assumed of the state.
#![tactic(auto, unfolding(model::specs::Steps::and_then))]

ghost use Rattle.std.specs.Prelude.{[], ◌≡◌, set};
ghost use Rattle.buffers.specs.Lent.{new, old};
ghost use Rattle.instructions.specs.Word.{set_a_of, set_b_of, set_c_of};
ghost use Rattle.model.specs.Relations.{Does, Makes, Yields};
ghost use Rattle.model.specs.Jumps.{word};
ghost use Rattle.model.specs.Emission.{add_constant};
ghost use Rattle.model.specs.Discharge.{discharge_vars, number_constant, load_kind, discharge2reg, discharge2anyreg, land as land_of, load_both, settle as settle_of, join_jump, exp2reg, exp2nextreg, exp2anyreg, exp2val, small, near as near_of, rk_kind, exp2rk};
ghost use Rattle.discharge.specs.Kinds.{over_of, lacks_value};

use constants::Val;
use emission::{
    add_constant, alloc_reg, code_label, emit_abc, emit_abx, emit_jump, emit_nil, free_reg,
    get_instruction, get_label, patch_to_here,
};
use instructions::{A_SIZE, Instruction};
use jumps::{concat_jumps, jump_list, need_value, patch_list_aux, put_word, word_at};
use model::{ExprContext, ExprKind, FuncState};
use opcodes::OpCode;
use operands::{fits_rk, free_expr, is_kind};
use refusals::Refusal;

// ---- a word's field in place: three setters, as `Instruction` has; one function that takes the setter as a closure would be no plainer, since each call would have to state it

#[tactic(auto, using(instructions::specs::Laws::set_a_mod))]
pub fn set_a_at(code: &mut [u32], pc: usize, a: usize)
    ensures { set (old code) pc (set_a_of (word (old code) pc) a) ≡ new code }
{
    let i = Instruction {
        raw: word_at(code, pc),
    };
    put_word(code, pc, i.set_a((a % A_SIZE) as u32).raw);
}

pub fn set_b_at(code: &mut [u32], pc: usize, b: u32)
    ensures { set (old code) pc (set_b_of (word (old code) pc) b) ≡ new code }
{
    let i = Instruction {
        raw: word_at(code, pc),
    };
    put_word(code, pc, i.set_b(b).raw);
}

pub fn set_c_at(code: &mut [u32], pc: usize, c: u32)
    ensures { set (old code) pc (set_c_of (word (old code) pc) c) ≡ new code }
{
    let i = Instruction {
        raw: word_at(code, pc),
    };
    put_word(code, pc, i.set_c(c).raw);
}

// ---- values

// A variable, an indexed value, a call or a vararg becomes a value.
#[tactic(auto, unfolding(model::specs::Steps::and_then, model::specs::Discharge::discharge_kind))]
pub fn discharge_vars(fs: &mut FuncState, e: &mut ExprContext) -> Result<(), Refusal>
    ensures { Makes (discharge_vars e.old) fs.old result fs.new e.new }
{
    match e.kind {
        ExprKind::Local => e.kind = ExprKind::NonReloc,
        ExprKind::Global => {
            e.info = emit_abx(fs, OpCode::GetGlobal, 0, e.info)?;
            e.kind = ExprKind::Relocable;
        }
        ExprKind::Indexed => {
            free_reg(fs, e.aux);
            free_reg(fs, e.info);
            e.info = emit_abc(fs, OpCode::GetTable, 0, e.info, e.aux)?;
            e.kind = ExprKind::Relocable;
        }
        ExprKind::Call => {
            set_c_at(fs.code, e.info, 2);
            e.info = get_instruction(fs, e.info).a() as usize;
            e.kind = ExprKind::NonReloc;
        }
        ExprKind::VarArg => {
            set_b_at(fs.code, e.info, 2);
            e.kind = ExprKind::Relocable;
        }
        _ => {}
    }
    Ok(())
}

pub fn number_constant(fs: &mut FuncState, e: &ExprContext) -> Result<usize, Refusal>
    ensures { Does (number_constant e.now) fs.old result fs.new }
{
    let v = Val::Num {
        value: e.nval,
        bits: e.bits,
    };
    add_constant(fs, b"", v)
}

// ---- to a register

// A value goes to a register.
#[tactic(auto, unfolding(model::specs::Steps::and_then, model::specs::Discharge::load_kind))]
fn load_kind(fs: &mut FuncState, e: &mut ExprContext, reg: usize) -> Result<(), Refusal>
    ensures { Makes (load_kind e.old.kind e.old reg) fs.old result fs.new e.new }
{
    match e.kind {
        ExprKind::Nil => {
            emit_nil(fs, reg)?;
        }
        ExprKind::True => {
            emit_abc(fs, OpCode::LoadBool, reg, 1, 0)?;
        }
        ExprKind::False => {
            emit_abc(fs, OpCode::LoadBool, reg, 0, 0)?;
        }
        ExprKind::K => {
            emit_abx(fs, OpCode::LoadK, reg, e.info)?;
        }
        ExprKind::KNum => {
            let k = number_constant(fs, e)?;
            emit_abx(fs, OpCode::LoadK, reg, k)?;
        }
        ExprKind::Relocable => set_a_at(fs.code, e.info, reg),
        ExprKind::NonReloc => {
            if reg != e.info {
                emit_abc(fs, OpCode::Move, reg, e.info, 0)?;
            }
        }
        _ => {
            return Ok(());
        }
    }
    e.kind = ExprKind::NonReloc;
    e.info = reg;
    Ok(())
}

#[tactic(auto, unfolding(model::specs::Steps::and_then, model::specs::Discharge::discharge2reg))]
pub fn discharge2reg(fs: &mut FuncState, e: &mut ExprContext, reg: usize) -> Result<(), Refusal>
    ensures { Makes (discharge2reg e.old reg) fs.old result fs.new e.new }
{
    discharge_vars(fs, e)?;
    load_kind(fs, e, reg)
}

#[tactic(auto, unfolding(model::specs::Steps::and_then, model::specs::Discharge::discharge2anyreg))]
pub fn discharge2anyreg(fs: &mut FuncState, e: &mut ExprContext) -> Result<(), Refusal>
    ensures { Makes (discharge2anyreg e.old) fs.old result fs.new e.new }
{
    if is_kind(e, ExprKind::NonReloc) {
        return Ok(());
    }
    let reg = alloc_reg(fs)?;
    discharge2reg(fs, e, reg)
}

// ---- jumps that bring a value

// The jumps of both lists land: those with a value at `last`, those without at `off` or `on`.
#[tactic(auto, unfolding(model::specs::Steps::and_then, model::specs::Discharge::land))]
fn land(fs: &mut FuncState, e: &ExprContext, reg: usize, last: usize, off: usize, on: usize)
    ensures { Yields (land_of e.now reg last off on) fs.old tt fs.new }
{
    patch_list_aux(fs.code, e.f, last, reg, off);
    patch_list_aux(fs.code, e.t, last, reg, on);
}

// The jump over both loads, for a value that falls through.
fn jump_over(fs: &mut FuncState, e: &ExprContext) -> Result<usize, Refusal>
    ensures { Does (over_of e.now) fs.old result fs.new }
{
    if is_kind(e, ExprKind::Jmp) {
        return Ok(0);
    }
    emit_jump(fs)
}

// The loads of false and of true.
#[tactic(auto, unfolding(model::specs::Steps::and_then, model::specs::Discharge::load_both))]
fn load_both(fs: &mut FuncState, e: &ExprContext, reg: usize) -> Result<(), Refusal>
    ensures { Does (load_both e.now reg) fs.old result fs.new }
{
    let over = jump_over(fs, e)?;
    let off = code_label(fs, reg, 0, 1)?;
    let on = code_label(fs, reg, 1, 0)?;
    patch_to_here(fs, over);
    let last = get_label(fs);
    land(fs, e, reg, last, off, on);
    Ok(())
}

// Whether some jump of either list brings no value.
fn lacks_value(fs: &FuncState, e: &ExprContext) -> bool
    ensures { lacks_value e.now fs.now.code.now ≡ result }
{
    need_value(fs.code, e.t) || need_value(fs.code, e.f)
}

// Loads of false and true where some jump brings no value, and all jumps land.
#[tactic(auto, unfolding(model::specs::Steps::and_then, model::specs::Discharge::settle))]
fn settle(fs: &mut FuncState, e: &ExprContext, reg: usize) -> Result<(), Refusal>
    ensures { Does (settle_of e.now reg) fs.old result fs.new }
{
    if lacks_value(fs, e) {
        return load_both(fs, e, reg);
    }
    let here = get_label(fs);
    land(fs, e, reg, here, here, here);
    Ok(())
}

// A comparison's own jump joins the true list.
#[tactic(auto, unfolding(model::specs::Steps::and_then, model::specs::Discharge::join_jump, model::specs::Emission::concat))]
fn join_jump(fs: &mut FuncState, e: &mut ExprContext)
    ensures { Yields (join_jump e.old) fs.old e.new fs.new }
{
    if is_kind(e, ExprKind::Jmp) {
        e.t = concat_jumps(fs.code, e.t, jump_list(e.info));
    }
}

// The value and those that jumps bring are in the register.
#[tactic(auto, unfolding(model::specs::Steps::and_then, model::specs::Discharge::exp2reg))]
pub fn exp2reg(fs: &mut FuncState, e: &mut ExprContext, reg: usize) -> Result<(), Refusal>
    ensures { Makes (exp2reg e.old reg) fs.old result fs.new e.new }
{
    discharge2reg(fs, e, reg)?;
    join_jump(fs, e);
    if e.has_jumps() {
        settle(fs, e, reg)?;
    }
    e.kind = ExprKind::NonReloc;
    e.info = reg;
    e.t = 0;
    e.f = 0;
    Ok(())
}

#[tactic(auto, unfolding(model::specs::Steps::and_then, model::specs::Discharge::exp2nextreg))]
pub fn exp2nextreg(fs: &mut FuncState, e: &mut ExprContext) -> Result<(), Refusal>
    ensures { Makes (exp2nextreg e.old) fs.old result fs.new e.new }
{
    discharge_vars(fs, e)?;
    free_expr(fs, e);
    let reg = alloc_reg(fs)?;
    exp2reg(fs, e, reg)
}

// The register is then the descriptor's info.
#[tactic(auto, unfolding(model::specs::Steps::and_then, model::specs::Discharge::exp2anyreg))]
pub fn exp2anyreg(fs: &mut FuncState, e: &mut ExprContext) -> Result<(), Refusal>
    ensures { Makes (exp2anyreg e.old) fs.old result fs.new e.new }
{
    discharge_vars(fs, e)?;
    if is_kind(e, ExprKind::NonReloc) {
        if !e.has_jumps() {
            return Ok(());
        }
        if fs.state.active <= e.info {
            return exp2reg(fs, e, e.info);
        }
    }
    exp2nextreg(fs, e)
}

#[tactic(auto, unfolding(model::specs::Discharge::exp2val))]
pub fn exp2val(fs: &mut FuncState, e: &mut ExprContext) -> Result<(), Refusal>
    ensures { Makes (exp2val e.old) fs.old result fs.new e.new }
{
    if e.has_jumps() {
        return exp2anyreg(fs, e);
    }
    discharge_vars(fs, e)
}

// ---- as an operand

// Nil, true or false as a constant, only while the table has at most 255 entries.
#[tactic(auto, unfolding(model::specs::Steps::and_then, model::specs::Discharge::small))]
fn small(fs: &mut FuncState, e: &mut ExprContext, v: Val) -> Result<(), Refusal>
    ensures { Makes (small e.old (add_constant [] v)) fs.old result fs.new e.new }
{
    if fits_rk(fs.state.table.count) {
        e.info = add_constant(fs, b"", v)?;
        e.kind = ExprKind::K;
        return Ok(());
    }
    exp2anyreg(fs, e)
}

// A constant above 255 goes to a register.
#[tactic(auto, unfolding(model::specs::Discharge::near))]
fn near(fs: &mut FuncState, e: &mut ExprContext, k: usize) -> Result<(), Refusal>
    ensures { Makes (near_of e.old k) fs.old result fs.new e.new }
{
    if fits_rk(k) {
        e.kind = ExprKind::K;
        e.info = k;
        return Ok(());
    }
    exp2anyreg(fs, e)
}

// A value as an operand.
#[tactic(auto, unfolding(model::specs::Steps::and_then, model::specs::Discharge::rk_kind))]
fn rk_kind(fs: &mut FuncState, e: &mut ExprContext) -> Result<(), Refusal>
    ensures { Makes (rk_kind e.old.kind e.old) fs.old result fs.new e.new }
{
    match e.kind {
        ExprKind::Nil => small(fs, e, Val::Nil),
        ExprKind::True => small(fs, e, Val::Bool(true)),
        ExprKind::False => small(fs, e, Val::Bool(false)),
        ExprKind::K => near(fs, e, e.info),
        ExprKind::KNum => {
            let k = number_constant(fs, e)?;
            near(fs, e, k)
        }
        _ => exp2anyreg(fs, e),
    }
}

// A constant up to 255, or a register.
#[tactic(auto, unfolding(model::specs::Steps::and_then, model::specs::Discharge::exp2rk))]
pub fn exp2rk(fs: &mut FuncState, e: &mut ExprContext) -> Result<(), Refusal>
    ensures { Makes (exp2rk e.old) fs.old result fs.new e.new }
{
    exp2val(fs, e)?;
    rk_kind(fs, e)
}
