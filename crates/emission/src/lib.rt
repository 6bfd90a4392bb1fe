// Emitting words, listing constants and taking registers: the lower part of rilua's codegen.rs. Nothing is assumed of the state.
#![tactic(auto, unfolding(model::specs::Steps::and_then))]

ghost use Rattle.std.specs.Prelude.{◌≡◌, set};
ghost use Rattle.buffers.specs.Lent.{bytes};
ghost use Rattle.instructions.specs.Word.{abc_of};
ghost use Rattle.model.specs.Relations.{Does, Yields};
ghost use Rattle.model.specs.Steps.{change_words};
ghost use Rattle.model.specs.Jumps.{word};
ghost use Rattle.model.specs.Emission.{discharge_jpc, push as push_of, emit_at, emit as emit_of, emit_abc, emit_abx, emit_jump, patch_to_here, get_label, code_label, adjoins as adjoins_of, load_nil, emit_nil, check_stack, reserve_regs, alloc_reg, free_reg, add_constant};

use constants::Val;
use instructions::{A_SIZE, B_SIZE, BITRK, BX_SIZE, Instruction, MAX_WORDS, MAXSTACK, NO_REG};
use jumps::{concat_jumps, patch_list_aux, put_word, remove_values, word_at};
use model::FuncState;
use opcodes::OpCode;
use refusals::Refusal;

// ---- words

pub fn get_instruction(fs: &FuncState, pc: usize) -> Instruction
    ensures { word fs.now.code.now pc ≡ result.raw }
{
    Instruction {
        raw: word_at(fs.code, pc),
    }
}

pub fn set_instruction(fs: &mut FuncState, pc: usize, i: Instruction)
    ensures { Yields (change_words (λ code. set code pc i.raw)) fs.old tt fs.new }
{
    put_word(fs.code, pc, i.raw);
}

// The pending jumps lead to the word to come. Mostly there are none, and then no call is made.
#[tactic(auto, using(jumps::specs::Walk::aux_end), unfolding(model::specs::Steps::and_then, model::specs::Emission::discharge_jpc))]
fn discharge_jpc(fs: &mut FuncState)
    ensures { Yields discharge_jpc fs.old tt fs.new }
{
    let pc = fs.state.pc;
    if fs.state.jpc != 0 {
        patch_list_aux(fs.code, fs.state.jpc, pc, NO_REG, pc);
        fs.state.jpc = 0;
    }
}

// A word and its line behind the others, or refusal 13.
#[tactic(auto, unfolding(model::specs::Emission::push))]
fn push(fs: &mut FuncState, w: u32, line: u32) -> Result<usize, Refusal>
    ensures { Does (push_of w line) fs.old result fs.new }
{
    let pc = fs.state.pc;
    if fs.code.len() <= pc || fs.lines.len() <= pc || MAX_WORDS <= pc {
        return Err(Refusal::Words);
    }
    fs.code[pc] = w;
    fs.lines[pc] = line;
    fs.state.pc = pc + 1;
    Ok(pc)
}

// `emit`, at a line: where the word is.
#[tactic(auto, unfolding(model::specs::Steps::and_then, model::specs::Emission::emit_at))]
pub fn emit_at(fs: &mut FuncState, w: u32, line: u32) -> Result<usize, Refusal>
    ensures { Does (emit_at w line) fs.old result fs.new }
{
    discharge_jpc(fs);
    push(fs, w, line)
}

// `emit` on the current line.
#[tactic(auto, unfolding(model::specs::Steps::and_then, model::specs::Emission::emit))]
pub fn emit(fs: &mut FuncState, w: u32) -> Result<usize, Refusal>
    ensures { Does (emit_of w) fs.old result fs.new }
{
    let line = fs.state.line;
    emit_at(fs, w, line)
}

// Of each operand what fits its field.
#[tactic(auto, using(instructions::specs::Laws::abc_mod))]
pub fn abc(op: OpCode, a: usize, b: usize, c: usize) -> Instruction
    ensures { abc_of op a b c ≡ result.raw }
{
    Instruction::abc(
        op,
        (a % A_SIZE) as u32,
        (b % B_SIZE) as u32,
        (c % B_SIZE) as u32,
    )
}

pub fn emit_abc(
    fs: &mut FuncState,
    op: OpCode,
    a: usize,
    b: usize,
    c: usize,
) -> Result<usize, Refusal>
    ensures { Does (emit_abc op a b c) fs.old result fs.new }
{
    emit(fs, abc(op, a, b, c).raw)
}

#[tactic(auto, using(instructions::specs::Laws::a_bx_mod))]
pub fn emit_abx(fs: &mut FuncState, op: OpCode, a: usize, bx: usize) -> Result<usize, Refusal>
    ensures { Does (emit_abx op a bx) fs.old result fs.new }
{
    let i = Instruction::a_bx(op, (a % A_SIZE) as u32, (bx % BX_SIZE) as u32);
    emit(fs, i.raw)
}

// A list of the new jump and the pending ones, which it takes over; their `TestSet` become `Test` first (difference 1).
#[tactic(auto, using(crate::specs::Laws::emit_lt), unfolding(model::specs::Steps::and_then, model::specs::Emission::emit_jump, model::specs::Emission::concat))]
pub fn emit_jump(fs: &mut FuncState) -> Result<usize, Refusal>
    ensures { Does emit_jump fs.old result fs.new }
{
    let jpc = fs.state.jpc;
    remove_values(fs.code, jpc);
    fs.state.jpc = 0;
    let pc = emit(fs, Instruction::a_sbx(OpCode::Jmp, 0, -1).raw)?;
    Ok(concat_jumps(fs.code, pc + 1, jpc))
}

// The list's jumps lead to the word to come.
#[tactic(auto, unfolding(model::specs::Steps::and_then, model::specs::Emission::patch_to_here, model::specs::Emission::concat))]
pub fn patch_to_here(fs: &mut FuncState, list: usize)
    ensures { Yields (patch_to_here list) fs.old tt fs.new }
{
    fs.state.jpc = concat_jumps(fs.code, fs.state.jpc, list);
}

// The word to come, recorded as a label; at a place above 131,071, which no code reaches, nothing is recorded.
#[tactic(auto, unfolding(model::specs::Steps::and_then, model::specs::Emission::get_label))]
pub fn get_label(fs: &mut FuncState) -> usize
    ensures { Yields get_label fs.old result fs.new }
{
    let pc = fs.state.pc;
    if pc <= MAX_WORDS {
        fs.state.label = pc + 1;
    }
    pc
}

#[tactic(auto, unfolding(model::specs::Steps::and_then, model::specs::Emission::code_label))]
pub fn code_label(fs: &mut FuncState, reg: usize, b: usize, jump: usize) -> Result<usize, Refusal>
    ensures { Does (code_label reg b jump) fs.old result fs.new }
{
    get_label(fs);
    emit_abc(fs, OpCode::LoadBool, reg, b, jump)
}

// Whether a word is a `LoadNil` that reaches or adjoins the register.
fn adjoins(w: u32, from: usize) -> bool
    ensures { adjoins_of w from ≡ result }
{
    let i = Instruction { raw: w };
    i.op() == u32::from(OpCode::LoadNil) && i.a() as usize <= from && from <= i.b() as usize + 1
}

#[tactic(auto, unfolding(model::specs::Steps::and_then, model::specs::Emission::load_nil))]
fn load_nil(fs: &mut FuncState, reg: usize) -> Result<(), Refusal>
    ensures { Does (load_nil reg) fs.old result fs.new }
{
    emit_abc(fs, OpCode::LoadNil, reg, reg, 0)?;
    Ok(())
}

// `emit_nil` for one register: nothing at word 0, where all registers above the locals are nil; an adjoining `LoadNil` is lengthened; both unless a label lies at the word to come.
#[tactic(auto, using(instructions::specs::Laws::set_b_mod, crate::specs::Laws::nil_labelled, crate::specs::Laws::nil_start, crate::specs::Laws::nil_apart, crate::specs::Laws::nil_within, crate::specs::Laws::nil_longer))]
pub fn emit_nil(fs: &mut FuncState, from: usize) -> Result<(), Refusal>
    ensures { Does (emit_nil from) fs.old result fs.new }
{
    let pc = fs.state.pc;
    if pc < fs.state.label {
        return load_nil(fs, from);
    }
    if pc == 0 {
        return Ok(());
    }
    let last = get_instruction(fs, pc - 1);
    if adjoins(last.raw, from) {
        if (last.b() as usize) < from {
            set_instruction(fs, pc - 1, last.set_b((from % B_SIZE) as u32));
        }
        return Ok(());
    }
    load_nil(fs, from)
}

// ---- constants

// The index of a constant; a text's bytes stand in the chunk.
#[tactic(auto, unfolding(model::specs::Steps::and_then, model::specs::Emission::add_constant))]
pub fn add_constant(fs: &mut FuncState, chunk: &[u8], v: Val) -> Result<usize, Refusal>
    ensures { Does (add_constant (bytes chunk) v) fs.old result fs.new }
{
    let (k, table) = constants::add_constant(
        fs.kinds,
        fs.values,
        fs.pool,
        chunk,
        fs.state.table,
        v,
    )?;
    fs.state.table = table;
    Ok(k)
}

// ---- registers

// Refusal 10 above 250 registers.
#[tactic(auto, using(crate::specs::Laws::check_refused, crate::specs::Laws::check_higher, crate::specs::Laws::check_same))]
pub fn check_stack(fs: &mut FuncState, n: usize) -> Result<(), Refusal>
    ensures { Does (check_stack n) fs.old result fs.new }
{
    if MAXSTACK < n || MAXSTACK - n < fs.state.free {
        return Err(Refusal::Registers);
    }
    let top = fs.state.free + n;
    if fs.state.frame < top {
        fs.state.frame = top;
    }
    Ok(())
}

#[tactic(auto, using(crate::specs::Laws::check_fits), unfolding(model::specs::Steps::and_then, model::specs::Emission::reserve_regs))]
pub fn reserve_regs(fs: &mut FuncState, n: usize) -> Result<(), Refusal>
    ensures { Does (reserve_regs n) fs.old result fs.new }
{
    check_stack(fs, n)?;
    fs.state.free += n;
    Ok(())
}

#[tactic(auto, unfolding(model::specs::Steps::and_then, model::specs::Emission::alloc_reg))]
pub fn alloc_reg(fs: &mut FuncState) -> Result<usize, Refusal>
    ensures { Does alloc_reg fs.old result fs.new }
{
    let reg = fs.state.free;
    reserve_regs(fs, 1)?;
    Ok(reg)
}

// A register is free again: the topmost temporary only.
#[tactic(auto, unfolding(model::specs::Steps::and_then, model::specs::Emission::free_reg))]
pub fn free_reg(fs: &mut FuncState, r: usize)
    ensures { Yields (free_reg r) fs.old tt fs.new }
{
    let state = fs.state;
    if state.active <= r && r < BITRK && r + 1 == state.free {
        fs.state.free = r;
    }
}
