// Jump lists: pending jumps threaded through the words' own sBx (rilua's codegen.rs). A list is 0 for none, or k + 1 for the word k.
// Every function is total: a word past the end reads 0, nothing is stored there, and a walk takes at most as many turns as there are words.
#![tactic(auto)]

ghost use Rattle.std.specs.Prelude.{◌≡◌, ◌+◌, ◌-◌, ◌<◌, pos, ◌-ℤ◌, eqb, length, set};
ghost use Rattle.buffers.specs.Lent.{bytes, new, old};
ghost use Rattle.opcodes.specs.OpCodes.{code_of};
ghost use Rattle.opcodes.specs.declared.OpCode.TheVariants.{Test, TestSet};
ghost use Rattle.instructions.specs.Word.{op_of, b_of, c_of, abc_of, excess};
ghost use Rattle.model.specs.Jumps.{word, jump_list as jump_list, behind as behind_of, get_jump_target, patch_jump, last_jump, concat_jumps, linked, get_jump_control, control as control_of, keeps_value, need_value, retest as retest_of, patch_test_reg, remove_values, patch_list_aux};
ghost use Rattle.jumps.specs.Walk.{Fitting, led};

use instructions::{A_SIZE, BX_SIZE, Instruction, MAX_WORDS, NO_REG};
use opcodes::OpCode;

// `get_instruction`: the word at pc.
pub fn word_at(code: &[u32], pc: usize) -> u32
    ensures { word (bytes code) pc ≡ result }
{
    if pc < code.len() { code[pc] } else { 0 }
}

// `set_instruction`: stores w at pc.
pub fn put_word(code: &mut [u32], pc: usize, w: u32)
    ensures { set (old code) pc w ≡ new code }
{
    buffers::put(code, pc, w);
}

// The list behind a list's first jump, whose sBx this is: -1 leads nowhere.
fn behind(list: usize, sbx: i32) -> usize
    requires { Fitting list sbx }
    ensures { behind_of (list - 1) sbx ≡ result }
{
    if sbx == -1 {
        return 0;
    }
    if 0 <= sbx {
        return list + 1 + sbx as usize;
    }
    let back = (-1 - sbx) as usize;
    if list <= back {
        return 0;
    }
    list - back
}

pub fn get_jump_target(code: &[u32], list: usize) -> usize
    ensures { get_jump_target (bytes code) list ≡ result }
{
    if list == 0 {
        return 0;
    }
    let w = Instruction {
        raw: word_at(code, list - 1),
    };
    behind(list, w.sbx())
}

// What sBx has to be for a jump from word pc to word `target`: the difference, of which only what fits the field counts.
fn offset(pc: usize, target: usize) -> i32
    ensures { excess (pos target -ℤ pos (pc + 1)) ≡ excess result }
{
    (target % BX_SIZE) as i32 - (pc % BX_SIZE) as i32 - 1
}

// The list's first jump leads to word `target`.
pub fn patch_jump(code: &mut [u32], list: usize, target: usize)
    ensures { patch_jump (old code) list target ≡ new code }
{
    if list == 0 {
        return;
    }
    let pc = list - 1;
    let w = Instruction {
        raw: word_at(code, pc),
    };
    let patched = w.set_sbx(offset(pc, target));
    put_word(code, pc, patched.raw);
}

// The last jump of a list.
fn last_jump(code: &[u32], list: usize) -> usize
    ensures { last_jump (length (bytes code)) (bytes code) list ≡ result }
{
    let mut l = list;
    for _ in 0..code.len() {
        let next = get_jump_target(code, l);
        if next == 0 {
            return l;
        }
        l = next;
    }
    l
}

// The list of both: l2 hangs on the last jump of l1.
pub fn concat_jumps(code: &mut [u32], l1: usize, l2: usize) -> usize
    ensures { (concat_jumps l1 l2 ≡ result) × (linked (old code) l1 l2 ≡ new code) }
{
    if l2 == 0 {
        return l1;
    }
    if l1 == 0 {
        return l2;
    }
    let last = last_jump(code, l1);
    patch_jump(code, last, l2 - 1);
    l1
}

// The test before the jump at pc, else the jump itself.
pub fn get_jump_control(code: &[u32], pc: usize) -> usize
    ensures { get_jump_control (bytes code) pc ≡ result }
{
    if pc == 0 {
        return 0;
    }
    let prev = Instruction {
        raw: word_at(code, pc - 1),
    };
    if prev.opcode().is_test_mode() {
        return pc - 1;
    }
    pc
}

// The word that controls a list's first jump.
fn control(code: &[u32], list: usize) -> usize
    ensures { control_of (bytes code) list ≡ result }
{
    if list == 0 {
        return 0;
    }
    get_jump_control(code, list - 1)
}

// Whether the word is a `TestSet`.
fn is_test_set(w: u32) -> bool
    ensures { eqb (op_of w) (code_of TestSet) ≡ result }
{
    let i = Instruction { raw: w };
    i.op() == u32::from(OpCode::TestSet)
}

// Whether some jump of the list isn't controlled by a `TestSet`.
pub fn need_value(code: &[u32], list: usize) -> bool
    ensures { need_value (length (bytes code)) (bytes code) list ≡ result }
{
    let mut l = list;
    for _ in 0..code.len() {
        if l == 0 {
            return false;
        }
        if !is_test_set(word_at(code, control(code, l))) {
            return true;
        }
        l = get_jump_target(code, l);
    }
    false
}

// A `TestSet` as a `Test`, which keeps no value.
fn test_only(w: u32) -> u32
    ensures { abc_of Test (b_of w) 0 (c_of w) ≡ result }
{
    let i = Instruction { raw: w };
    Instruction::abc(OpCode::Test, i.b(), 0, i.c()).raw
}

// A `TestSet` with the register for its value, or a `Test` where there is none or it is the tested one.
#[tactic(auto, unfolding(model::specs::Jumps::retest))]
fn retest(reg: usize, w: u32) -> u32
    ensures { retest_of reg w ≡ result }
{
    let i = Instruction { raw: w };
    let own = i.b() as usize;
    if reg == own {
        return test_only(w);
    }
    if reg == NO_REG {
        return test_only(w);
    }
    i.set_a((reg % A_SIZE) as u32).raw
}

// A `TestSet` that controls the list's first jump becomes what `retest` says for `reg`; whether there is one.
pub fn patch_test_reg(code: &mut [u32], list: usize, reg: usize) -> bool
    ensures { (keeps_value (old code) list ≡ result) × (patch_test_reg (old code) list reg ≡ new code) }
{
    let at = control(code, list);
    let w = word_at(code, at);
    if is_test_set(w) {
        put_word(code, at, retest(reg, w));
        return true;
    }
    false
}

// No `TestSet` of the list keeps its value.
pub fn remove_values(code: &mut [u32], list: usize)
    ensures { remove_values (length (old code)) (old code) list ≡ new code }
{
    let mut l = list;
    for _ in 0..code.len() {
        if l == 0 {
            return;
        }
        patch_test_reg(code, l, NO_REG);
        l = get_jump_target(code, l);
    }
}

// The list's first jump leads to `vtarget` and leaves its value in `reg`, or leads to `dtarget` if it has none.
fn patch_first(code: &mut [u32], list: usize, vtarget: usize, reg: usize, dtarget: usize)
    ensures { led (old code) list vtarget reg dtarget ≡ new code }
{
    if patch_test_reg(code, list, reg) {
        patch_jump(code, list, vtarget);
        return;
    }
    patch_jump(code, list, dtarget);
}

// Jumps with a value lead to `vtarget` and leave it in `reg`, the others to `dtarget`.
pub fn patch_list_aux(code: &mut [u32], list: usize, vtarget: usize, reg: usize, dtarget: usize)
    ensures { patch_list_aux (length (old code)) (old code) list vtarget reg dtarget ≡ new code }
{
    let mut l = list;
    for _ in 0..code.len() {
        if l == 0 {
            return;
        }
        let next = get_jump_target(code, l);
        patch_first(code, l, vtarget, reg, dtarget);
        l = next;
    }
}

// The list of the jump at a word; what is no word of any code has none.
pub fn jump_list(pc: usize) -> usize
    ensures { jump_list pc ≡ result }
{
    if pc < MAX_WORDS {
        return pc + 1;
    }
    0
}
