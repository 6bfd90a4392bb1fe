// Single steps of the lowering on prepared states: a line for each, with its label, what was answered, and the words that then stand there.
// A line is read thus: what the step gives (a number, or a descriptor with its info and its lists t and f), pc, free, the table's count, the words.
#![tactic(auto)]

use conditions::{code_not, goiffalse, goiftrue};
use constants::Table;
use discharge::{exp2reg, exp2rk};
use emission::{emit_at, emit_jump, emit_nil};
use folding::{Arith, Numeral};
use jumps::{concat_jumps, get_jump_target, patch_jump, patch_list_aux};
use model::{ExprContext, ExprKind, FuncState, State};
use opcodes::OpCode;
use operands::is_kind;
use operators::{code_arith, code_comp};
use refusals::Refusal;

// The bits of some doubles.
const ZERO: u64 = 0;

const ONE: u64 = 0x3ff0_0000_0000_0000;

const ONE_AND_HALF: u64 = 0x3ff8_0000_0000_0000;

const TWO: u64 = 0x4000_0000_0000_0000;

// ---- what is printed

fn print(text: &[u8]) {
    io::write_all(1, text);
}

fn print_number(n: u64) {
    io::print_decimal(1, n);
}

fn print_size(label: &[u8], n: usize) {
    print(label);
    print_number(n as u64);
}

// The first n, or all of them.
fn print_words(label: &[u8], words: &[u32], n: usize) {
    print(label);
    for word in words.iter().take(n) {
        print(b" ");
        print_number(u64::from(*word));
    }
}

fn print_refusal(k: Refusal) {
    print(b"refused ");
    print_number(u64::from(u32::from(k)));
}

fn print_state(s: State) {
    let table = s.table;
    print_size(b", pc ", s.pc);
    print_size(b", free ", s.free);
    print_size(b", count ", table.count);
}

// The kinds that steps here give. By hand: a derived `Debug` would name the others too, which here are one.
fn print_kind(kind: ExprKind) {
    match kind {
        ExprKind::False => print(b"False"),
        ExprKind::K => print(b"K"),
        ExprKind::KNum => print(b"KNum"),
        ExprKind::Jmp => print(b"Jmp"),
        ExprKind::Relocable => print(b"Relocable"),
        ExprKind::NonReloc => print(b"NonReloc"),
        _ => print(b"another"),
    }
}

fn print_descriptor(e: &ExprContext) {
    print_kind(e.kind);
    print_size(b" ", e.info);
    print_size(b" t ", e.t);
    print_size(b" f ", e.f);
    if is_kind(e, ExprKind::KNum) {
        print(b" bits ");
        print_number(e.bits);
    }
}

// The first n of the table's entries, or all of them.
fn print_constants(kinds: &[u8], values: &[u64], n: usize) {
    for (i, (kind, value)) in kinds.iter().zip(values).enumerate().take(n) {
        print_size(b"  constant ", i);
        print(b": kind ");
        print_number(u64::from(*kind));
        print(b", value ");
        print_number(*value);
        print(b"\n");
    }
}

// ---- a step and its line

// What a step gave that lists no constant, and the first n words and lines, whatever the answer.
fn show_emission<F: FnOnce(&mut FuncState) -> Result<usize, Refusal>>(
    label: &[u8],
    code: &mut [u32],
    lines: &mut [u32],
    before: State,
    n: usize,
    step: F,
)
    requires { F.IsAlwaysCallable step }
{
    let mut fs = FuncState {
        code,
        lines,
        kinds: &mut [],
        values: &mut [],
        pool: &mut [],
        state: before,
    };
    print(label);
    print(b": ");
    match step(&mut fs) {
        Ok(given) => {
            print_size(b"done ", given);
            print_state(fs.state);
        }
        Err(k) => print_refusal(k),
    }
    print_words(b", words", fs.code, n);
    print_words(b", lines", fs.lines, n);
    print(b"\n");
}

// The descriptor, the state and all words, and then the first `listed` constants or all that there are.
fn print_made(fs: &FuncState, e: &ExprContext, listed: usize) {
    let s = fs.state;
    let table = s.table;
    print_descriptor(e);
    print_state(s);
    print_words(b", words", fs.code, s.pc);
    print(b"\n");
    print_constants(fs.kinds, fs.values, listed.min(table.count));
}

// What a step made of a descriptor, behind the words that are given. There is room for 300 constants.
fn show_behind<F: FnOnce(&mut FuncState, &mut ExprContext) -> Result<(), Refusal>>(
    label: &[u8],
    mut code: [u32; 4],
    before: State,
    mut e: ExprContext,
    listed: usize,
    step: F,
)
    requires { F.IsAlwaysCallable step }
{
    let mut fs = FuncState {
        code: &mut code,
        lines: &mut [0; 4],
        kinds: &mut [0; 300],
        values: &mut [0; 300],
        pool: &mut [0; 4],
        state: before,
    };
    print(label);
    print(b": ");
    match step(&mut fs, &mut e) {
        Ok(()) => print_made(&fs, &e, listed),
        Err(k) => {
            print_refusal(k);
            print(b"\n");
        }
    }
}

// Behind no words, with no constant listed.
fn show_step<F: FnOnce(&mut FuncState, &mut ExprContext) -> Result<(), Refusal>>(
    label: &[u8],
    before: State,
    e: ExprContext,
    step: F,
)
    requires { F.IsAlwaysCallable step }
{
    show_behind(label, [0; 4], before, e, 0, step);
}

// ---- what the steps start from

// On line 7, with register 0 a local: so many words, free registers from `free` on, and constants.
fn state(pc: usize, free: usize, count: usize, jpc: usize, label: usize) -> State {
    let table = Table { count, used: 0 };
    State {
        at: 0,
        line: 7,
        pc,
        table,
        active: 1,
        free,
        frame: free,
        jpc,
        label,
    }
}

fn start(free: usize, count: usize) -> State {
    state(0, free, count, 0, 0)
}

fn number(bits: u64) -> ExprContext {
    ExprContext::number(Numeral::from_bits(bits))
}

fn register(r: usize) -> ExprContext {
    ExprContext::new(ExprKind::NonReloc, r)
}

fn jump(pc: usize) -> ExprContext {
    ExprContext::new(ExprKind::Jmp, pc)
}

fn relocable(pc: usize) -> ExprContext {
    ExprContext::new(ExprKind::Relocable, pc)
}

fn plain(kind: ExprKind) -> ExprContext {
    ExprContext::new(kind, 0)
}

// ---- emission

// Move 1 2, LoadBool 3 1 0 and Not 0 1 0 on the lines 3, 4 and 5.
fn three_words(label: &[u8], code: &mut [u32], lines: &mut [u32]) {
    show_emission(label, code, lines, start(4, 0), 4, |fs| {
        emit_at(fs, 16777280, 3)?;
        emit_at(fs, 8388802, 4)?;
        emit_at(fs, 8388627, 5)
    });
}

// The third word is refused with 13 where the words or the lines have two places; what was emitted before stays.
fn rooms() {
    three_words(b"three words", &mut [0; 4], &mut [0; 4]);
    three_words(b"room for two words", &mut [0; 2], &mut [0; 4]);
    three_words(b"room for two lines", &mut [0; 4], &mut [0; 2]);
}

// A pending jump, word 0, leads to the word that is emitted: Jmp 0 and then Move 1 2.
fn pending_jump() {
    show_emission(
        b"a pending jump",
        &mut [2147450902, 0, 0, 0],
        &mut [7, 0, 0, 0],
        state(1, 4, 0, 1, 0),
        2,
        |fs| emit_at(fs, 16777280, 8),
    );
}

// A new jump takes the pending one over: Jmp -1, and then Jmp -2, which leads to the word 0.
fn jump_over_pending() {
    show_emission(
        b"a jump behind a pending one",
        &mut [2147450902, 0, 0, 0],
        &mut [7, 0, 0, 0],
        state(1, 4, 0, 1, 0),
        2,
        emit_jump,
    );
}

// Nil for two registers, with `pc` words, the first being w, and the last label.
fn two_nils(label: &[u8], w: u32, pc: usize, last: usize, from: usize, next: usize) {
    show_emission(
        label,
        &mut [w, 0, 0, 0],
        &mut [7, 0, 0, 0],
        state(pc, 4, 0, 0, last),
        3,
        |fs| {
            emit_nil(fs, from)?;
            emit_nil(fs, next)?;
            Ok(0)
        },
    );
}

// Behind Move 1 2: one word for adjacent registers, LoadNil 2 3, or for one, LoadNil 2 2; two for others, LoadNil 2 2 and LoadNil 4 4; none at word 0, where all
// registers above the locals are nil. LoadNil 1 1 is lengthened to LoadNil 1 3, but not where word 1 has a label: LoadNil 2 3.
fn nils() {
    two_nils(b"nil to 2 and 3", 16777280, 1, 0, 2, 3);
    two_nils(b"nil to 2 and 2", 16777280, 1, 0, 2, 2);
    two_nils(b"nil to 2 and 4", 16777280, 1, 0, 2, 4);
    two_nils(b"nil to 2 and 3 at word 0", 0, 0, 0, 2, 3);
    two_nils(b"nil to 2 and 3 behind nil to 1", 8388675, 1, 0, 2, 3);
    two_nils(b"nil to 2 and 3 at a label", 8388675, 1, 2, 2, 3);
}

fn emissions() {
    rooms();
    pending_jump();
    jump_over_pending();
    nils();
}

// ---- jump lists

// Words 0, 2 and 4 are Jmp -1, word 1 is TestSet 255 3 1 and word 3 Move 1 2.
const JUMPS: [u32; 6] = [2147450902, 25198555, 2147450902, 16777280, 2147450902, 0];

fn print_list(label: &[u8], list: usize, code: &[u32]) {
    print(label);
    print_size(b": list ", list);
    print_words(b", words", code, 6);
    print(b"\n");
}

// What is behind each jump of the list.
fn print_targets(code: &[u32]) {
    print_size(b"behind list 1: list ", get_jump_target(code, 1));
    print_size(b", behind 3: list ", get_jump_target(code, 3));
    print_size(b", behind 5: list ", get_jump_target(code, 5));
    print(b"\n");
}

// Jmp 1 hangs the word 2 on the word 0, and then Jmp 1 the word 4 on the word 2: the last jump of the list.
fn joined() {
    let mut code = JUMPS;
    print_list(b"three jumps", 0, &code);
    let first = concat_jumps(&mut code, 1, 3);
    print_list(b"1 and 3 joined", first, &code);
    let second = concat_jumps(&mut code, first, 5);
    print_list(b"and 5", second, &code);
    print_targets(&code);
}

// The jumps of a list land: that behind the TestSet leads to the word 7 with its value, the others to 5.
fn landed(label: &[u8], reg: usize) {
    let mut code = JUMPS;
    let list = concat_jumps(&mut code, 1, 3);
    let all = concat_jumps(&mut code, list, 5);
    patch_list_aux(&mut code, all, 7, reg, 5);
    print_list(label, all, &code);
}

// Jmp -3 from the word 4 leads to the word 2.
fn patch_one() {
    let mut code = JUMPS;
    patch_jump(&mut code, 5, 2);
    print_list(b"5 led to word 2", 5, &code);
}

// TestSet 6 3 1, where the value goes to register 6; Test 3 0 1, which keeps none, where there is no register for it or it is there already.
fn jump_lists() {
    joined();
    landed(b"landed in register 6", 6);
    landed(b"landed in none", 255);
    landed(b"landed in its own register 3", 3);
    patch_one();
}

// ---- discharge

// Behind `pc` words, of which the first two are given.
fn in_register(label: &[u8], w0: u32, w1: u32, pc: usize, e: ExprContext, reg: usize) {
    let before = state(pc, 4, 0, 0, 0);
    show_behind(
        label,
        [w0, w1, 0, 0],
        before,
        e,
        1,
        |fs, e| exp2reg(fs, e, reg),
    );
}

// LoadK 2 0, with the constant of kind 3; LoadBool 3 1 0; Move 2 1; nothing where the value is there.
// A comparison, Eq 1 1 2 and its jump, gets its value in register 2: Jmp 1 leads to LoadBool 2 1 0, the word 3, which LoadBool 2 0 1 before it skips.
fn registers() {
    in_register(b"1.5 in 2", 0, 0, 0, number(ONE_AND_HALF), 2);
    in_register(b"true in 3", 0, 0, 0, plain(ExprKind::True), 3);
    in_register(b"register 1 in 2", 0, 0, 0, register(1), 2);
    in_register(b"register 2 in 2", 0, 0, 0, register(2), 2);
    in_register(b"a comparison in 2", 8421463, 2147450902, 2, jump(1), 2);
}

fn as_operand(label: &[u8], e: ExprContext, count: usize) {
    show_step(label, start(4, count), e, exp2rk);
}

// All entries are nil, and there is room for 300: a number more is refused with 11. The constant 255 is an operand; the constant 256 goes to register 4, LoadK 4 256.
// True behind 256 entries goes there without being listed, LoadBool 4 1 0. Nil behind 255 is found as the constant 0; behind 256 it goes to register 4 although it is listed, and at word 0 no word is needed for that.
fn as_operands() {
    as_operand(b"1.5 behind 255 entries", number(ONE_AND_HALF), 255);
    as_operand(b"1.5 behind 256 entries", number(ONE_AND_HALF), 256);
    as_operand(b"1.5 behind 300 entries", number(ONE_AND_HALF), 300);
    as_operand(b"true behind 255 entries", plain(ExprKind::True), 255);
    as_operand(b"true behind 256 entries", plain(ExprKind::True), 256);
    as_operand(b"nil behind 255 entries", plain(ExprKind::Nil), 255);
    as_operand(b"nil behind 256 entries", plain(ExprKind::Nil), 256);
}

// ---- operators

fn arith(label: &[u8], op: Arith, e1: ExprContext, mut e2: ExprContext) {
    show_step(
        label,
        start(4, 0),
        e1,
        |fs, e| code_arith(fs, op, e, &mut e2),
    );
}

// 1 + 2 is the number 3, without a word. Add 0 256 3 and Sub 0 3 256, and register 3 is free again. 1 / 0 is kept for the run: Div 0 257 256, as the right operand
// is listed first. Mul 0 2 3, and both registers are free again.
fn arithmetic() {
    arith(b"1 + 2", Arith::Add, number(ONE), number(TWO));
    arith(b"1 + register 3", Arith::Add, number(ONE), register(3));
    arith(b"register 3 - 1", Arith::Sub, register(3), number(ONE));
    arith(b"1 / 0", Arith::Div, number(ONE), number(ZERO));
    arith(
        b"register 2 * register 3",
        Arith::Mul,
        register(2),
        register(3),
    );
}

fn comp(label: &[u8], count: usize, swapped: bool, e1: ExprContext, mut e2: ExprContext) {
    show_step(label, start(4, count), e1, |fs, e| {
        code_comp(fs, OpCode::Lt, true, swapped, e, &mut e2)
    });
}

// Lt 1 2 3 and its jump, or Lt 1 3 2 where they change places, and both registers are free again. Lt 1 256 3 with the constant 0.
// Behind 256 entries the number goes to register 4: LoadK 4 256, Lt 1 4 3, and both registers are free again.
fn comparisons() {
    comp(
        b"register 2 < register 3",
        0,
        false,
        register(2),
        register(3),
    );
    comp(
        b"register 2 > register 3",
        0,
        true,
        register(2),
        register(3),
    );
    comp(b"1 < register 3", 0, false, number(ONE), register(3));
    comp(
        b"1 < register 3, 256 entries",
        256,
        false,
        number(ONE),
        register(3),
    );
}

// ---- conditional jumps

// TestSet 255 3 0 (255: no register yet) and its jump, the word 1, as list f; TestSet 255 3 1 and list t. Nothing for a number, which is true; Jmp -1 alone for false.
// Not 0 3 0, and register 3 is free again; not true is false. Behind Not 0 3 0 that word is taken back: Test 3 0 1 and its jump.
fn conditional() {
    show_step(b"if register 3", start(4, 0), register(3), goiftrue);
    show_step(b"if 1", start(4, 0), number(ONE), goiftrue);
    show_step(b"if false", start(4, 0), plain(ExprKind::False), goiftrue);
    show_step(b"unless register 3", start(4, 0), register(3), goiffalse);
    show_step(b"not register 3", start(4, 0), register(3), code_not);
    show_step(b"not true", start(4, 0), plain(ExprKind::True), code_not);
    show_behind(
        b"if not register 3",
        [25165843, 0, 0, 0],
        state(1, 4, 0, 0, 0),
        relocable(0),
        0,
        goiftrue,
    );
}

fn main() {
    emissions();
    jump_lists();
    registers();
    as_operands();
    arithmetic();
    comparisons();
    conditional();
}
