// The types that the lowering and its definitions share: the compiler's state with the buffers that it writes, the expression descriptor, and a lowering's counts (rilua's codegen.rs).
#![tactic(auto)]

ghost use Rattle.std.specs.Prelude.{◌≡◌};
ghost use Rattle.model.specs.Descriptor.{new_of, descriptor_of, has_jumps, is_numeral};

use constants::Table;
use folding::Numeral;
use refusals::Refusal;

// What a descriptor stands for, and so what its info and aux are: numbers beside the kind, as in the Rust, in the definitions and in document 01's form of a descriptor.
#[derive(Clone, Copy, Debug, PartialEq, Eq)]
pub enum ExprKind {
    Nil,
    True,
    False,
    // a constant: info is its index
    K,
    // a number, which stands in the descriptor
    KNum,
    // a local: info is its register
    Local,
    // a global: info is the constant of its name
    Global,
    // info is the table's register, aux the key as RK
    Indexed,
    // info is the word of the jump
    Jmp,
    // info is the word whose A is still to be set
    Relocable,
    // info is the register
    NonReloc,
    // info is the word of the Call
    Call,
    // info is the word of the VarArg
    VarArg,
}

// The descriptor of an expression: what of it has been emitted, and where its value is. The jump lists t (taken where it is true) and f (where it is false) are 0 for none, or k + 1 for the word k:
// numbers and no `Option`, as in the words that thread them and in the definitions of model/specs/Jumps.antt and their theorems, which may not change.
#[derive(Clone, Copy)]
pub struct ExprContext {
    pub kind: ExprKind,
    pub info: usize,
    pub aux: usize,
    pub nval: f64,
    pub bits: u64,
    pub t: usize,
    pub f: usize,
}

impl ExprContext {
    pub fn new(kind: ExprKind, info: usize) -> ExprContext
        ensures { new_of kind info ≡ result }
    {
        ExprContext {
            kind,
            info,
            aux: 0,
            nval: 0.0,
            bits: 0,
            t: 0,
            f: 0,
        }
    }

    pub fn number(n: Numeral) -> ExprContext
        ensures { descriptor_of n ≡ result }
    {
        ExprContext {
            kind: ExprKind::KNum,
            info: 0,
            aux: 0,
            nval: n.value,
            bits: n.bits,
            t: 0,
            f: 0,
        }
    }

    pub fn has_jumps(&self) -> bool
        ensures { has_jumps self.now ≡ result }
    {
        self.t != self.f
    }

    pub fn is_numeral(&self) -> bool
        ensures { is_numeral self.now ≡ result }
    {
        self.kind == ExprKind::KNum && self.t == 0 && self.f == 0
    }
}

// What rilua's `FuncState` has beside its lists, and the current line: the place in the chunk, the line, the words so far, the constants so far, the number of locals (`num_active_vars`),
// the next free register (`free_reg`), the registers in all (`max_stack_size`), the jumps that lead to the word to come (a list), and the last label
// (`last_target`: 0 for none, or k + 1 for the word k; jpc and label are numbers for the reason given at the lists of `ExprContext`).
#[derive(Clone, Copy)]
pub struct State {
    pub at: usize,
    pub line: u32,
    pub pc: usize,
    pub table: Table,
    pub active: usize,
    pub free: usize,
    pub frame: usize,
    pub jpc: usize,
    pub label: usize,
}

// The state with the buffers that it writes: rilua's `FuncState`, whose `Proto` has the five as lists. A step changes it in place. The buffers are lent, and their lengths in use stand in the state
// (pc, table): the project's rule is fixed memory, which callers in C own.
#[derive(Drop)]
pub struct FuncState<'a> {
    pub code: &'a mut [u32],
    pub lines: &'a mut [u32],
    pub kinds: &'a mut [u8],
    pub values: &'a mut [u64],
    pub pool: &'a mut [u8],
    pub state: State,
}

// What a lowering gives: the counts of words, constants and text bytes, and the frame.
#[derive(Clone, Copy)]
pub struct Counts {
    pub words: usize,
    pub constants: usize,
    pub text: usize,
    pub frame: usize,
}
