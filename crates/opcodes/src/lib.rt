// The 38 opcodes and their numbers (`OpCode` of rilua's instructions.rs).
#![tactic(auto)]

ghost use Rattle.std.specs.Prelude.{◌≡◌};
ghost use Rattle.opcodes.specs.OpCodes.{code_of, op_code_of, test_mode};

#[derive(Clone, Copy, PartialEq, Eq, Debug)]
pub enum OpCode {
    Move,
    LoadK,
    LoadBool,
    LoadNil,
    GetUpval,
    GetGlobal,
    GetTable,
    SetGlobal,
    SetUpval,
    SetTable,
    NewTable,
    OpSelf,
    Add,
    Sub,
    Mul,
    Div,
    Mod,
    Pow,
    Unm,
    Not,
    Len,
    Concat,
    Jmp,
    Eq,
    Lt,
    Le,
    Test,
    TestSet,
    Call,
    TailCall,
    Return,
    ForLoop,
    ForPrep,
    TForLoop,
    SetList,
    Close,
    Closure,
    VarArg,
}

// An opcode's number, 0 to 37.
impl From<OpCode> for u32 {
    ghost from_gives = { λ op n. code_of op ≡ n };

    fn from(op: OpCode) -> u32 {
        op as u32
    }
}

// The opcode of a number; `Move` above 37.
impl From<u32> for OpCode {
    ghost from_gives = { λ n op. op_code_of n ≡ op };

    #[tactic(auto, unfolding(crate::specs::OpCodes::op_code_of))]
    fn from(n: u32) -> OpCode {
        match n {
            0 => OpCode::Move,
            1 => OpCode::LoadK,
            2 => OpCode::LoadBool,
            3 => OpCode::LoadNil,
            4 => OpCode::GetUpval,
            5 => OpCode::GetGlobal,
            6 => OpCode::GetTable,
            7 => OpCode::SetGlobal,
            8 => OpCode::SetUpval,
            9 => OpCode::SetTable,
            10 => OpCode::NewTable,
            11 => OpCode::OpSelf,
            12 => OpCode::Add,
            13 => OpCode::Sub,
            14 => OpCode::Mul,
            15 => OpCode::Div,
            16 => OpCode::Mod,
            17 => OpCode::Pow,
            18 => OpCode::Unm,
            19 => OpCode::Not,
            20 => OpCode::Len,
            21 => OpCode::Concat,
            22 => OpCode::Jmp,
            23 => OpCode::Eq,
            24 => OpCode::Lt,
            25 => OpCode::Le,
            26 => OpCode::Test,
            27 => OpCode::TestSet,
            28 => OpCode::Call,
            29 => OpCode::TailCall,
            30 => OpCode::Return,
            31 => OpCode::ForLoop,
            32 => OpCode::ForPrep,
            33 => OpCode::TForLoop,
            34 => OpCode::SetList,
            35 => OpCode::Close,
            36 => OpCode::Closure,
            37 => OpCode::VarArg,
            _ => OpCode::Move,
        }
    }
}

impl OpCode {
    // Whether a jump stands behind it that it decides on.
    pub fn is_test_mode(self) -> bool
        ensures { test_mode self ≡ result }
    {
        matches!(
            self,
            OpCode::Eq | OpCode::Lt | OpCode::Le | OpCode::Test | OpCode::TestSet
        )
    }
}
