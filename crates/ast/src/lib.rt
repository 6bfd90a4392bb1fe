// What a node is: `Expr` of rilua's ast.rs without its sub-expressions, grouped by how many it has.
#![tactic(auto)]

ghost use Rattle.std.specs.Prelude.{◌≡◌};
ghost use Rattle.ast.specs.Operators.{bin_op_of, un_op_of};
ghost use Rattle.ast.specs.Kinds.{kind_of, map_of};

use cursor::Text;
use refusals::Refusal;

// The kinds of node, in the order of their numbers.
#[derive(Clone, Copy, Debug, PartialEq, Eq)]
pub enum Kind {
    Nil,
    True,
    False,
    Number,
    Str,
    VarArg,
    Name,
    Binary,
    Unary,
    Index,
    Field,
    MethodCall,
    Call,
    Paren,
}

// The kind of a number, 0 to 13; of another the refusal 4.
impl TryFrom<u8> for Kind {
    type Error = Refusal;

    ghost try_from_gives = { λ n r. kind_of n ≡ r };

    #[tactic(auto, unfolding(crate::specs::Kinds::kind_of))]
    fn try_from(n: u8) -> Result<Kind, Refusal> {
        match n {
            0 => Ok(Kind::Nil),
            1 => Ok(Kind::True),
            2 => Ok(Kind::False),
            3 => Ok(Kind::Number),
            4 => Ok(Kind::Str),
            5 => Ok(Kind::VarArg),
            6 => Ok(Kind::Name),
            7 => Ok(Kind::Binary),
            8 => Ok(Kind::Unary),
            9 => Ok(Kind::Index),
            10 => Ok(Kind::Field),
            11 => Ok(Kind::MethodCall),
            12 => Ok(Kind::Call),
            13 => Ok(Kind::Paren),
            _ => Err(Refusal::Kind),
        }
    }
}

impl Kind {
    // Bits 1 to 4 of the map that the kind needs, as a number: 1 number, 2 text, 4 operator, 8 argument count.
    pub fn map(self) -> u8
        ensures { map_of self ≡ result }
    {
        match self {
            Kind::Nil | Kind::True | Kind::False | Kind::VarArg | Kind::Index | Kind::Paren => 0,
            Kind::Number => 1,
            Kind::Str | Kind::Name | Kind::Field => 2,
            Kind::Binary | Kind::Unary => 4,
            Kind::Call => 8,
            Kind::MethodCall => 10,
        }
    }
}

#[derive(Clone, Copy, Debug, PartialEq, Eq)]
pub enum BinOp {
    Add,
    Sub,
    Mul,
    Div,
    Mod,
    Pow,
    Concat,
    Lt,
    Le,
    Gt,
    Ge,
    Eq,
    Ne,
    And,
    Or,
}

#[derive(Clone, Copy, Debug, PartialEq, Eq)]
pub enum UnOp {
    Neg,
    Not,
    Len,
}

// No sub-expression.
#[derive(Clone, Copy, Debug, PartialEq, Eq)]
pub enum Leaf {
    Nil,
    True,
    False,
    Number(u64),
    Str(Text),
    VarArg,
    Name(Text),
}

// One sub-expression.
#[derive(Clone, Copy, Debug, PartialEq, Eq)]
pub enum One {
    Unary(UnOp),
    Field(Text),
    Paren,
}

// Two sub-expressions.
#[derive(Clone, Copy, Debug, PartialEq, Eq)]
pub enum Two {
    Binary(BinOp),
    Index,
}

// A function or an object, and then arguments.
#[derive(Clone, Copy, Debug, PartialEq, Eq)]
pub enum Many {
    MethodCall(Text),
    Call,
}

// What a node is, by how many sub-expressions it has; beside `Many` stands the number of arguments.
#[derive(Clone, Copy, Debug, PartialEq, Eq)]
pub enum Head {
    Leaf(Leaf),
    One(One),
    Two(Two),
    Many(Many, u8),
}

// A node without its sub-expressions: `next` is the place behind its own fields, where the first of them stands.
#[derive(Clone, Copy, Debug, PartialEq, Eq)]
pub struct Node {
    pub head: Head,
    pub line: u32,
    pub next: usize,
}

// The operator of a number, 0 to 14; of another the refusal 4.
impl TryFrom<u8> for BinOp {
    type Error = Refusal;

    ghost try_from_gives = { λ n r. bin_op_of n ≡ r };

    #[tactic(auto, unfolding(crate::specs::Operators::bin_op_of))]
    fn try_from(n: u8) -> Result<BinOp, Refusal> {
        match n {
            0 => Ok(BinOp::Add),
            1 => Ok(BinOp::Sub),
            2 => Ok(BinOp::Mul),
            3 => Ok(BinOp::Div),
            4 => Ok(BinOp::Mod),
            5 => Ok(BinOp::Pow),
            6 => Ok(BinOp::Concat),
            7 => Ok(BinOp::Lt),
            8 => Ok(BinOp::Le),
            9 => Ok(BinOp::Gt),
            10 => Ok(BinOp::Ge),
            11 => Ok(BinOp::Eq),
            12 => Ok(BinOp::Ne),
            13 => Ok(BinOp::And),
            14 => Ok(BinOp::Or),
            _ => Err(Refusal::Kind),
        }
    }
}

// The operator of a number, 0 to 2; of another the refusal 4.
impl TryFrom<u8> for UnOp {
    type Error = Refusal;

    ghost try_from_gives = { λ n r. un_op_of n ≡ r };

    #[tactic(auto, unfolding(crate::specs::Operators::un_op_of))]
    fn try_from(n: u8) -> Result<UnOp, Refusal> {
        match n {
            0 => Ok(UnOp::Neg),
            1 => Ok(UnOp::Not),
            2 => Ok(UnOp::Len),
            _ => Err(Refusal::Kind),
        }
    }
}
