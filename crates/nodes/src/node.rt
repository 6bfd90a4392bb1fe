// A node's fields, with its refusals in their order.
#![tactic(auto, using(cursor::specs::Inside::byte_inside, cursor::specs::Inside::line_inside, cursor::specs::Inside::bits_inside, cursor::specs::Inside::text_inside, ast::specs::Refused::kind_refused), unfolding(crate::specs::Nodes::fields_at, crate::specs::Nodes::node_at))]

ghost use Rattle.std.specs.Prelude.{◌≡◌, List, Bool, ℕ, ◌+◌, Result, Err, MatchOption, MatchResult};
ghost use Rattle.cursor.specs.Fields.{byte_at, text_at, end_of};
ghost use Rattle.ast.specs.declared.Head.{Head};
ghost use Rattle.refusals.specs.declared.Refusal.{Refusal};
ghost use Rattle.nodes.specs.Nodes.{missing, node, node_at, fields_at, front_at};
ghost use Rattle.ast.specs.declared.Kind.TheVariants.{Number, VarArg, MethodCall, Call};

use ast::{BinOp, Head, Kind, Leaf, Many, Node, One, Two, UnOp};
use cursor::Text;
use refusals::Refusal;

// What stands before the fields: the kind, the place behind kind, map and line, and the node's line.
#[derive(Clone, Copy, Debug, PartialEq, Eq)]
pub struct Front {
    pub kind: Kind,
    pub next: usize,
    pub line: u32,
}

// Each kind that has fields, or a test of its own: a vararg, which alone asks whether there are varargs. Chunk, place and line go one by one, as `fields_at` takes them:
// a Reader with a line beside it would be taken apart again for the place behind.
fn read_number(chunk: &[u8], at: usize, line: u32) -> Result<Node, Refusal>
    ensures { (va : Bool) → fields_at chunk.now va Number at line ≡ result }
{
    let bits = reader::read_bits(chunk, at).ok_or(Refusal::Missing)?;
    Ok(Node {
        head: Head::Leaf(Leaf::Number(bits)),
        line,
        next: at + 8,
    })
}

// A text, whatever head is made of it.
fn read_text<F: FnOnce(Text) -> Head>(
    chunk: &[u8],
    at: usize,
    line: u32,
    make: F,
) -> Result<Node, Refusal>
    requires { F.IsAlwaysCallable make }
    ensures { MatchOption (text_at chunk.now at) (missing ≡ result) λ t. (h : Head) × F.post make t h × (node h line (end_of t) ≡ result) }
{
    let t = reader::read_text(chunk, at).ok_or(Refusal::Missing)?;
    Ok(Node {
        head: make(t),
        line,
        next: t.start + t.len,
    })
}

fn read_vararg(varargs: bool, at: usize, line: u32) -> Result<Node, Refusal>
    ensures { (s : List ℕ) → fields_at s varargs VarArg at line ≡ result }
{
    if varargs {
        return Ok(Node {
            head: Head::Leaf(Leaf::VarArg),
            line,
            next: at,
        });
    }
    Err(Refusal::Varargs)
}

// An operator of either type, whatever head is made of it.
fn read_operator<O: TryFrom<u8, Error = Refusal> + Drop, F: FnOnce(O) -> Head>(
    chunk: &[u8],
    at: usize,
    line: u32,
    make: F,
) -> Result<Node, Refusal>
    requires { F.IsAlwaysCallable make }
    ensures { MatchOption (byte_at chunk.now at) (missing ≡ result) λ b. (r : Result O Refusal) × O.try_from_gives b r × MatchResult r (λ o. (h : Head) × F.post make o h × (node h line (at + 1) ≡ result)) (λ e. Err e ≡ result) }
{
    let b = reader::read_byte(chunk, at).ok_or(Refusal::Missing)?;
    let op = O::try_from(b)?;
    Ok(Node {
        head: make(op),
        line,
        next: at + 1,
    })
}

fn read_method_call(chunk: &[u8], at: usize, line: u32) -> Result<Node, Refusal>
    ensures { (va : Bool) → fields_at chunk.now va MethodCall at line ≡ result }
{
    let t = reader::read_text(chunk, at).ok_or(Refusal::Missing)?;
    let end = t.start + t.len;
    let args = reader::read_byte(chunk, end).ok_or(Refusal::Missing)?;
    Ok(Node {
        head: Head::Many(Many::MethodCall(t), args),
        line,
        next: end + 1,
    })
}

fn read_call(chunk: &[u8], at: usize, line: u32) -> Result<Node, Refusal>
    ensures { (va : Bool) → fields_at chunk.now va Call at line ≡ result }
{
    let args = reader::read_byte(chunk, at).ok_or(Refusal::Missing)?;
    Ok(Node {
        head: Head::Many(Many::Call, args),
        line,
        next: at + 1,
    })
}

// A node whose kind has no fields.
fn bare(head: Head, line: u32, next: usize) -> Result<Node, Refusal>
    ensures { node head line next ≡ result }
{
    Ok(Node { head, line, next })
}

// The fields behind kind, map and line.
#[tactic(auto)]
fn read_fields(chunk: &[u8], varargs: bool, front: Front) -> Result<Node, Refusal>
    ensures { fields_at chunk.now varargs front.kind front.next front.line ≡ result }
{
    let Front { kind, next, line } = front;
    match kind {
        Kind::Nil => bare(Head::Leaf(Leaf::Nil), line, next),
        Kind::True => bare(Head::Leaf(Leaf::True), line, next),
        Kind::False => bare(Head::Leaf(Leaf::False), line, next),
        Kind::Number => read_number(chunk, next, line),
        Kind::Str => read_text(chunk, next, line, |t| Head::Leaf(Leaf::Str(t))),
        Kind::VarArg => read_vararg(varargs, next, line),
        Kind::Name => read_text(chunk, next, line, |t| Head::Leaf(Leaf::Name(t))),
        Kind::Binary => read_operator(chunk, next, line, |op| Head::Two(Two::Binary(op))),
        Kind::Unary => read_operator(chunk, next, line, |op| Head::One(One::Unary(op))),
        Kind::Index => bare(Head::Two(Two::Index), line, next),
        Kind::Field => read_text(chunk, next, line, |t| Head::One(One::Field(t))),
        Kind::MethodCall => read_method_call(chunk, next, line),
        Kind::Call => read_call(chunk, next, line),
        Kind::Paren => bare(Head::One(One::Paren), line, next),
    }
}

pub fn read_front(chunk: &[u8], at: usize, line: u32) -> Result<Front, Refusal>
    ensures { front_at chunk.now at line ≡ result }
{
    let b = reader::read_byte(chunk, at).ok_or(Refusal::Missing)?;
    let kind = Kind::try_from(b)?;
    let map = reader::read_byte(chunk, at + 1).ok_or(Refusal::Missing)?;
    if map / 2 != kind.map() {
        return Err(Refusal::Map);
    }
    let next = at + 2;
    if map % 2 == 0 {
        return Ok(Front { kind, next, line });
    }
    let own = reader::read_line(chunk, next).ok_or(Refusal::Missing)?;
    Ok(Front {
        kind,
        next: at + 6,
        line: own,
    })
}

// The node whose kind byte is at `at`; `line` is that of the node before.
pub fn read_node(chunk: &[u8], varargs: bool, at: usize, line: u32) -> Result<Node, Refusal>
    ensures { node_at chunk.now varargs at line ≡ result }
{
    read_fields(chunk, varargs, read_front(chunk, at, line)?)
}
