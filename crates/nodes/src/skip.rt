// Where a node's own fields end, its line, and how many sub-expressions follow: the form check needs no more, so no head is built for it.
// Its own reading, though `read_node` says as much: as one line over that a lowering of 1,000 nodes took a fifth more time (docs/BENCHMARKS.md) and missed half of the Rust's at 10, which is met, since a `read_node` with two calls is inlined in neither.
#![tactic(auto, using(cursor::specs::Inside::byte_inside, cursor::specs::Inside::bits_inside, cursor::specs::Inside::text_inside), unfolding(crate::specs::Nodes::fields_at, crate::specs::Nodes::node_at))]

ghost use Rattle.std.specs.Prelude.{◌≡◌, List, Bool, ℕ, ◌+◌, Result, Err, MatchOption, MatchResult};
ghost use Rattle.cursor.specs.Fields.{byte_at, text_at, end_of};
ghost use Rattle.cursor.specs.declared.Text.{Text};
ghost use Rattle.ast.specs.Children.{children_of};
ghost use Rattle.nodes.specs.Nodes.{with_byte, with_text, missing, node, node_at, fields_at};
ghost use Rattle.nodes.specs.Extents.{extent, extent_of};
ghost use Rattle.ast.specs.declared.Head.{Head};
ghost use Rattle.ast.specs.declared.Head.TheVariants as head;
ghost use Rattle.ast.specs.declared.Many.{Many};
ghost use Rattle.refusals.specs.declared.Refusal.{Refusal};
ghost use Rattle.refusals.specs.declared.Refusal.TheVariants as refusal;
ghost use Rattle.ast.specs.declared.Kind.TheVariants.{Number, VarArg, MethodCall};

use crate::node::{Front, read_front};
use ast::{BinOp, Kind, UnOp};
use refusals::Refusal;

#[derive(Clone, Copy, Debug, PartialEq, Eq)]
pub struct Extent {
    pub children: usize,
    pub line: u32,
    pub next: usize,
}

// The extent of a node whose own fields end at `next`.
fn ends(children: usize, line: u32, next: usize) -> Result<Extent, Refusal>
    ensures { extent children line next ≡ result }
{
    Ok(Extent {
        children,
        line,
        next,
    })
}

// Each kind that has fields, or a test of its own: a vararg, which alone asks whether there are varargs.
fn skip_number(chunk: &[u8], at: usize, line: u32) -> Result<Extent, Refusal>
    ensures { (va : Bool) → extent_of (fields_at chunk.now va Number at line) ≡ result }
{
    reader::read_bits(chunk, at).ok_or(Refusal::Missing)?;
    ends(0, line, at + 8)
}

// A text, whatever head with that many sub-expressions is made of it.
fn skip_text(chunk: &[u8], at: usize, line: u32, children: usize) -> Result<Extent, Refusal>
    ensures { (make : Text → Head) → ((t : Text) → children_of (make t) ≡ children) → extent_of (with_text (text_at chunk.now at) missing λ t. node (make t) line (end_of t)) ≡ result }
{
    let t = reader::read_text(chunk, at).ok_or(Refusal::Missing)?;
    ends(children, line, t.start + t.len)
}

fn skip_vararg(varargs: bool, at: usize, line: u32) -> Result<Extent, Refusal>
    ensures { (s : List ℕ) → extent_of (fields_at s varargs VarArg at line) ≡ result }
{
    if varargs {
        return ends(0, line, at);
    }
    Err(Refusal::Varargs)
}

// An operator of either type.
fn skip_operator<O: TryFrom<u8, Error = Refusal> + Drop>(
    chunk: &[u8],
    at: usize,
    line: u32,
    children: usize,
) -> Result<Extent, Refusal>
    ensures { MatchOption (byte_at chunk.now at) (Err refusal.Missing ≡ result) λ b. (r : Result O Refusal) × O.try_from_gives b r × MatchResult r (λ o. extent children line (at + 1) ≡ result) (λ e. Err e ≡ result) }
{
    let b = reader::read_byte(chunk, at).ok_or(Refusal::Missing)?;
    O::try_from(b)?;
    ends(children, line, at + 1)
}

// The argument count of a call of either kind.
fn skip_call(chunk: &[u8], at: usize, line: u32) -> Result<Extent, Refusal>
    ensures { (many : Many) → extent_of (with_byte (byte_at chunk.now at) missing λ n. node (head.Many many n) line (at + 1)) ≡ result }
{
    let args = reader::read_byte(chunk, at).ok_or(Refusal::Missing)?;
    ends(usize::from(args) + 1, line, at + 1)
}

fn skip_method_call(chunk: &[u8], at: usize, line: u32) -> Result<Extent, Refusal>
    ensures { (va : Bool) → extent_of (fields_at chunk.now va MethodCall at line) ≡ result }
{
    let t = reader::read_text(chunk, at).ok_or(Refusal::Missing)?;
    skip_call(chunk, t.start + t.len, line)
}

// The fields behind kind, map and line.
#[tactic(auto)]
fn skip_fields(chunk: &[u8], varargs: bool, front: Front) -> Result<Extent, Refusal>
    ensures { extent_of (fields_at chunk.now varargs front.kind front.next front.line) ≡ result }
{
    let Front { kind, next, line } = front;
    match kind {
        Kind::Nil | Kind::True | Kind::False => ends(0, line, next),
        Kind::Number => skip_number(chunk, next, line),
        Kind::Str | Kind::Name => skip_text(chunk, next, line, 0),
        Kind::VarArg => skip_vararg(varargs, next, line),
        Kind::Binary => skip_operator::<BinOp>(chunk, next, line, 2),
        Kind::Unary => skip_operator::<UnOp>(chunk, next, line, 1),
        Kind::Index => ends(2, line, next),
        Kind::Field => skip_text(chunk, next, line, 1),
        Kind::MethodCall => skip_method_call(chunk, next, line),
        Kind::Call => skip_call(chunk, next, line),
        Kind::Paren => ends(1, line, next),
    }
}

// The node whose kind byte is at `at`; `line` is that of the node before.
pub fn skip_node(chunk: &[u8], varargs: bool, at: usize, line: u32) -> Result<Extent, Refusal>
    ensures { extent_of (node_at chunk.now varargs at line) ≡ result }
{
    skip_fields(chunk, varargs, read_front(chunk, at, line)?)
}
