// Expressions and argument lists, which call each other over the chunk's bytes: rilua's `compile_expr` and `compile_funcargs`. Nesting falls from node to sub-expression.
// Each node that has sub-expressions begins with its first one; what follows a sub-expression stands outside the recursion.
#![tactic(auto, unfolding(model::specs::Steps::and_then))]

ghost use Rattle.std.specs.Prelude.{List, ◌≡◌, ℕ};
ghost use Rattle.chunk.specs.declared.header.Header.{Header};
ghost use Rattle.model.specs.Relations.{Does, Makes};
ghost use Rattle.model.specs.Expressions.{after_one, between as between_of, after_two, compile_expr};
ghost use Rattle.expressions.specs.Parts.{funcargs};

use ast::{Head, One, Two};
use calls::{callee, closed_call, last_argument, leaf_expr, set_indexed, string_constant};
use chunk::header::Source;
use discharge::{discharge_vars, exp2anyreg, exp2nextreg};
use model::{ExprContext, ExprKind, FuncState};
use nodes::node::read_node;
use operators::{infix, postfix, prefix};
use refusals::Refusal;

// ---- behind a sub-expression

// Behind the sub-expression of a node that has one.
#[tactic(auto, unfolding(model::specs::Steps::and_then, model::specs::Expressions::after_one))]
pub fn after_one(
    fs: &mut FuncState,
    src: &Source,
    o: One,
    e: &mut ExprContext,
) -> Result<(), Refusal>
    ensures { Makes (after_one src.now.bytes.now src.now.header o e.old) fs.old result fs.new e.new }
{
    match o {
        One::Unary(op) => prefix(fs, op, e),
        One::Field(t) => {
            exp2anyreg(fs, e)?;
            let k = string_constant(fs, src, t)?;
            set_indexed(fs, e, &mut ExprContext::new(ExprKind::K, k))
        }
        One::Paren => discharge_vars(fs, e),
    }
}

// Between the sub-expressions of a node that has two.
#[tactic(auto, unfolding(model::specs::Expressions::between))]
pub fn between(fs: &mut FuncState, t: Two, e: &mut ExprContext) -> Result<(), Refusal>
    ensures { (chunk : List ℕ) (h : Header) → Makes (between_of chunk h t e.old) fs.old result fs.new e.new }
{
    match t {
        Two::Binary(op) => infix(fs, op, e),
        Two::Index => exp2anyreg(fs, e),
    }
}

// Behind the sub-expressions of a node that has two.
#[tactic(auto, unfolding(model::specs::Expressions::after_two))]
pub fn after_two(
    fs: &mut FuncState,
    t: Two,
    e1: &mut ExprContext,
    e2: &mut ExprContext,
) -> Result<(), Refusal>
    ensures { (chunk : List ℕ) (h : Header) → Makes (after_two chunk h t e1.old e2.old) fs.old result fs.new e1.new }
{
    match t {
        Two::Binary(op) => postfix(fs, op, e1, e2),
        Two::Index => set_indexed(fs, e1, e2),
    }
}

// ---- the recursion

// The expression at the state's place, with `left` nestings left.
#[cycle(compile_expr_compile_funcargs)]
#[tactic(auto, unfolding(model::specs::Steps::and_then, model::specs::Expressions::compile_expr, model::specs::Expressions::compile_head))]
pub fn compile_expr(fs: &mut FuncState, src: &Source, left: usize) -> Result<ExprContext, Refusal>
    ensures { Does (compile_expr src.now.bytes.now src.now.header left) fs.old result fs.new }
{
    if left == 0 {
        return Err(Refusal::Nesting);
    }
    let node = read_node(src.bytes, src.header.varargs, fs.state.at, fs.state.line)?;
    fs.state.at = node.next;
    fs.state.line = node.line;
    match node.head {
        Head::Leaf(l) => leaf_expr(fs, src, l),
        Head::One(o) => {
            let mut e = compile_expr(fs, src, left - 1)?;
            after_one(fs, src, o, &mut e)?;
            Ok(e)
        }
        Head::Two(t) => {
            let mut e1 = compile_expr(fs, src, left - 1)?;
            between(fs, t, &mut e1)?;
            let mut e2 = compile_expr(fs, src, left - 1)?;
            after_two(fs, t, &mut e1, &mut e2)?;
            Ok(e1)
        }
        Head::Many(m, n) => {
            let mut func = compile_expr(fs, src, left - 1)?;
            callee(fs, src, m, &mut func)?;
            let line = fs.state.line;
            compile_funcargs(fs, src, left - 1, &mut func, line, n)?;
            Ok(func)
        }
    }
}

// The n arguments of a call, each with `left` nestings left, and the call.
#[cycle(compile_expr_compile_funcargs)]
pub fn compile_funcargs(
    fs: &mut FuncState,
    src: &Source,
    left: usize,
    func: &mut ExprContext,
    line: u32,
    n: u8,
) -> Result<(), Refusal>
    ensures { Makes (funcargs src.now.bytes.now src.now.header left func.old line n) fs.old result fs.new func.new }
{
    if n == 0 {
        return closed_call(fs, func, line);
    }
    for _ in 1..n {
        let mut e = compile_expr(fs, src, left)?;
        exp2nextreg(fs, &mut e)?;
    }
    let mut e = compile_expr(fs, src, left)?;
    last_argument(fs, func, line, &mut e)
}
