// The whole form: header, formulas, and nothing behind them; the places of the nodes go to the scratch.
ghost use Rattle.std.specs.Prelude.{◌≡◌, length};
ghost use Rattle.chunk.specs.Ast.{spans, spans_of};
ghost use Rattle.chunk.specs.Form.{expr_at, exprs_at, form_of};
ghost use Rattle.chunk.specs.Walks.{Walked, Within, EndWithin, checked, out};

use crate::header::read_header;
use nodes::skip::skip_node;
use refusals::Refusal;

// The longest chunk, in bytes (document 01, refusal 1).
pub const MAX_LENGTH: usize = 1048576;

// The deepest nesting (document 01, refusal 5).
pub const MAX_NESTING: usize = 200;

// Where a walk has come to: the place, the line of the last node, and how many nodes there were.
#[derive(Clone, Copy, Debug, PartialEq, Eq)]
pub struct Walk {
    pub at: usize,
    pub line: u32,
    pub nodes: usize,
}

// One expression, with `left` nestings left for it.
#[cycle(walk_expr_walk_exprs)]
fn walk_expr(
    chunk: &[u8],
    scratch: &mut [u32],
    varargs: bool,
    left: usize,
    w: Walk,
) -> Result<Walk, Refusal>
    requires { Within chunk.now w }
    ensures { Walked spans (expr_at chunk.now varargs left w.at w.line) w.nodes scratch.old result scratch.new × EndWithin chunk.now result }
{
    if left == 0 {
        return Err(Refusal::Nesting);
    }
    let n = skip_node(chunk, varargs, w.at, w.line)?;
    // a node's place, if there is room
    buffers::put(scratch, w.nodes, w.at as u32);
    let next = Walk {
        at: n.next,
        line: n.line,
        nodes: w.nodes + 1,
    };
    // a node without children ends its walk here: no call
    if n.children == 0 {
        return Ok(next);
    }
    walk_exprs(chunk, scratch, varargs, left - 1, n.children, next)
}

// That many expressions one after the other.
#[cycle(walk_expr_walk_exprs)]
fn walk_exprs(
    chunk: &[u8],
    scratch: &mut [u32],
    varargs: bool,
    left: usize,
    count: usize,
    w: Walk,
) -> Result<Walk, Refusal>
    requires { Within chunk.now w }
    ensures { Walked spans_of (exprs_at (expr_at chunk.now varargs left) count w.at w.line) w.nodes scratch.old result scratch.new × EndWithin chunk.now result }
{
    let mut walk = w;
    for _ in 0..count {
        walk = walk_expr(chunk, scratch, varargs, left, walk)?;
    }
    Ok(walk)
}

// The number of nodes, with their places in the scratch as far as they fit, or the first refusal of 1 to 8.
pub fn check_form(chunk: &[u8], scratch: &mut [u32]) -> Result<usize, Refusal>
    ensures { checked (form_of chunk.now) (length scratch.old) ≡ out result scratch.new }
{
    buffers::clear(scratch);
    if MAX_LENGTH < chunk.len() {
        return Err(Refusal::TooLong);
    }
    let h = read_header(chunk)?;
    let w = Walk {
        at: h.next,
        line: 1,
        nodes: 0,
    };
    // no `?`: a refusal clears the scratch first
    match walk_exprs(chunk, scratch, h.varargs, MAX_NESTING, h.formulas, w) {
        Ok(v) => {
            if v.at != chunk.len() {
                buffers::clear(scratch);
                return Err(Refusal::Trailing);
            }
            Ok(v.nodes)
        }
        Err(k) => {
            buffers::clear(scratch);
            Err(k)
        }
    }
}
