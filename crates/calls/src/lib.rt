// Calls, indexing, names and leaves: the part of rilua's codegen.rs that lowers a node once its sub-expressions are lowered. Nothing is assumed of the state.
#![tactic(auto, unfolding(model::specs::Steps::and_then))]

ghost use Rattle.std.specs.Prelude.{◌≡◌};
ghost use Rattle.model.specs.Relations.{Does, Makes};
ghost use Rattle.model.specs.Expressions.{set_multret, above as above_of, emit_call, closed_call, is_open, last_argument, set_indexed, code_self, string_constant, resolve_var, leaf_expr, callee};

use ast::{Leaf, Many};
use chunk::header::Source;
use constants::Val;
use cursor::Text;
use discharge::{exp2anyreg, exp2nextreg, exp2rk, set_c_at};
use emission::{abc, add_constant, emit_abc, emit_at, get_instruction, reserve_regs};
use folding::Numeral;
use instructions::{A_SIZE, NO_REG};
use jumps::put_word;
use model::{ExprContext, ExprKind, FuncState};
use opcodes::OpCode;
use operands::{free_expr, is_kind, rk};
use refusals::Refusal;
use variables::search_local;

// ---- calls

// The call or vararg gives all its values; an error is refused (difference 4).
#[tactic(auto, using(instructions::specs::Laws::set_a_mod), unfolding(model::specs::Steps::and_then, model::specs::Expressions::set_multret))]
pub fn set_multret(fs: &mut FuncState, e: &ExprContext) -> Result<(), Refusal>
    ensures { Does (set_multret e.now) fs.old result fs.new }
{
    if is_kind(e, ExprKind::Call) {
        set_c_at(fs.code, e.info, 0);
        return Ok(());
    }
    let i = get_instruction(fs, e.info);
    let open = i.set_b(0).set_a((fs.state.free % A_SIZE) as u32);
    put_word(fs.code, e.info, open.raw);
    reserve_regs(fs, 1)
}

// The register above one; none lies above NO_REG, which is no register.
#[tactic(auto, unfolding(model::specs::Expressions::above))]
fn above(r: usize) -> usize
    ensures { above_of r ≡ result }
{
    if r < NO_REG { r + 1 } else { NO_REG }
}

// The `Call` with B = b, on the line that was current before its arguments; then only its own register is taken.
#[tactic(auto, unfolding(model::specs::Steps::and_then, model::specs::Expressions::emit_call))]
pub fn emit_call(
    fs: &mut FuncState,
    func: &mut ExprContext,
    b: usize,
    line: u32,
) -> Result<(), Refusal>
    ensures { Makes (emit_call func.old b line) fs.old result fs.new func.new }
{
    let base = func.info;
    func.info = emit_at(fs, abc(OpCode::Call, base, b, 2).raw, line)?;
    func.kind = ExprKind::Call;
    fs.state.free = above(base);
    Ok(())
}

// The call of as many arguments as there are registers above the function's.
#[tactic(auto, unfolding(model::specs::Steps::and_then, model::specs::Expressions::closed_call, model::specs::Expressions::above))]
pub fn closed_call(fs: &mut FuncState, func: &mut ExprContext, line: u32) -> Result<(), Refusal>
    ensures { Makes (closed_call func.old line) fs.old result fs.new func.new }
{
    let arguments = fs.state.free.saturating_sub(above(func.info));
    emit_call(fs, func, arguments + 1, line)
}

// Whether an expression gives a list of values.
fn is_open(e: &ExprContext) -> bool
    ensures { is_open e.now ≡ result }
{
    is_kind(e, ExprKind::Call) || is_kind(e, ExprKind::VarArg)
}

// The last argument and the call.
#[tactic(auto, unfolding(model::specs::Steps::and_then, model::specs::Expressions::last_argument))]
pub fn last_argument(
    fs: &mut FuncState,
    func: &mut ExprContext,
    line: u32,
    e: &mut ExprContext,
) -> Result<(), Refusal>
    ensures { Makes (last_argument func.old line e.old) fs.old result fs.new func.new }
{
    if is_open(e) {
        set_multret(fs, e)?;
        return emit_call(fs, func, 0, line);
    }
    exp2nextreg(fs, e)?;
    closed_call(fs, func, line)
}

// ---- indexing

// What the table t has under the key.
#[tactic(auto, unfolding(model::specs::Steps::and_then, model::specs::Expressions::set_indexed))]
pub fn set_indexed(
    fs: &mut FuncState,
    t: &mut ExprContext,
    key: &mut ExprContext,
) -> Result<(), Refusal>
    ensures { Makes (set_indexed t.old key.old) fs.old result fs.new t.new }
{
    exp2rk(fs, key)?;
    t.kind = ExprKind::Indexed;
    t.aux = rk(key);
    Ok(())
}

// A method and its object: two registers, for the function and for the object behind it.
#[tactic(auto, unfolding(model::specs::Steps::and_then, model::specs::Expressions::code_self))]
pub fn code_self(
    fs: &mut FuncState,
    e: &mut ExprContext,
    key: &mut ExprContext,
) -> Result<(), Refusal>
    ensures { Makes (code_self e.old key.old) fs.old result fs.new e.new }
{
    exp2anyreg(fs, e)?;
    free_expr(fs, e);
    let reg = fs.state.free;
    reserve_regs(fs, 2)?;
    exp2rk(fs, key)?;
    emit_abc(fs, OpCode::OpSelf, reg, e.info, rk(key))?;
    free_expr(fs, key);
    e.kind = ExprKind::NonReloc;
    e.info = reg;
    Ok(())
}

// ---- names and leaves

// The index of a text's constant.
pub fn string_constant(fs: &mut FuncState, src: &Source, t: Text) -> Result<usize, Refusal>
    ensures { Does (string_constant src.now.bytes.now src.now.header t) fs.old result fs.new }
{
    let v = Val::Str {
        start: t.start,
        len: t.len,
    };
    add_constant(fs, src.bytes, v)
}

// A local by its last name, else a global.
#[tactic(auto, unfolding(model::specs::Steps::and_then, model::specs::Expressions::resolve_var))]
pub fn resolve_var(fs: &mut FuncState, src: &Source, t: Text) -> Result<ExprContext, Refusal>
    ensures { Does (resolve_var src.now.bytes.now src.now.header t) fs.old result fs.new }
{
    if let Some(i) = search_local(src.bytes, src.header, t) {
        return Ok(ExprContext::new(ExprKind::Local, i));
    }
    let k = string_constant(fs, src, t)?;
    Ok(ExprContext::new(ExprKind::Global, k))
}

// A node with no sub-expression.
#[tactic(auto, unfolding(model::specs::Steps::and_then, model::specs::Expressions::leaf_expr))]
pub fn leaf_expr(fs: &mut FuncState, src: &Source, leaf: Leaf) -> Result<ExprContext, Refusal>
    ensures { Does (leaf_expr src.now.bytes.now src.now.header leaf) fs.old result fs.new }
{
    match leaf {
        Leaf::Nil => Ok(ExprContext::new(ExprKind::Nil, 0)),
        Leaf::True => Ok(ExprContext::new(ExprKind::True, 0)),
        Leaf::False => Ok(ExprContext::new(ExprKind::False, 0)),
        Leaf::Number(b) => Ok(ExprContext::number(Numeral::from_bits(b))),
        Leaf::Str(t) => {
            let k = string_constant(fs, src, t)?;
            Ok(ExprContext::new(ExprKind::K, k))
        }
        Leaf::VarArg => {
            let pc = emit_abc(fs, OpCode::VarArg, 0, 1, 0)?;
            Ok(ExprContext::new(ExprKind::VarArg, pc))
        }
        Leaf::Name(t) => resolve_var(fs, src, t),
    }
}

// ---- the function of a call

// The function of a call in its register, with the object behind it for a method.
#[tactic(auto, unfolding(model::specs::Steps::and_then, model::specs::Expressions::callee))]
pub fn callee(fs: &mut FuncState, src: &Source, m: Many, e: &mut ExprContext) -> Result<(), Refusal>
    ensures { Makes (callee src.now.bytes.now src.now.header m e.old) fs.old result fs.new e.new }
{
    match m {
        Many::Call => exp2nextreg(fs, e),
        Many::MethodCall(t) => {
            exp2anyreg(fs, e)?;
            let k = string_constant(fs, src, t)?;
            code_self(fs, e, &mut ExprContext::new(ExprKind::K, k))
        }
    }
}
