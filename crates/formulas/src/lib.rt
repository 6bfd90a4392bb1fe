// What a chunk's header and formulas are lowered to: the locals' registers, the formulas one after another, `Return` (document 01, "Lowering").
#![tactic(auto, unfolding(model::specs::Steps::and_then))]

ghost use Rattle.model.specs.Relations.{Does};
ghost use Rattle.model.specs.Lowering.{lower_chunk};
ghost use Rattle.formulas.specs.Parts.{first_formulas, returning};

use chunk::form::MAX_NESTING;
use chunk::header::{Header, Source};
use discharge::exp2nextreg;
use emission::{emit_abc, reserve_regs};
use expressions::compile_expr;
use instructions::B_SIZE;
use model::FuncState;
use opcodes::OpCode;
use refusals::Refusal;

// Each of n formulas to the next register.
fn formulas(fs: &mut FuncState, src: &Source, n: usize) -> Result<(), Refusal>
    ensures { Does (first_formulas src.now.bytes.now src.now.header n) fs.old result fs.new }
{
    for _ in 0..n {
        let mut e = compile_expr(fs, src, MAX_NESTING)?;
        exp2nextreg(fs, &mut e)?;
    }
    Ok(())
}

// `Return` with the locals' number, and one more than the formulas'; of that, what fits the field.
#[tactic(auto, using(crate::specs::Laws::returning_done, crate::specs::Laws::returning_full))]
fn add_return(fs: &mut FuncState, h: Header) -> Result<(), Refusal>
    ensures { Does (returning h) fs.old result fs.new }
{
    emit_abc(fs, OpCode::Return, h.locals, h.formulas % B_SIZE + 1, 0)?;
    Ok(())
}

// The locals take the first registers; the formulas; `Return`.
#[tactic(auto, unfolding(model::specs::Steps::and_then, model::specs::Lowering::lower_chunk))]
pub fn lower_chunk(fs: &mut FuncState, src: &Source) -> Result<(), Refusal>
    ensures { Does (lower_chunk src.now.bytes.now src.now.header) fs.old result fs.new }
{
    reserve_regs(fs, src.header.locals)?;
    formulas(fs, src, src.header.formulas)?;
    add_return(fs, src.header)
}
