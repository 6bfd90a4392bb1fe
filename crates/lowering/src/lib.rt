// The entry `lower`, which clears, checks the form, and lowers (document 01, "Refused chunks").
#![tactic(auto)]

ghost use Rattle.std.specs.Prelude.{◌≡◌, length};
ghost use Rattle.buffers.specs.Lent.{bytes, new};
ghost use Rattle.buffers.specs.Pad.{zeros};
ghost use Rattle.model.specs.Relations.{LowersLent, after};
ghost use Rattle.model.specs.Claims.{sizes};
ghost use Rattle.model.specs.Lowering.{cleared, start};
ghost use Rattle.lowering.specs.Parts.{LowersCleared};

use chunk::form::check_form;
use chunk::header::{Header, Source, read_header};
use constants::Table;
use formulas::lower_chunk;
use model::{Counts, FuncState, State};
use refusals::Refusal;

// Zeros only; a slice keeps its length.
fn clear(code: &mut [u32], lines: &mut [u32], kinds: &mut [u8], values: &mut [u64], pool: &mut [u8])
    ensures { cleared (sizes (after code lines kinds values pool) 0) ≡ after code lines kinds values pool }
{
    buffers::clear(code);
    buffers::clear(lines);
    buffers::clear(kinds);
    buffers::clear(values);
    buffers::clear(pool);
}

fn clear_scratch(scratch: &mut [u32])
    ensures { zeros (length (new scratch)) ≡ new scratch }
{
    buffers::clear(scratch);
}

// `Proto::new`, `FuncState::new`, the line of `Compiler::new`, and the locals as `activate_locals` counts them.
fn start_at(h: Header) -> State
    ensures { start h.next h.locals ≡ result }
{
    State {
        at: h.next,
        line: 1,
        pc: 0,
        table: Table { count: 0, used: 0 },
        active: h.locals,
        free: 0,
        frame: 2,
        jpc: 0,
        label: 0,
    }
}

// The lowering of a chunk that has the form, in buffers that are cleared; a refusal clears them again.
fn lower_cleared(
    chunk: &[u8],
    code: &mut [u32],
    lines: &mut [u32],
    kinds: &mut [u8],
    values: &mut [u64],
    pool: &mut [u8],
) -> Result<Counts, Refusal>
    ensures { LowersCleared (bytes chunk) result code lines kinds values pool }
{
    // no `?`, here and below: a refusal clears the buffers first
    let header = match read_header(chunk) {
        Ok(h) => h,
        Err(k) => {
            clear(code, lines, kinds, values, pool);
            return Err(k);
        }
    };
    let mut fs = FuncState {
        code: &mut *code,
        lines: &mut *lines,
        kinds: &mut *kinds,
        values: &mut *values,
        pool: &mut *pool,
        state: start_at(header),
    };
    let source = Source {
        bytes: chunk,
        header,
    };
    match lower_chunk(&mut fs, &source) {
        Ok(()) => {
            let s = fs.state;
            Ok(Counts {
                words: s.pc,
                constants: s.table.count,
                text: s.table.used,
                frame: s.frame,
            })
        }
        Err(k) => {
            clear(code, lines, kinds, values, pool);
            Err(k)
        }
    }
}

// THE ENTRY, whose slices are those of the C interface. Whatever the bytes and however long the buffers: the answer and what each buffer then holds are those of `lowered`, whole. In particular (demand 1) each buffer
// holds the result and then zeros, or only zeros beside a refusal; and (demand 3) running the words that now stand in `code` is reading the chunk's formulas.
pub fn lower(
    chunk: &[u8],
    code: &mut [u32],
    lines: &mut [u32],
    kinds: &mut [u8],
    values: &mut [u64],
    pool: &mut [u8],
    scratch: &mut [u32],
) -> Result<Counts, Refusal>
    ensures { LowersLent (bytes chunk) result code lines kinds values pool scratch }
{
    clear(code, lines, kinds, values, pool);
    let n = check_form(chunk, scratch)?;
    if scratch.len() < n {
        clear_scratch(scratch);
        return Err(Refusal::Scratch);
    }
    match lower_cleared(chunk, code, lines, kinds, values, pool) {
        Ok(k) => Ok(k),
        Err(k) => {
            clear_scratch(scratch);
            Err(k)
        }
    }
}
