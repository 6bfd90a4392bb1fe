// The header: a map byte, the locals' names if its bit 0 stands, whether there are varargs (bit 1), and the number of formulas.
#![tactic(auto, using(cursor::specs::Inside::byte_inside, cursor::specs::Inside::text_inside, crate::specs::Skipping::skip_more, crate::specs::Skipping::skip_cut, crate::specs::Skipping::skip_end, crate::specs::Skipping::varargs_bit), unfolding(crate::specs::Headers::formulas_at, crate::specs::Headers::header_at))]

ghost use Rattle.std.specs.Prelude.{◌≡◌};
ghost use Rattle.chunk.specs.Headers.{names_at, skipped, header_at, formulas_at};

use refusals::Refusal;

// The most locals (rilua's instructions.rs; document 01, refusal 6).
pub const LUAI_MAXVARS: u8 = 200;

// How many locals there are and where their names stand, the varargs bit, the number of formulas and the place of the first one.
#[derive(Clone, Copy, Debug, PartialEq, Eq)]
pub struct Header {
    pub locals: usize,
    pub names: usize,
    pub varargs: bool,
    pub formulas: usize,
    pub next: usize,
}

// The place behind `count` names.
fn skip_names(chunk: &[u8], count: usize, at: usize) -> Option<usize>
    ensures { skipped (names_at chunk.now count at) ≡ result }
{
    let mut next = at;
    for _ in 0..count {
        let t = reader::read_text(chunk, next)?;
        next = t.start + t.len;
    }
    Some(next)
}

// The number of formulas, which stands behind the names.
fn read_formulas(
    chunk: &[u8],
    locals: usize,
    names: usize,
    varargs: bool,
    at: usize,
) -> Result<Header, Refusal>
    ensures { formulas_at chunk.now locals names varargs at ≡ result }
{
    let n = reader::read_byte(chunk, at).ok_or(Refusal::Missing)?;
    Ok(Header {
        locals,
        names,
        varargs,
        formulas: usize::from(n),
        next: at + 1,
    })
}

pub fn read_header(chunk: &[u8]) -> Result<Header, Refusal>
    ensures { header_at chunk.now ≡ result }
{
    let map = reader::read_byte(chunk, 0).ok_or(Refusal::Missing)?;
    if 3 < map {
        return Err(Refusal::Map);
    }
    let varargs = 2 <= map;
    if map % 2 == 0 {
        return read_formulas(chunk, 0, 1, varargs, 1);
    }
    let count = reader::read_byte(chunk, 1).ok_or(Refusal::Missing)?;
    if LUAI_MAXVARS < count {
        return Err(Refusal::Locals);
    }
    let locals = usize::from(count);
    let end = skip_names(chunk, locals, 2).ok_or(Refusal::Missing)?;
    read_formulas(chunk, locals, 2, varargs, end)
}

// A chunk whose header is read: what the lowering reads of it.
#[derive(Clone, Copy)]
pub struct Source<'a> {
    pub bytes: &'a [u8],
    pub header: Header,
}
