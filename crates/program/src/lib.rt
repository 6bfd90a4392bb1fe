// The program `weavelist` as functions: the list of an input, in a lent buffer; and reading, listing, writing.
#![tactic(auto)]

ghost use Rattle.std.specs.Prelude.{◌≡◌, ◌≤◌, length, take};
ghost use Rattle.model.specs.Steps.{bufs};
ghost use Rattle.model.specs.Claims.{sizes, Bytes};
ghost use Rattle.model.specs.Lowering.{lowered};
ghost use Rattle.listing.specs.Page.{sheet, written};
ghost use Rattle.program.specs.Weavelist.{list_of, weavelist as weavelist_of, whole};

use listing::listing;
use lowering::lower;
use refusals::Refusal;

// The longest input of `weavelist`, in bytes.
pub const MAX_INPUT: usize = 65536;

// ---- what the program lends: of a fresh buffer only the length is told, since whoever is lent one clears it

fn fresh<T: Copy, const N: usize>(zero: T) -> [T; N]
    ensures { N ≡ length result }
{
    [zero; N]
}

// ---- listing

// The list of a chunk's lowering in these buffers; no struct of them, as `lower` and `listing` take slices and it would be taken apart here at once.
fn list_in(
    chunk: &[u8],
    code: &mut [u32],
    lines: &mut [u32],
    kinds: &mut [u8],
    values: &mut [u64],
    pool: &mut [u8],
    scratch: &mut [u32],
    out: &mut [u8],
) -> Option<usize>
    ensures { written (length out.old) (list_of (lowered (sizes (bufs code.old lines.old kinds.old values.old pool.old) (length scratch.old)) chunk.now)) ≡ sheet result out.new }
{
    let answer = lower(chunk, code, lines, kinds, values, pool, scratch);
    listing(answer, code, lines, kinds, values, out)
}

// The list of an input of `weavelist`.
#[tactic(auto, using(crate::specs::Laws::too_long, crate::specs::Laws::within, crate::specs::Laws::are_lent))]
pub fn list_bytes(input: &[u8], out: &mut [u8]) -> Option<usize>
    ensures { written (length out.old) (weavelist_of input.now) ≡ sheet result out.new }
{
    if input.len() > MAX_INPUT {
        return listing(Err(Refusal::TooLong), &[], &[], &[], &[], out);
    }
    let mut code: [u32; 8192] = fresh(0);
    let mut lines: [u32; 8192] = fresh(0);
    let mut kinds: [u8; 2048] = fresh(0);
    let mut values: [u64; 2048] = fresh(0);
    let mut pool: [u8; 32768] = fresh(0);
    let mut scratch: [u32; 16384] = fresh(0);
    list_in(
        input,
        &mut code,
        &mut lines,
        &mut kinds,
        &mut values,
        &mut pool,
        &mut scratch,
        out,
    )
}

// How many bytes were read, and what was listed of them.
#[derive(Clone, Copy)]
pub struct InputListed {
    pub read: usize,
    pub listed: Option<usize>,
}

// Reads what fits the input's buffer, lists it on the page and writes the list. The page and the answer are determined by the bytes read; which these are, and that
// the list is written out, no contract can say. What the input's buffer then holds are bytes, which the proof of `weavelist` needs.
fn list_input(input: &mut [u8], page: &mut [u8]) -> InputListed
    ensures { (written (length page.old) (weavelist_of (take result.read input.new)) ≡ sheet result.listed page.new) × Bytes input.new × (result.read ≤ length input.new) }
{
    let n = io::read_full(0, input);
    let listed = list_bytes(&input[..n], page);
    if let Some(k) = listed {
        io::write_all(1, &page[..k]);
    }
    InputListed { read: n, listed }
}

// The program: its input's buffer has one byte more than is allowed. No list is longer than its page (`fits`, specs/Fits.antt), so the answer is never `None`
// and the list stands on the page whole.
pub fn weavelist(input: &mut [u8; 65537], page: &mut [u8; 589824]) -> InputListed
    ensures { (whole (weavelist_of (take result.read input.new)) ≡ sheet result.listed page.new) × (result.read ≤ 65537) }
{
    list_input(input, page)
}
