// The lowering for controllers: the one function that C calls (include/fuchsiarasp.h), which crate controller_c exports.
#![tactic(auto)]

ghost use Rattle.std.specs.Prelude.{◌≡◌, length};
ghost use Rattle.buffers.specs.Lent.{Rewrites, bytes};
ghost use Rattle.buffers.specs.Pad.{pad};
ghost use Rattle.controller.specs.Told.{number_for, counts_for, TellsLent};

use buffers::{clear, put};
use lowering::lower;
use model::Counts;
use refusals::Refusal;

// The answer's number; the counts in their buffer.
fn tell(answer: Result<Counts, Refusal>, counts: &mut [u64]) -> u32
    ensures { (number_for answer ≡ result) × Rewrites (λ l. pad (length l) (counts_for answer)) counts }
{
    clear(counts);
    match answer {
        Ok(k) => {
            put(counts, 0, k.words as u64);
            put(counts, 1, k.constants as u64);
            put(counts, 2, k.text as u64);
            put(counts, 3, k.frame as u64);
            0
        }
        Err(k) => u32::from(k),
    }
}

// `lower` for C: 0 or the refusal's number; the counts in a buffer of their own, as many of the four as fit.
pub fn fuchsiarasp_lower(
    chunk: &[u8],
    code: &mut [u32],
    lines: &mut [u32],
    kinds: &mut [u8],
    values: &mut [u64],
    pool: &mut [u8],
    scratch: &mut [u32],
    counts: &mut [u64],
) -> u32
    ensures { TellsLent (bytes chunk) result code lines kinds values pool scratch counts }
{
    let answer = lower(chunk, code, lines, kinds, values, pool, scratch);
    tell(answer, counts)
}
