// The static library for C: the controller's function under the name that include/fuchsiarasp.h declares.
#![tactic(auto)]

ghost use Rattle.buffers.specs.Lent.{bytes};
ghost use Rattle.controller.specs.Told.{TellsLent};

// `lower` for C: 0 or the refusal's number; the counts in a buffer of their own, as many of the four as fit.
#[unsafe(no_mangle)]
pub extern "C" fn fuchsiarasp_lower(
    chunk: &[u8],
    code: &mut [u32],
    lines: &mut [u32],
    kinds: &mut [u8],
    values: &mut [u64],
    pool: &mut [u8],
    scratch: &mut [u32],
    counts: &mut [u64],
) -> u32
    ensures { TellsLent (bytes chunk) result code lines kinds values pool scratch counts }
{
    controller::fuchsiarasp_lower(chunk, code, lines, kinds, values, pool, scratch, counts)
}
