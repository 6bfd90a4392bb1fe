// Fields of the chunk at a place: a byte, a line, a number's bits, a text; or None where bytes of it are missing. Integers are little-endian.
#![tactic(auto, using(crate::specs::Inside::has_yes, crate::specs::Inside::has_no, crate::specs::Inside::has_true), unfolding(crate::specs::Fields::byte_at, crate::specs::Fields::line_at, crate::specs::Fields::bits_at, crate::specs::Fields::text_at))]

ghost use Rattle.std.specs.Prelude.{◌≡◌, ℕ, ◌+◌, ◌<◌, true, false, get_or, MatchOption};
ghost use Rattle.cursor.specs.Fields.{has_bytes, byte_at, line_at, bits_at, text_at};

// A text by its place in the chunk.
#[derive(Clone, Copy, Debug, PartialEq, Eq)]
pub struct Text {
    pub start: usize,
    pub len: usize,
}

// The N bytes at a place.
fn fixed<const N: usize>(s: &[u8], at: usize) -> Option<[u8; N]>
    ensures { MatchOption result (has_bytes s.now at N ≡ false) λ b. (has_bytes s.now at N ≡ true) × ((i : ℕ) → i < N → get_or b i 0 ≡ get_or s.now (at + i) 0) }
{
    s.get(at..)?.first_chunk::<N>().copied()
}

pub fn byte_at(s: &[u8], at: usize) -> Option<u8>
    ensures { byte_at s.now at ≡ result }
{
    s.get(at).copied()
}

pub fn line_at(s: &[u8], at: usize) -> Option<u32>
    ensures { line_at s.now at ≡ result }
{
    fixed(s, at).map(u32::from_le_bytes)
}

pub fn bits_at(s: &[u8], at: usize) -> Option<u64>
    ensures { bits_at s.now at ≡ result }
{
    fixed(s, at).map(u64::from_le_bytes)
}

// A text: its length in two bytes, then its bytes.
pub fn text_at(s: &[u8], at: usize) -> Option<Text>
    ensures { text_at s.now at ≡ result }
{
    let len = usize::from(fixed(s, at).map(u16::from_le_bytes)?);
    let start = at + 2;
    s.get(start..)?.get(..len)?;
    Some(Text { start, len })
}
