// Names of locals: rilua's `search_local`.
#![tactic(auto)]

ghost use Rattle.std.specs.Prelude.{◌≡◌};
ghost use Rattle.buffers.specs.Lent.{bytes};
ghost use Rattle.constants.specs.Entry.{same_bytes};
ghost use Rattle.cursor.specs.Fields.{bytes_of};
ghost use Rattle.model.specs.Expressions.{register_named};
ghost use Rattle.variables.specs.Found.{found_is, newest};

use chunk::header::Header;
use cursor::Text;

// Whether two texts of the chunk have the same bytes.
fn same_text(chunk: &[u8], a: Text, b: Text) -> bool
    ensures { same_bytes (bytes_of (bytes chunk) a) (bytes_of (bytes chunk) b) ≡ result }
{
    let i = a.start;
    let j = b.start;
    constants::same_bytes(
        constants::part(chunk, i, a.len),
        constants::part(chunk, j, b.len),
    )
}

// The register i where the name there is the one sought, else what was found before.
#[tactic(auto, unfolding(crate::specs::Found::newest))]
fn newer(chunk: &[u8], name: Text, sought: Text, i: usize, last: Option<usize>) -> Option<usize>
    ensures { newest (bytes chunk) (bytes_of (bytes chunk) sought) name i last ≡ result }
{
    if same_text(chunk, name, sought) {
        return Some(i);
    }
    last
}

// The last local of this name: its register.
#[tactic(auto, using(cursor::specs::Inside::text_inside, crate::proofs::Seeking::sought_all, crate::proofs::Seeking::sought_cut, crate::proofs::Seeking::sought_end))]
pub fn search_local(chunk: &[u8], h: Header, t: Text) -> Option<usize>
    ensures { register_named (bytes chunk) h t ≡ found_is result }
{
    let mut at = h.names;
    let mut last = None;
    for i in 0..h.locals {
        let name = reader::read_text(chunk, at)?;
        at = name.start + name.len;
        last = newer(chunk, name, t, i, last);
    }
    last
}
