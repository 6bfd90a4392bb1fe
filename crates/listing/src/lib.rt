// The weave list (document 01, "The weave list, and cases"), written into a lent buffer. What writes answers `None` once a byte did not fit.
#![tactic(auto)]

ghost use Rattle.std.specs.Prelude.{◌≡◌, ℕ, ◌+◌, ◌%◌, [], ◌∷◌, length, map, take};
ghost use Rattle.listing.specs.Listing.{decimal as decimal_of, hex as hex_of, glyph, count_line, refusal_line, listing as listing_of};
ghost use Rattle.listing.specs.Page.{Writes, page, puts, sheet, written};
ghost use Rattle.listing.specs.Laws.{Gives, row as row_of, rows as rows_of};

use buffers::clear;
use model::Counts;
use refusals::Refusal;

// ---- numbers: by hand. A line by `writeln!(.., "{i} {n} {bits:08x}")` was tried, and its contract didn't close: of a line that doesn't fit std's `fmt::Write`
// says nothing.

// The digit of n's last place.
fn decimal_digit(n: u64) -> u8
    ensures { 48 + n % 10 ≡ result }
{
    b'0' + (n % 10) as u8
}

fn hex_digit(n: u64) -> u8
    ensures { glyph (n % 16) ≡ result }
{
    let d = (n % 16) as u8;
    if d < 10 { b'0' + d } else { b'a' + (d - 10) }
}

// ---- writing

// The lent buffer and the place behind what is written.
#[derive(Drop)]
struct Pen<'a> {
    out: &'a mut [u8],
    at: usize,
}

impl<'a> Pen<'a> {
    #[tactic(auto, using(crate::specs::Laws::put_here, crate::specs::Laws::put_over), unfolding(crate::specs::Page::puts))]
    fn put(&mut self, b: u8) -> Option<()>
        ensures { Writes (b ∷ []) self.old result self.new }
    {
        if self.at < self.out.len() {
            self.out[self.at] = b;
            self.at += 1;
            return Some(());
        }
        None
    }

    fn text(&mut self, s: &[u8]) -> Option<()>
        ensures { Writes s.now self.old result self.new }
    {
        for &b in s {
            self.put(b)?;
        }
        Some(())
    }

    fn decimal(&mut self, n: u64, most: usize) -> Option<()>
        ensures { Writes (decimal_of most n) self.old result self.new }
    {
        if most == 0 {
            return Some(());
        }
        if n < 10 {
            return self.put(decimal_digit(n));
        }
        self.decimal(n / 10, most - 1)?;
        self.put(decimal_digit(n))
    }

    fn number(&mut self, n: u64) -> Option<()>
        ensures { Writes (decimal_of 20 n) self.old result self.new }
    {
        self.decimal(n, 20)
    }

    fn hex(&mut self, n: u64, digits: usize) -> Option<()>
        ensures { Writes (hex_of digits n) self.old result self.new }
    {
        if digits == 0 {
            return Some(());
        }
        self.hex(n / 16, digits - 1)?;
        self.put(hex_digit(n))
    }

    // ---- lines

    fn count_line(&mut self, words: u64, constants: u64, bytes: u64) -> Option<()>
        ensures { Writes (count_line words constants bytes) self.old result self.new }
    {
        self.text(b"words ")?;
        self.number(words)?;
        self.text(b" constants ")?;
        self.number(constants)?;
        self.text(b" text ")?;
        self.number(bytes)?;
        self.put(b'\n')
    }

    fn refusal_line(&mut self, refusal: u64) -> Option<()>
        ensures { Writes (refusal_line refusal) self.old result self.new }
    {
        self.text(b"refused ")?;
        self.number(refusal)?;
        self.put(b'\n')
    }

    // A label and the index, a number, and bits in so many digits.
    fn row(&mut self, label: &[u8], digits: usize, i: u64, n: u64, bits: u64) -> Option<()>
        ensures { Writes (row_of label.now digits i n bits) self.old result self.new }
    {
        self.text(label)?;
        self.number(i)?;
        self.put(b' ')?;
        self.number(n)?;
        self.put(b' ')?;
        self.hex(bits, digits)?;
        self.put(b'\n')
    }

    // A row for each of the first `most`, as far as there are numbers and bits.
    fn rows<N: Into<u64> + Copy, B: Into<u64> + Copy>(
        &mut self,
        label: &[u8],
        digits: usize,
        numbers: &[N],
        bits: &[B],
        most: usize,
    ) -> Option<()>
        ensures { (f : N → ℕ) (h : B → ℕ) → Gives N.converts f → Gives B.converts h → Writes (rows_of label.now digits 0 (take most (map f numbers.now)) (take most (map h bits.now))) self.old result self.new }
    {
        for (i, (n, b)) in numbers.iter().zip(bits).enumerate().take(most) {
            self.row(label, digits, i as u64, (*n).into(), (*b).into())?;
        }
        Some(())
    }

    // The list.
    fn lines_of(
        &mut self,
        answer: Result<Counts, Refusal>,
        code: &[u32],
        lines: &[u32],
        kinds: &[u8],
        values: &[u64],
    ) -> Option<()>
        ensures { Writes (listing_of answer code.now lines.now kinds.now values.now) self.old result self.new }
    {
        match answer {
            Ok(k) => {
                self.count_line(k.words as u64, k.constants as u64, k.text as u64)?;
                self.rows(b"", 8, lines, code, k.words)?;
                self.rows(b"c", 16, kinds, values, k.constants)
            }
            Err(k) => self.refusal_line(u64::from(u32::from(k))),
        }
    }
}

// The list in a buffer, from its start: the place behind it.
fn list(
    answer: Result<Counts, Refusal>,
    code: &[u32],
    lines: &[u32],
    kinds: &[u8],
    values: &[u64],
    out: &mut [u8],
) -> Option<usize>
    ensures { puts (listing_of answer code.now lines.now kinds.now values.now) out.old (Some 0) ≡ page result out.new }
{
    let mut pen = Pen {
        out: &mut *out,
        at: 0,
    };
    pen.lines_of(answer, code, lines, kinds, values)?;
    Some(pen.at)
}

// The list of an answer and the buffers that a lowering left: how many bytes were written, or `None` where the buffer is too short and then holds only zeros.
pub fn listing(
    answer: Result<Counts, Refusal>,
    code: &[u32],
    lines: &[u32],
    kinds: &[u8],
    values: &[u64],
    out: &mut [u8],
) -> Option<usize>
    ensures { written (length out.old) (listing_of answer code.now lines.now kinds.now values.now) ≡ sheet result out.new }
{
    clear(out);
    let end = list(answer, code, lines, kinds, values, out);
    if end.is_none() {
        clear(out);
    }
    end
}
