// Replays cases from standard input; stdin and stdout are made from the oracle and document 01 (tools/replay.py).
// A case, integers little-endian: label (u16 length and bytes); how many numbers of code, lines, kinds, values, pool and scratch are lent (u32 each);
// how many pieces (u16); each piece: how many times (u32), u16 length and bytes. The chunk is the pieces one after another, each so many times.
// Of code, lines and scratch at most 131,072 numbers are lent, of kinds 4,096, of values 2,048, of the pool 65,536; a case that asks for more is lent all.
// What is lent is full of ones before, so that zeros there are the lowering's. Of each case are printed the label; the form check's own answer; the weave
// list, or the refusal; of an accepted chunk the frame, how many places the scratch has and the last of them, and the pool's first 64 bytes; then of each
// buffer a sum over what is counted, if anything is, and whether zeros follow.
#![tactic(auto)]

ghost use Rattle.std.specs.Prelude.{◌<◌, ◌≡◌, IfSome, length};

use chunk::form::check_form;
use listing::listing;
use lowering::lower;
use model::Counts;
use refusals::Refusal;

// Words and scratch have one place more than words are allowed.
const WORDS: usize = 131072;

const VALUES: usize = 2048;

// One byte more than a chunk may have; the cases together must fit as many.
const BYTES: usize = 1048577;

// ---- buffers

// Of a fresh one only the length is told: with `[0; BYTES]` in `main` the checker ran out of its stack. program has one like it; a public one could have no edit, since its contract holds of every array.
fn fresh<T: Copy, const N: usize>(zero: T) -> [T; N]
    ensures { N ≡ length result }
{
    [zero; N]
}

// The first n, or all of them, full of ones.
fn lend<T: Copy>(s: &mut [T], n: usize, ones: T) -> &mut [T]
    requires { T.is_infallible ones }
{
    let end = n.min(s.len());
    let lent = &mut s[..end];
    lent.fill(ones);
    lent
}

// ---- what is printed

// How many numbers of each buffer a case lends, and how long its chunk is.
#[derive(Clone, Copy)]
struct Case {
    code: usize,
    lines: usize,
    kinds: usize,
    values: usize,
    pool: usize,
    scratch: usize,
    len: usize,
}

fn print(text: &[u8]) {
    io::write_all(1, text);
}

fn print_number(label: &[u8], n: u64) {
    print(label);
    io::print_decimal(1, n);
}

// 7 times the sum and the low 32 bits of n, modulo the prime 2^61 - 1: one number that is wrong, or two that have changed places, always change it.
fn mixed(sum: u64, n: u64) -> u64 {
    (sum % 2305843009213693951 * 7 + n % 4294967296) % 2305843009213693951
}

// The sum over the first n, and whether zeros follow.
fn print_told(label: &[u8], n: usize, sum: u64, zeros: bool) {
    print(label);
    if 0 < n {
        print(b" ");
        io::print_hex(1, sum, 16);
    }
    if zeros {
        print(b", zeros");
    } else {
        print(b", not zeros");
    }
}

// Of what was lent; each number is mixed into the sum.
fn print_buffer<T: Into<u64> + Copy, F: Fn(u64, u64) -> u64>(
    label: &[u8],
    s: &[T],
    n: usize,
    lent: usize,
    mix: F,
)
    requires { F.IsAlwaysCallable mix }
{
    let s = &s[..lent.min(s.len())];
    let (counted, rest) = s.split_at(n.min(s.len()));
    let sum = counted.iter().fold(0, |sum, x| mix(sum, (*x).into()));
    let zeros = rest.iter().all(|x| {
        let n: u64 = (*x).into();
        n == 0
    });
    print_told(label, n, sum, zeros);
}

// Of a value both halves, the lower first.
fn mixed_value(sum: u64, n: u64) -> u64 {
    mixed(mixed(sum, n), n >> 32)
}

// How many places stand in the scratch: none is 0, since the chunk's header is there.
fn places(scratch: &[u32], lent: usize) -> usize {
    let s = &scratch[..lent.min(scratch.len())];
    match s.iter().rposition(|place| *place != 0) {
        Some(i) => i + 1,
        None => 0,
    }
}

// The last of n places.
fn print_last(scratch: &[u32], n: usize) {
    if let Some([.., last]) = scratch.get(..n) {
        print_number(b", last place ", u64::from(*last));
    }
}

fn print_hex(s: &[u8], n: usize) {
    for b in &s[..n.min(s.len())] {
        io::print_hex(1, u64::from(*b), 2);
    }
}

// Of the places those that fit.
fn print_form(form: Result<usize, Refusal>, scratch: &[u32], lent: usize) {
    match form {
        Ok(n) => {
            let fit = n.min(lent).min(scratch.len());
            print_number(b"form: nodes ", n as u64);
            print_last(scratch, fit);
            print_buffer(b"; places", scratch, fit, lent, mixed);
        }
        Err(k) => {
            print_number(b"form: refused ", u64::from(u32::from(k)));
            print_buffer(b"; places", scratch, 0, lent, mixed);
        }
    }
    print(b"\n");
}

fn print_counts(counts: Counts) {
    print_number(b"too long a list: words ", counts.words as u64);
    print_number(b" constants ", counts.constants as u64);
    print_number(b" text ", counts.text as u64);
    print(b"\n");
}

// Of a refused chunk nothing is counted.
fn counts_of(answer: Result<Counts, Refusal>) -> Counts {
    match answer {
        Ok(counts) => counts,
        Err(_) => Counts {
            words: 0,
            constants: 0,
            text: 0,
            frame: 0,
        },
    }
}

fn print_list(
    answer: Result<Counts, Refusal>,
    code: &[u32],
    lines: &[u32],
    kinds: &[u8],
    values: &[u64],
) {
    let mut page = io::large_buffer();
    match listing(answer, code, lines, kinds, values, &mut page) {
        Some(k) => print(&page[..k.min(page.len())]),
        None => print_counts(counts_of(answer)),
    }
}

// Of an accepted chunk.
fn print_frame(counts: Counts, n: usize, pool: &[u8], scratch: &[u32]) {
    print_number(b"frame ", counts.frame as u64);
    print_number(b", places ", n as u64);
    print_last(scratch, n);
    print(b", pool ");
    print_hex(pool, counts.text.min(64));
    print(b"\n");
}

fn show(
    answer: Result<Counts, Refusal>,
    case: Case,
    code: &[u32],
    lines: &[u32],
    kinds: &[u8],
    values: &[u64],
    pool: &[u8],
    scratch: &[u32],
) {
    let counts = counts_of(answer);
    print_list(answer, code, lines, kinds, values);
    let n = places(scratch, case.scratch);
    if let Ok(made) = answer {
        print_frame(made, n, pool, scratch);
    }
    print_buffer(b"words", code, counts.words, case.code, mixed);
    print_buffer(b"; lines", lines, counts.words, case.lines, mixed);
    print_buffer(b"; kinds", kinds, counts.constants, case.kinds, mixed);
    print_buffer(
        b"; values",
        values,
        counts.constants,
        case.values,
        mixed_value,
    );
    print_buffer(b"; pool", pool, counts.text, case.pool, mixed);
    print_buffer(b"; places", scratch, n, case.scratch, mixed);
    print(b"\n");
}

// ---- running a case

// The form check's own answer.
fn show_form(chunk: &[u8], lent: usize) {
    let mut scratch: [u32; WORDS] = fresh(0);
    let form = check_form(chunk, lend(&mut scratch, lent, u32::MAX));
    print_form(form, &scratch, lent);
}

// The buffers are fresh and what isn't lent stays zeros, so that `show` may look at whole arrays; no struct of them, as `lower` takes slices.
fn run_case(case: Case, chunk: &[u8]) {
    let mut code: [u32; WORDS] = fresh(0);
    let mut lines: [u32; WORDS] = fresh(0);
    let mut kinds = io::buffer();
    let mut values: [u64; VALUES] = fresh(0);
    let mut pool = io::large_buffer();
    let mut scratch: [u32; WORDS] = fresh(0);
    show_form(chunk, case.scratch);
    let answer = lower(
        chunk,
        lend(&mut code, case.code, u32::MAX),
        lend(&mut lines, case.lines, u32::MAX),
        lend(&mut kinds, case.kinds, u8::MAX),
        lend(&mut values, case.values, u64::MAX),
        lend(&mut pool, case.pool, u8::MAX),
        lend(&mut scratch, case.scratch, u32::MAX),
    );
    show(
        answer, case, &code, &lines, &kinds, &values, &pool, &scratch,
    );
}

// ---- reading cases: what the list begins with, and the list behind it; `None` where it is cut short

fn two(list: &[u8]) -> Option<(usize, &[u8])>
    ensures { IfSome result (λ p. length p.1.now < length list.now) }
{
    let (bytes, rest) = list.split_first_chunk::<2>()?;
    Some((usize::from(u16::from_le_bytes(*bytes)), rest))
}

fn four(list: &[u8]) -> Option<(usize, &[u8])>
    ensures { IfSome result (λ p. length p.1.now < length list.now) }
{
    let (bytes, rest) = list.split_first_chunk::<4>()?;
    Some((u32::from_le_bytes(*bytes) as usize, rest))
}

fn text(list: &[u8]) -> Option<(&[u8], &[u8])>
    ensures { IfSome result (λ p. length p.1.now < length list.now) }
{
    let (len, rest) = two(list)?;
    rest.split_at_checked(len)
}

// Stores as far as there is room, and gives the place behind.
fn put(s: &mut [u8], at: usize, t: &[u8]) -> usize {
    let start = at.min(s.len());
    let room = &mut s[start..];
    let n = t.len().min(room.len());
    room[..n].copy_from_slice(&t[..n]);
    start + n
}

// Ends where nothing more is stored.
fn put_times(s: &mut [u8], at: usize, times: usize, t: &[u8]) -> usize {
    let mut to = at;
    for _ in 0..times {
        let next = put(s, to, t);
        if next == to {
            break;
        }
        to = next;
    }
    to
}

// The pieces: how long the chunk is. One longer than the buffer is cut to it, and is then still too long a chunk.
fn build<'a>(list: &'a [u8], chunk: &mut [u8]) -> Option<(usize, &'a [u8])>
    ensures { IfSome result (λ p. length p.1.now < length list.now) }
{
    let (pieces, mut end) = two(list)?;
    let mut len = 0;
    for _ in 0..pieces {
        let (times, rest) = four(end)?;
        let (piece, rest) = text(rest)?;
        len = put_times(chunk, len, times, piece);
        end = rest;
    }
    Some((len, end))
}

// Builds the case's chunk and prints its label.
fn read_case<'a>(list: &'a [u8], chunk: &mut [u8]) -> Option<(Case, &'a [u8])>
    ensures { IfSome result (λ p. length p.1.now < length list.now) }
{
    let (label, list) = text(list)?;
    let (code, list) = four(list)?;
    let (lines, list) = four(list)?;
    let (kinds, list) = four(list)?;
    let (values, list) = four(list)?;
    let (pool, list) = four(list)?;
    let (scratch, list) = four(list)?;
    let (len, list) = build(list, chunk)?;
    print(label);
    print(b"\n");
    let case = Case {
        code,
        lines,
        kinds,
        values,
        pool,
        scratch,
        len,
    };
    Some((case, list))
}

// To the list's end, or to a case that is cut short.
fn replay(mut list: &[u8], chunk: &mut [u8]) {
    // a list is read while something is left of it: no count for a `for`
    while !list.is_empty() {
        let Some((case, rest)) = read_case(list, chunk) else {
            print(b"a case that is cut short\n");
            return;
        };
        run_case(case, &chunk[..case.len.min(chunk.len())]);
        list = rest;
    }
}

fn main() {
    let mut input: [u8; BYTES] = fresh(0);
    let n = io::read_full(0, &mut input);
    let mut chunk: [u8; BYTES] = fresh(0);
    replay(&input[..n], &mut chunk);
}
