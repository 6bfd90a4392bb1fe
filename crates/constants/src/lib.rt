// The constant table over lent kinds, values and pool: the search, and adding what is not there yet (rilua's value.rs, proto.rs and `add_constant`, `string_constant`, `nil_constant`).
#![tactic(auto)]

ghost use Rattle.std.specs.Prelude.{◌≡◌, ◌==◌, List, position, take, false, ◌||◌, ◌&&◌, ℕ, ◌+◌, ◌*◌, ◌/◌, ◌%◌, ◌≤◌, ◌<◌, min, length, eqb, leb};
ghost use Rattle.std.proofs.lemmas.List.Edits.{sets};
ghost use Rattle.buffers.specs.Lent.{bytes, new, old};
ghost use Rattle.instructions.specs.Limits.{max_constants};
ghost use Rattle.constants.specs.Entry.{truth, number, constant_of, kind_of, part as part_of, same_bytes, holds};
ghost use Rattle.constants.specs.Fours.{four_of, FourBytes, in_four, Without};
ghost use Rattle.constants.specs.Texts.{is_text, tail_of, ends_alike};
ghost use Rattle.constants.specs.Relations.{Finds, Stores, StoresValues};
ghost use Rattle.constants.specs.Table.{find as find_in, stored, with_text, append as appended, added};

use instructions::MAX_CONSTANTS;
use refusals::Refusal;

// A constant: nil, a truth value, a number (its double and its bits), or a text by its place in the chunk. The double is there because document 01
// asks for this form ("an enum of nil, truth, double, text place"); the table is searched and stored by the bits alone.
#[derive(Clone, Copy)]
pub enum Val {
    Nil,
    Bool(bool),
    Num { value: f64, bits: u64 },
    Str { start: usize, len: usize },
}

// How many entries the table has, and how many bytes of the pool they use. Kinds, values and pool are lent beside it one by one: the C interface and document 01 have them as slices of their own,
// and definitions and contracts (`added`, `Stores`, `Finds`) name them one by one. An entry's kind is a number, 0 to 4, since the controllers read it so.
#[derive(Clone, Copy, PartialEq, Eq, Debug)]
pub struct Table {
    pub count: usize,
    pub used: usize,
}

// The part of a slice of `len` from `start`, as far as it goes.
pub fn part(s: &[u8], start: usize, len: usize) -> &[u8]
    ensures { part_of (bytes s) start len ≡ result.now }
{
    let n = s.len();
    if n < start {
        return &s[n..];
    }
    if n - start < len {
        return &s[start..];
    }
    let end = start + len;
    &s[start..end]
}

// Four bytes as one number, so that they are compared in one step.
fn four(s: &[u8], at: usize) -> u32
    requires { at + 4 ≤ length s.now }
    ensures { (four_of (bytes s) at ≡ result) × FourBytes (bytes s) at }
{
    u32::from_le_bytes([s[at], s[at + 1], s[at + 2], s[at + 3]])
}

// From the end, where names made by counting differ, four bytes at a time and then the rest.
// Both loops count one k down, the second from where the first stopped; `for i in (0..k).rev()` would be no plainer.
#[tactic(auto, using(crate::specs::Laws::same_bytes_false, crate::specs::Laws::same_bytes_refl))]
pub fn same_bytes(a: &[u8], b: &[u8]) -> bool
    ensures { same_bytes (bytes a) (bytes b) ≡ result }
{
    if a.len() != b.len() {
        return false;
    }
    let mut k = a.len();
    while 4 <= k {
        k -= 4;
        if four(a, k) != four(b, k) {
            return false;
        }
    }
    while 0 < k {
        k -= 1;
        if a[k] != b[k] {
            return false;
        }
    }
    true
}

// The kind of a truth value's entry.
fn truth_kind(b: bool) -> u8
    ensures { kind_of (truth b) ≡ result }
{
    1 + u8::from(b)
}

// Of the first `n` entries the first of this kind, whatever its value.
fn find_kind(kinds: &[u8], n: usize, kind: u8) -> Option<usize>
    requires { n ≤ length kinds.now }
    ensures { result ≡ position (λ k. k == kind) (take n kinds.now) }
{
    kinds[..n].iter().position(|&k| k == kind)
}

// Whether one of four values is this: asked of all four at once, which takes half to two thirds of the time that asking one after the other takes.
fn in_four(values: &[u64], at: usize, bits: u64) -> bool
    requires { at + 4 ≤ length values.now }
    ensures { in_four (bytes values) at bits ≡ result }
{
    (values[at] == bits)
        | (values[at + 1] == bits)
        | (values[at + 2] == bits)
        | (values[at + 3] == bits)
}

// A place before which none of the values is this one, found four by four; how far on it lies the contract leaves free.
fn past_fours(values: &[u64], n: usize, bits: u64) -> usize
    requires { n ≤ length values.now }
    ensures { Without (bytes values) result bits }
{
    let fours = n / 4;
    for q in 0..fours {
        if in_four(values, 4 * q, bits) {
            return 4 * q;
        }
    }
    4 * fours
}

// Of the first `n` entries the first number of these bits: 0.0 and -0.0 are two constants, and a NaN is itself.
// `(past_fours(..)..n).find(..)` was tried: that `Finds` holds of its answer stayed open, as of those of `find_each` and `find_alike`.
#[tactic(auto, using(crate::proofs::Steps::found_first, crate::proofs::Steps::found_nowhere))]
fn find_bits(kinds: &[u8], values: &[u64], n: usize, bits: u64) -> Option<usize>
    requires { (n ≤ length kinds.now) × (n ≤ length values.now) }
    ensures { Finds (λ k w. eqb w bits && eqb k 3) n result kinds values }
{
    for i in past_fours(values, n, bits)..n {
        if values[i] == bits && kinds[i] == 3 {
            return Some(i);
        }
    }
    None
}

// Whether a text's entry of this value is `text`.
#[tactic(auto, using(crate::proofs::Steps::part_length, crate::specs::Laws::same_bytes_false))]
fn is_text(value: u64, pool: &[u8], text: &[u8]) -> bool
    ensures { same_bytes (part_of (bytes pool) (value / 65536) (value % 65536)) (bytes text) ≡ result }
{
    let at = (value / 65536) as usize;
    let n = (value % 65536) as usize;
    let end = at + n;
    // no text of a table's own goes past the pool's end
    if pool.len() < end {
        return same_bytes(part(pool, at, n), text);
    }
    if n != text.len() {
        return false;
    }
    same_bytes(&pool[at..end], text)
}

// Whether the pool's last bytes are `text`.
#[tactic(auto, using(crate::proofs::Steps::no_tail))]
fn at_end(pool: &[u8], text: &[u8]) -> bool
    ensures { same_bytes (tail_of (length (bytes text)) (bytes pool)) (bytes text) ≡ result }
{
    let n = text.len();
    let size = pool.len();
    if size < n {
        return false;
    }
    let from = size - n;
    same_bytes(&pool[from..], text)
}

// Whether a text's entry of this value has this length and these last four bytes.
fn ends_alike(value: u64, pool: &[u8], len: usize, last: u32) -> bool
    requires { 4 ≤ len }
    ensures { ends_alike (bytes pool) len last value ≡ result }
{
    if (value % 65536) as usize != len {
        return false;
    }
    let end = (value / 65536) as usize + len;
    if pool.len() < end {
        return false;
    }
    four(pool, end - 4) == last
}

// Of the first `n` entries the first that is `text`, each text compared. `(0..n).find(..)` was tried: that `Finds` holds of its answer stayed open.
#[tactic(auto, using(crate::proofs::Steps::found_first, crate::proofs::Steps::found_nowhere))]
fn find_each(kinds: &[u8], values: &[u64], pool: &[u8], n: usize, text: &[u8]) -> Option<usize>
    requires { (n ≤ length kinds.now) × (n ≤ length values.now) }
    ensures { Finds (is_text (bytes pool) (bytes text)) n result kinds values }
{
    for i in 0..n {
        if kinds[i] == 4 && is_text(values[i], pool, text) {
            return Some(i);
        }
    }
    None
}

// The same, and only texts compared that end as `text` does. A text that the pool's end cuts off isn't as long as its entry says, so it would be passed over; none such is `text` where the pool's last bytes aren't.
// It takes 7 to 11 in 100 less with 158 to 255 constants (docs/BENCHMARKS.md). `iter().zip(..).position(..)` was tried: that `Finds` holds of its answer stayed open.
#[tactic(auto, using(crate::proofs::Steps::found_first, crate::proofs::Steps::found_nowhere, crate::proofs::Steps::not_alike))]
fn find_alike(kinds: &[u8], values: &[u64], pool: &[u8], n: usize, text: &[u8]) -> Option<usize>
    requires { (n ≤ length kinds.now) × (n ≤ length values.now) × (4 ≤ length text.now) × (same_bytes (tail_of (length text.now) pool.now) text.now ≡ false) }
    ensures { Finds (is_text (bytes pool) (bytes text)) n result kinds values }
{
    let len = text.len();
    let last = four(text, len - 4);
    for i in 0..n {
        if ends_alike(values[i], pool, len, last)
            && kinds[i] == 4
            && is_text(values[i], pool, text)
        {
            return Some(i);
        }
    }
    None
}

// Of the first `n` entries the first that is `text`.
fn find_text(kinds: &[u8], values: &[u64], pool: &[u8], n: usize, text: &[u8]) -> Option<usize>
    requires { (n ≤ length kinds.now) × (n ≤ length values.now) }
    ensures { Finds (is_text (bytes pool) (bytes text)) n result kinds values }
{
    if text.len() < 4 {
        return find_each(kinds, values, pool, n, text);
    }
    if at_end(pool, text) {
        return find_each(kinds, values, pool, n, text);
    }
    find_alike(kinds, values, pool, n, text)
}

// The first of the first `count` entries that is the constant v. What stands at or above the count is never looked at.
// A loop for each kind of constant, so that none asks at each entry what v is: 10 to 17 in 100 less at 10,000 nodes with 250 constants (docs/BENCHMARKS.md, whose aim is to be no slower than the Rust).
#[tactic(auto, using(crate::proofs::Steps::found_by, crate::proofs::Steps::holds_kind), unfolding(crate::specs::Entry::entry_of, crate::specs::Entry::same))]
pub fn find(
    kinds: &[u8],
    values: &[u64],
    pool: &[u8],
    chunk: &[u8],
    count: usize,
    v: Val,
) -> Option<usize>
    ensures { Finds (holds (bytes pool) (bytes chunk) v) count result kinds values }
{
    let n = count.min(kinds.len().min(values.len()));
    match v {
        Val::Nil => find_kind(kinds, n, 0),
        Val::Bool(b) => find_kind(kinds, n, truth_kind(b)),
        Val::Num { value: _, bits } => find_bits(kinds, values, n, bits),
        Val::Str { start, len } => find_text(kinds, values, pool, n, part(chunk, start, len)),
    }
}

// The same for a number alone, which needs neither pool nor chunk. It stands apart so that `find` has a single call, which the compiler inlines.
#[tactic(auto, using(crate::proofs::Steps::found_by, crate::proofs::Steps::holds_kind), unfolding(crate::specs::Entry::entry_of, crate::specs::Entry::same))]
pub fn find_numeral(kinds: &[u8], values: &[u64], count: usize, bits: u64) -> Option<usize>
    ensures { (p c : List ℕ) (v : Val) → constant_of c v ≡ number bits → Finds (holds p c v) count result kinds values }
{
    let n = count.min(kinds.len().min(values.len()));
    find_bits(kinds, values, n, bits)
}

// Stores the bytes of `from` in `to` from `at` on. Byte by byte: with `copy_from_slice` the archive for C would need a `memmove` from outside.
fn copy(to: &mut [u8], at: usize, from: &[u8])
    requires { at + length from.now ≤ length to.old }
    ensures { sets (old to) at (bytes from) ≡ new to }
{
    for (i, &b) in from.iter().enumerate() {
        to[at + i] = b;
    }
}

// Whether there is no entry behind the first `count`.
fn full(kinds: usize, values: usize, count: usize) -> bool
    ensures { (leb kinds count || (leb values count || leb max_constants count)) ≡ result }
{
    kinds <= count || values <= count || MAX_CONSTANTS <= count
}

// Whether `n` bytes go behind the first `used` of `size`.
fn fits(size: usize, used: usize, n: usize) -> bool
    ensures { leb (used + n) size ≡ result }
{
    used <= size && n <= size - used
}

// The value of a text's entry.
fn place(start: usize, len: usize) -> u64
    ensures { start % 281474976710656 * 65536 + len % 65536 ≡ result }
{
    ((start % 281474976710656) as u64) * 65536 + (len % 65536) as u64
}

// A new entry of this kind and value behind the others, and of `n` bytes of the pool.
// Here and below the table goes in and comes back as a value, since the definition `added` takes one and its answer `Added` holds the next.
fn store(
    kinds: &mut [u8],
    values: &mut [u64],
    table: Table,
    kind: u8,
    value: u64,
    n: usize,
) -> Result<(usize, Table), Refusal>
    requires { (table.count < length kinds.old) × (table.count < length values.old) × (table.used + n < 18446744073709551616) }
    ensures { StoresValues (stored table kind value n) result kinds values }
{
    let count = table.count;
    let used = table.used;
    kinds[count] = kind;
    values[count] = value;
    Ok((
        count,
        Table {
            count: count + 1,
            used: used + n,
        },
    ))
}

// A text's entry, its bytes behind those in use: 12 where they don't fit the pool.
fn store_text(
    kinds: &mut [u8],
    values: &mut [u64],
    pool: &mut [u8],
    table: Table,
    text: &[u8],
) -> Result<(usize, Table), Refusal>
    requires { (table.count < length kinds.old) × (table.count < length values.old) }
    ensures { Stores (with_text table (bytes text)) result kinds values pool }
{
    let used = table.used;
    let n = text.len();
    if fits(pool.len(), used, n) {
        copy(pool, used, text);
        return store(kinds, values, table, 4, place(used, n), n);
    }
    Err(Refusal::Pool)
}

// The new entry of the constant v.
fn append(
    kinds: &mut [u8],
    values: &mut [u64],
    pool: &mut [u8],
    chunk: &[u8],
    table: Table,
    v: Val,
) -> Result<(usize, Table), Refusal>
    requires { (table.count < length kinds.old) × (table.count < length values.old) }
    ensures { Stores (appended (bytes chunk) table v) result kinds values pool }
{
    match v {
        Val::Nil => store(kinds, values, table, 0, 0, 0),
        Val::Bool(b) => store(kinds, values, table, truth_kind(b), 0, 0),
        Val::Num { value: _, bits } => store(kinds, values, table, 3, bits, 0),
        Val::Str { start, len } => store_text(kinds, values, pool, table, part(chunk, start, len)),
    }
}

// The index of the constant v: that of its entry, or of a new one behind the others. 11 where no entry is free, else 12 where a text doesn't fit the pool.
#[tactic(auto, unfolding(crate::specs::Table::added))]
pub fn add_constant(
    kinds: &mut [u8],
    values: &mut [u64],
    pool: &mut [u8],
    chunk: &[u8],
    table: Table,
    v: Val,
) -> Result<(usize, Table), Refusal>
    ensures { Stores (added (bytes chunk) table v) result kinds values pool }
{
    let count = table.count;
    match find(kinds, values, pool, chunk, count, v) {
        Some(i) => Ok((i, table)),
        None => {
            if full(kinds.len(), values.len(), count) {
                return Err(Refusal::Constants);
            }
            append(kinds, values, pool, chunk, table, v)
        }
    }
}
