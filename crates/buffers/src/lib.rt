// Lent buffers: clearing them whole. What a buffer holds is a list and then zeros (specs/Pad.antt).
#![tactic(auto)]

ghost use Rattle.std.specs.Prelude.{◌≡◌, length, replicate, set};

// What a buffer is lent of: the numbers of 8, 32 and 64 bits, each with its zero, which can be copied without fail and to itself alone.
pub trait Zero: Copy {
    ghost zero: { Self };

    fn zero() -> Self
        ensures is_zero { result ≡ zero }
        ensures copied { Self.is_infallible result × ((y : Self) → Self.is_clone result y → y ≡ result) };
}

impl Zero for u8 {
    ghost zero = { 0 };

    fn zero() -> u8 {
        0u8
    }
}

impl Zero for u32 {
    ghost zero = { 0 };

    fn zero() -> u32 {
        0u32
    }
}

impl Zero for u64 {
    ghost zero = { 0 };

    fn zero() -> u64 {
        0u64
    }
}

// Of each of these `zeros (length s.old) ≡ s.new`.
pub fn clear<T: Zero>(s: &mut [T])
    ensures { replicate (length s.old) T.zero ≡ s.new }
{
    s.fill(T::zero());
}

// Stores x at i, where the buffer reaches so far.
pub fn put<T: Copy>(s: &mut [T], i: usize, x: T)
    ensures { set s.old i x ≡ s.new }
{
    if i < s.len() {
        s[i] = x;
    }
}
