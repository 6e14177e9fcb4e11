// Big-endian numbers and runs of bytes in lent slices. The compiler makes one load or store of a number, and one turn of its bytes.
#![tactic(auto)]

mod number;

ghost use Rattle.std.specs.Prelude.{◌≡◌, map, ◌+◌, ◌*◌, ◌<◌, ◌≤◌, eqb, length, drop};
ghost use Rattle.std.proofs.lemmas.List.Edits.{sets};
ghost use Rattle.octets.specs.Runs.{gets, pieces};
ghost use Rattle.octets.specs.Numbers.{be, to_be};
ghost use Rattle.octets.specs.Joined.{joined};
ghost use Rattle.octets.specs.Turned.{turned};

pub use number::Number;

// Reads: the number that the bytes at an index say.
pub fn get<N: Number>(s: &[u8], at: usize) -> N
    requires { at + N.BYTES ≤ length s.now }
    ensures { N.value result ≡ be (gets s.now at N.BYTES) }
{
    N::read(&s[at..at + N::BYTES])
}

pub fn get24(s: &[u8], at: usize) -> u32
    requires { at + 3 ≤ length s.now }
    ensures { result ≡ be (gets s.now at 3) }
{
    u32::from_be_bytes([0, s[at], s[at + 1], s[at + 2]])
}

// Every bit that is set in any of the n numbers of 64 bits back to back from an index on. They are joined as a load leaves them, so that no
// turn of the loop turns bytes: with the numbers themselves it took 1.4 times as long.
pub fn any64(s: &[u8], at: usize, n: usize) -> u64
    requires { at + 8 * n ≤ length s.now }
    ensures { result ≡ joined 0 (map be (pieces 8 n (drop at s.now))) }
{
    let mut any: u64 = 0;
    for k in 0..n {
        any |= turned64(get(s, at + 8 * k));
    }
    turned64(any)
}

// A number with its bytes turned round, as a load leaves it: turned once, it is compared with many loads. Of a number that was just read
// this undoes the turn, and the compiler makes the plain load of both.
pub fn turned64(x: u64) -> u64
    ensures { result ≡ turned 8 x }
{
    x.swap_bytes()
}

// Whether the bytes at an index say the number that was turned.
pub fn says64(s: &[u8], at: usize, key: u64) -> bool
    requires { at + 8 ≤ length s.now }
    ensures { result ≡ eqb (be (gets s.now at 8)) (turned 8 key) }
{
    turned64(get(s, at)) == key
}

// Writes: the bytes of a number at an index; every other byte stays.
pub fn put<N: Number>(s: &mut [u8], at: usize, x: N)
    requires { at + N.BYTES ≤ length s.old }
    ensures { s.new ≡ sets s.old at (to_be N.BYTES (N.value x)) }
{
    x.write(&mut s[at..at + N::BYTES]);
}

// So many bytes are moved at once.
const WIDE: usize = 16;

// Both numbers are read before one is written, so the compiler makes one wide move of them, and turns no byte.
fn copy16(to: &mut [u8], at: usize, from: &[u8], i: usize)
    requires { (at + 16 ≤ length to.old) × (i + 16 ≤ length from.now) }
    ensures { to.new ≡ sets to.old at (gets from.now i 16) }
{
    let front: u64 = get(from, i);
    let back: u64 = get(from, i + u64::BYTES);
    put(to, at, front);
    put(to, at + u64::BYTES, back);
}

// All of `from`, byte by byte.
fn copy_bytes(to: &mut [u8], at: usize, from: &[u8])
    requires { at + length from.now ≤ length to.old }
    ensures { to.new ≡ sets to.old at from.now }
{
    for i in 0..from.len() {
        to[at + i] = from[i];
    }
}

// All of `from`, stored from an index on; every other byte stays. Sixteen bytes a turn, and the last sixteen as they lie, over some of
// those before them, so that no rest goes byte by byte.
// Stays: a loop, since `copy_from_slice` of a length that only the call knows is a call of the C library's `memmove`, which the library for
// C would have to be given, and with 63 segments without a byte that call took twice the time.
pub fn copy(to: &mut [u8], at: usize, from: &[u8])
    requires { at + length from.now ≤ length to.old }
    ensures { to.new ≡ sets to.old at from.now }
{
    if from.len() < WIDE {
        copy_bytes(to, at, from);
        return;
    }
    let last = from.len() - WIDE;
    for k in 0..last.div_ceil(WIDE) {
        copy16(to, at + WIDE * k, from, WIDE * k);
    }
    copy16(to, at + last, from, last);
}
