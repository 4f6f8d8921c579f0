// Unsigned integers in lent bytes, the lowest byte first.
#![tactic(auto)]

ghost use Rattle.std.specs.Prelude.{◌≡◌, ℕ, ◌+◌, ◌*◌, ◌≤◌, ◌<◌, length, ◌≢◌};
ghost use Rattle.std.proofs.Common.{rules};
ghost use Rattle.words.specs.Words.{value, little, value_at, word_at, Written};

// An unsigned integer of `N` bytes.
pub trait Unsigned<const N: usize>: Copy {
    // The number that a value is.
    ghost number: { Self → ℕ };

    // The value that these bytes say.
    fn from_le_bytes(bytes: [u8; N]) -> Self
        ensures { number result ≡ value bytes.entry };

    // The bytes that say a value.
    fn to_le_bytes(self) -> [u8; N]
        ensures { result ≡ little N (number self) };

    // It has a byte at least.
    ghost nonempty: { 0 < N };
}

// One impl for each type, since an impl may not be written by a macro.
impl Unsigned<2> for u16 {
    ghost number = { λ x. x };

    ghost nonempty = { Prim.search rules };

    fn from_le_bytes(bytes: [u8; 2]) -> u16
        ensures { result ≡ value bytes }
    {
        u16::from_le_bytes(bytes)
    }

    fn to_le_bytes(self) -> [u8; 2] {
        u16::to_le_bytes(self)
    }
}

impl Unsigned<4> for u32 {
    ghost number = { λ x. x };

    ghost nonempty = { Prim.search rules };

    fn from_le_bytes(bytes: [u8; 4]) -> u32
        ensures { result ≡ value bytes }
    {
        u32::from_le_bytes(bytes)
    }

    fn to_le_bytes(self) -> [u8; 4] {
        u32::to_le_bytes(self)
    }
}

impl Unsigned<8> for u64 {
    ghost number = { λ x. x };

    ghost nonempty = { Prim.search rules };

    fn from_le_bytes(bytes: [u8; 8]) -> u64
        ensures { result ≡ value bytes }
    {
        u64::from_le_bytes(bytes)
    }

    fn to_le_bytes(self) -> [u8; 8] {
        u64::to_le_bytes(self)
    }
}

// The integer that stands at `at`.
pub fn read<T: Unsigned<N>, const N: usize>(s: &[u8], at: usize) -> T
    requires { at + N ≤ length s.now }
    ensures { T.number result ≡ value_at N s.now at }
{
    T::from_le_bytes(s[at..at + N].try_into().unwrap())
}

// Writes an integer at `at`.
pub fn write<T: Unsigned<N>, const N: usize>(s: &mut [u8], at: usize, v: T)
    requires { at + N ≤ length s.old }
    ensures { Written N at (T.number v) s.old s.new }
{
    s[at..at + N].copy_from_slice(&v.to_le_bytes());
}

// The word with the index `k`: the u64 at 8 * k.
pub fn word(s: &[u8], k: usize) -> u64
    requires { 8 * k + 8 ≤ length s.now }
    ensures { result ≡ word_at s.now k }
{
    read(s, 8 * k)
}

// Writes the word with the index `k`, and no other.
pub fn set_word(s: &mut [u8], k: usize, v: u64)
    requires { 8 * k + 8 ≤ length s.old }
    ensures here { word_at s.new k ≡ v }
    ensures others { (j : ℕ) → (j ≢ k) → word_at s.new j ≡ word_at s.old j }
{
    write(s, 8 * k, v);
}
