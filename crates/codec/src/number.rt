// Big-endian numbers of any width in a list of bytes: read at a place, written at a place, whatever the place.
// What lies past the end reads as 0, and nothing is written there.
//
// Where the length of the bytes is known, as behind the test for a message's room, the compiler leaves out the
// test here, and makes one load and a byte swap of a read, a byte swap and one store of a write.
ghost use Rattle.std.specs.Prelude.{◌≡◌, ℕ, ◌≤◌, drop};
ghost use Rattle.std.proofs.Common.{rules};
ghost use Rattle.std.proofs.lemmas.List.Edits.{sets};
ghost use Rattle.wire.specs.Bytes.{bytes_of, number_at};

use std::array::from_fn;

// A number that N bytes write, the highest first.
pub trait Number<const N: usize>: Copy {
    // The number as clauses see it.
    ghost value: { Self → ℕ };

    fn from_bytes(bytes: &[u8; N]) -> Self
        ensures { value result ≡ number_at N bytes.now 0 };

    fn to_bytes(self) -> [u8; N]
        ensures { result ≡ bytes_of N (value self) };

    // An array of N bytes asks for a bound on N.
    ghost few: { N ≤ 8 };
}

// One impl for each width, since a macro can write no ghost member.
impl Number<1> for u8 {
    ghost value = { λ x. x };

    ghost few = { Prim.search rules };

    fn from_bytes(bytes: &[u8; 1]) -> u8 {
        u8::from_be_bytes(*bytes)
    }

    fn to_bytes(self) -> [u8; 1] {
        self.to_be_bytes()
    }
}

impl Number<2> for u16 {
    ghost value = { λ x. x };

    ghost few = { Prim.search rules };

    fn from_bytes(bytes: &[u8; 2]) -> u16 {
        u16::from_be_bytes(*bytes)
    }

    fn to_bytes(self) -> [u8; 2] {
        self.to_be_bytes()
    }
}

impl Number<4> for u32 {
    ghost value = { λ x. x };

    ghost few = { Prim.search rules };

    fn from_bytes(bytes: &[u8; 4]) -> u32 {
        u32::from_be_bytes(*bytes)
    }

    fn to_bytes(self) -> [u8; 4] {
        self.to_be_bytes()
    }
}

// The bytes from a place on, none where it lies past the end.
pub fn bytes_from(s: &[u8], at: usize) -> &[u8]
    ensures { result.now ≡ drop at s.now }
{
    &s[at.min(s.len())..]
}

// The number at a place, where what lies past the end reads as 0.
pub fn read<T: Number<N>, const N: usize>(s: &[u8], at: usize) -> T
    ensures { T.value result ≡ number_at N s.now at }
{
    let rest = bytes_from(s, at);
    if let Some(bytes) = rest.first_chunk() {
        return T::from_bytes(bytes);
    }
    T::from_bytes(&from_fn(|k| rest.get(k).copied().unwrap_or(0)))
}

// A number stored at a place, where nothing is written past the end.
pub fn write<T: Number<N>, const N: usize>(s: &mut [u8], at: usize, x: T)
    ensures { s.new ≡ sets s.old at (bytes_of N (T.value x)) }
{
    match s.len().checked_sub(at) {
        Some(room) if N <= room => s[at..at + N].copy_from_slice(&x.to_bytes()),
        Some(room) => s[at..].copy_from_slice(&x.to_bytes()[..room]),
        None => {}
    }
}
