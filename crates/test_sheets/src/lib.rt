// For the test programs: sheets and plans made by setting fields, and what is printed of an answer.

#![tactic(auto)]

ghost use Rattle.std.specs.Prelude.{◌+◌, ◌≤◌, length};

pub mod document;
pub mod longer;
pub mod paper;
pub mod plans;
pub mod removals;
pub mod show;

// Where the record of each option starts in a sheet of version 1.
pub const MAINTAIN_AT: usize = 11;

pub const RENOVATE_AT: usize = 100;

pub const REPLACE_AT: usize = 189;

// The bytes of a sheet or a plan, which are made by setting fields.
#[derive(Clone, Copy)]
pub struct Bytes<const N: usize>(pub [u8; N]);

pub type ShortSheet = Bytes<278>;

impl<const N: usize> Bytes<N> {
    // The bytes from a place on set.
    pub fn put(self, at: usize, part: &[u8]) -> Self
        requires { at + length part.now ≤ N }
    {
        let mut bytes = self.0;
        let all = &mut bytes[..];
        all[at..at + part.len()].copy_from_slice(part);
        Bytes(bytes)
    }

    // A field of one byte, of two or of four: the lowest bytes of a value, whatever it is.
    pub fn put8(self, at: usize, value: u64) -> Self
        requires { at + 1 ≤ N }
    {
        self.put(at, &value.to_le_bytes()[..1])
    }

    pub fn put16(self, at: usize, value: u64) -> Self
        requires { at + 2 ≤ N }
    {
        self.put(at, &value.to_le_bytes()[..2])
    }

    pub fn put32(self, at: usize, value: u64) -> Self
        requires { at + 4 ≤ N }
    {
        self.put(at, &value.to_le_bytes()[..4])
    }

    pub fn put_i32(self, at: usize, value: i32) -> Self
        requires { at + 4 ≤ N }
    {
        self.put(at, &value.to_le_bytes())
    }

    // The shortest and the longest life in the record at a place.
    pub fn lives(self, at: usize, shortest: u64, longest: u64) -> Self
        requires { at + 4 ≤ N }
    {
        self.put16(at, shortest).put16(at + 2, longest)
    }
}

// T 300, r 40,000, every record zero.
pub fn plain() -> ShortSheet {
    let header = Bytes([0; 278]).put(0, b"RCS").put16(3, 1);
    header.put16(5, 300).put32(7, 40_000)
}
