// Numbers in bytes, the lowest byte first. A reader answers a u64 and says how far it can go, so that no caller casts.

ghost use Rattle.std.specs.Prelude.{◌≡◌, ◌+◌, ◌<◌, ◌≤◌, length, get_or};
ghost use Rattle.std.proofs.lemmas.List.Edits.{sets};
ghost use Rattle.base.specs.Numbers.{u16_at, u32_at, bytes_of};

// The byte at `at`.
pub fn u8_at(s: &[u8], at: usize) -> u64
    requires { at + 1 ≤ length s.now }
    ensures { (result ≡ get_or s.now at 0) × (result < 256) }
{
    u64::from(s[at])
}

// The u16 at `at`.
#[tactic(auto, unfolding(crate::specs::Numbers::u16_at))]
pub fn u16_at(s: &[u8], at: usize) -> u64
    requires { at + 2 ≤ length s.now }
    ensures { (result ≡ u16_at s.now at) × (result < 65_536) }
{
    u64::from(u16::from_le_bytes([s[at], s[at + 1]]))
}

// The u32 at `at`.
#[tactic(auto, unfolding(crate::specs::Numbers::u32_at))]
pub fn u32_at(s: &[u8], at: usize) -> u64
    requires { at + 4 ≤ length s.now }
    ensures { (result ≡ u32_at s.now at) × (result < 4_294_967_296) }
{
    u64::from(u32::from_le_bytes([s[at], s[at + 1], s[at + 2], s[at + 3]]))
}

// Writes a number in that many bytes, the lowest first, from a place on.
pub fn put(list: &mut [u8], start: usize, count: usize, number: u64)
    requires { start + count ≤ length list.old }
    ensures { list.new ≡ sets list.old start (bytes_of count number) }
{
    let mut rest = number;
    for at in start..start + count {
        list[at] = (rest % 256) as u8;
        rest /= 256;
    }
}
