//! Numbers in bytes, little endian.
ghost use Rattle.std.specs.Prelude.{◌≡◌, ◌≤◌, ◌+◌, length};
ghost use Rattle.mp_page.specs.Page.{number};

use byteorder::{ByteOrder, LittleEndian};

/// The number in the two bytes from a place.
#[tactic(auto, unfolding(crate::specs::Page::number))]
pub(crate) fn u16_at(place: usize, bytes: &[u8]) -> u16
    requires { place + 2 ≤ length bytes.now }
    ensures { result ≡ number place 2 bytes.now }
{
    LittleEndian::read_u16(&bytes[place..])
}

/// The number in the four bytes from a place.
#[tactic(auto, unfolding(crate::specs::Page::number))]
pub(crate) fn u32_at(place: usize, bytes: &[u8]) -> u32
    requires { place + 4 ≤ length bytes.now }
    ensures { result ≡ number place 4 bytes.now }
{
    LittleEndian::read_u32(&bytes[place..])
}

/// The number in the eight bytes from a place.
#[tactic(auto, unfolding(crate::specs::Page::number))]
pub(crate) fn u64_at(place: usize, bytes: &[u8]) -> u64
    requires { place + 8 ≤ length bytes.now }
    ensures { result ≡ number place 8 bytes.now }
{
    LittleEndian::read_u64(&bytes[place..])
}
