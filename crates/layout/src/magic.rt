// The eight bytes that open a header and each piece of a descriptor.
ghost use Rattle.std.specs.Prelude.{◌≡◌};
ghost use Rattle.layout.specs.Magic.{opens_with};
ghost use Rattle.layout.specs.Headers.{header_magic};

use super::Kind;
use number::Range;
use number::ranges::part_of;
use number::runs::same_bytes;

// The first eight bytes are those of the magic.
pub(crate) fn opens_with(s: &[u8], magic: &[u8]) -> bool
    ensures { result ≡ opens_with s.now magic.now }
{
    same_bytes(part_of(s, Range { offset: 0, size: 8 }), magic)
}

// A header opens with the eight bytes of a kind.
pub fn opens_as(head: &[u8], kind: Kind) -> bool
    ensures { result ≡ opens_with head.now (header_magic kind) }
{
    match kind {
        Kind::Disa => opens_with(head, b"DISA\0\0\x04\0"),
        Kind::Diff => opens_with(head, b"DIFF\0\0\x03\0"),
    }
}
