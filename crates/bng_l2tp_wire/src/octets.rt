ghost use Rattle.std.specs.Prelude.{◌≡◌, ◌+◌, ◌≤◌, ◌↔◌, IsTrue, length, slice_index};
ghost use Rattle.byteorder.specs.Endian.{big_from};
ghost use Rattle.bng_l2tp_wire.specs.Messages.{type_bit, length_bit, sequence_bit, offset_bit, HasControlBits};

use byteorder::{BigEndian, ByteOrder};

/// The number in the two octets at a place.
pub(crate) fn u16_at(bytes: &[u8], at: usize) -> u16
    requires { at + 2 ≤ length bytes.now }
    ensures { result ≡ big_from at 2 bytes.now }
{
    BigEndian::read_u16(&bytes[at..at + 2])
}

/// The T bit, 1 in a control message.
pub(crate) fn type_bit(flags: u8) -> u8
    ensures { result ≡ type_bit flags }
{
    flags / 128
}

/// The L bit, 1 where Length is there.
pub(crate) fn length_bit(flags: u8) -> u8
    ensures { result ≡ length_bit flags }
{
    flags / 64 % 2
}

/// The S bit, 1 where Ns and Nr are there.
pub(crate) fn sequence_bit(flags: u8) -> u8
    ensures { result ≡ sequence_bit flags }
{
    flags / 8 % 2
}

/// The O bit, 1 where Offset Size is there.
pub(crate) fn offset_bit(flags: u8) -> u8
    ensures { result ≡ offset_bit flags }
{
    flags / 2 % 2
}

// T, L and S are set, and neither O nor P
pub(crate) fn has_control_bits(flags: u8) -> bool
    ensures { IsTrue result ↔ HasControlBits flags }
{
    type_bit(flags) == 1
        && length_bit(flags) == 1
        && sequence_bit(flags) == 1
        && offset_bit(flags) == 0
        && flags % 2 == 0
}

/// Whether the octets are to be read as a control message, by the T bit of the first (RFC 2661 section 3.1). Otherwise they are
/// to be read as a data message.
pub fn is_control(bytes: &[u8]) -> bool
    ensures { IsTrue result ↔ (type_bit (slice_index bytes.now 0) ≡ 1) }
{
    !bytes.is_empty() && type_bit(bytes[0]) == 1
}
