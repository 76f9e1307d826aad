// The number fields of sheets and plan files: unsigned numbers, highest byte first, read from a byte string and put into one.
#![tactic(auto)]

ghost use Rattle.std.specs.Prelude.{◌≡◌, ◌+◌, ◌<◌, length};
ghost use Rattle.std.proofs.lemmas.List.Edits.{sets};
ghost use Rattle.number_fields.specs.Fields.{number16, number32, bytes16, bytes32};

// The number of two bytes at a place.
pub fn u16_at(bytes: &[u8], at: usize) -> u16
    requires { at + 1 < length bytes.now }
    ensures { result ≡ number16 bytes.now at }
{
    u16::from_be_bytes([bytes[at], bytes[at + 1]])
}

// The number of four bytes at a place.
pub fn u32_at(bytes: &[u8], at: usize) -> u32
    requires { at + 3 < length bytes.now }
    ensures { result ≡ number32 bytes.now at }
{
    u32::from_be_bytes([bytes[at], bytes[at + 1], bytes[at + 2], bytes[at + 3]])
}

// A number of two bytes is stored at a place.
pub fn put_u16(buffer: &mut [u8], at: usize, x: u16)
    requires { at + 1 < length buffer.old }
    ensures { buffer.new ≡ sets buffer.old at (bytes16 x) }
{
    buffer[at..at + 2].copy_from_slice(&x.to_be_bytes());
}

// A number of four bytes is stored at a place.
pub fn put_u32(buffer: &mut [u8], at: usize, x: u32)
    requires { at + 3 < length buffer.old }
    ensures { buffer.new ≡ sets buffer.old at (bytes32 x) }
{
    // Two bytes twice: for `to_be_bytes` of a `u32` the proof of what is stored did not close.
    put_u16(buffer, at, (x / 65536) as u16);
    put_u16(buffer, at + 2, (x % 65536) as u16);
}
