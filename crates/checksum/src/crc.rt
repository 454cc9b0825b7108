//! CRC-32C, four bits at a time.

ghost use Rattle.std.specs.Prelude.{◌≡◌};
ghost use Rattle.checksum.specs.Crc.{after_bits, after_byte, added, started, finished, crc32c};

use std::marker::Model;

/// What becomes of a register of four bits as they fall out.
const NIBBLES: [u32; 16] = [
    0x0000_0000,
    0x105E_C76F,
    0x20BD_8EDE,
    0x30E3_49B1,
    0x417B_1DBC,
    0x5125_DAD3,
    0x61C6_9362,
    0x7198_540D,
    0x82F6_3B78,
    0x92A8_FC17,
    0xA24B_B5A6,
    0xB215_72C9,
    0xC38D_26C4,
    0xD3D3_E1AB,
    0xE330_A81A,
    0xF36E_6F75,
];

/// The register after four bits.
fn after_nibble(register: u32) -> u32
    ensures { result ≡ after_bits 4 register }
{
    (register >> 4) ^ NIBBLES[(register & 15) as usize]
}

/// The register after a byte.
fn after_byte(register: u32, byte: u8) -> u32
    ensures { result ≡ after_byte register byte }
{
    after_nibble(after_nibble(register ^ byte as u32))
}

/// The checksum of bytes that come in pieces: those so far.
///
/// Its model is the register.
#[derive(Clone, Copy, Debug)]
pub struct Checksum {
    register: u32,
}

impl Model for Checksum {
    ghost use Rattle.std.specs.Prelude.{ℕ};

    ghost Value = { ℕ };

    ghost view = { λ s. s.register };

    ghost inverse = { λ register. record { register = register } };
}

impl Checksum {
    /// Of no bytes.
    pub fn new() -> Checksum
        ensures value { result ≡ started }
    {
        Checksum { register: u32::MAX }
    }

    /// Adds the next bytes.
    pub fn add(&mut self, bytes: &[u8])
        ensures value { self.new ≡ added self.old bytes.now }
    {
        for byte in bytes {
            self.register = after_byte(self.register, *byte);
        }
    }

    /// The checksum of the bytes so far.
    pub fn value(self) -> u32
        ensures value { result ≡ finished self }
    {
        !self.register
    }
}

/// The checksum of these bytes.
pub fn crc32c(bytes: &[u8]) -> u32
    ensures value { result ≡ crc32c bytes.now }
{
    let mut sum = Checksum::new();
    sum.add(bytes);
    sum.value()
}
