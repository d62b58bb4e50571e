//! The check value of ITU-T I.363.5 (AAL5): the CRC-32 of polynomial `04C11DB7` whose register
//! begins with all ones, that takes each byte's most significant bit first, and whose result is
//! complemented. No call takes memory.
#![tactic(auto)]

ghost use Rattle.std.specs.Prelude.{◌≡◌, ℕ, ◌<◌, ◌≤◌, List, [], ◌++◌, length, IsTrue};
ghost use Rattle.frame_spec.specs.Checksum.{bits_of, message_bits, crc};
ghost use Rattle.aal5_crc.specs.Register.{mixed, after_bits, entry_bits, table_is_right};

mod table;

use std::marker::Model;
use table::TABLE;

/// A check value that is taken piece by piece: [`Crc::value`] is that of all bytes added so far,
/// however they were cut.
#[derive(Clone, Copy, Debug, PartialEq, Eq)]
pub struct Crc {
    register: u32,
}

impl Model for Crc {
    ghost use Rattle.std.specs.Prelude.{ℕ, ◌-◌, ◌^◌, ◌<◌};

    ghost Value = { ℕ };

    ghost view = { λ c. 2 ^ 32 - 1 - c.register };

    ghost invariant = { λ c. c.register < 2 ^ 32 };

    ghost inverse = { λ n. record { register = 2 ^ 32 - 1 - n } };
}

impl Crc {
    /// The check value of no bytes yet.
    pub fn new() -> Self
        ensures value { result ≡ crc [] }
    {
        Crc {
            register: 0xffff_ffff,
        }
    }

    /// Adds bytes at the end.
    pub fn add(&mut self, bytes: &[u8])
        ensures value { (before : List ℕ) → self.old ≡ crc before →
            self.new ≡ crc (before ++ bytes.now) }
    {
        self.register = advanced(&TABLE, self.register, bytes);
    }

    /// The check value of all bytes added.
    pub fn value(&self) -> u32
        ensures value { result ≡ self.now }
    {
        !self.register
    }
}

/// The check value of these bytes.
pub fn crc_of(bytes: &[u8]) -> u32
    ensures value { result ≡ crc bytes.now }
{
    let mut crc = Crc::new();
    crc.add(bytes);
    crc.value()
}

// The register after these bytes: eight at a time, and the last ones one at a time.
fn advanced(table: &[u32; 2048], register: u32, bytes: &[u8]) -> u32
    requires { IsTrue (table_is_right table.now) }
    ensures bits { bits_of 32 result ≡ after_bits (bits_of 32 register) (message_bits bytes.now) }
{
    let mut register = register;
    let mut place = 0;
    while bytes.len() - place >= 8 {
        register = after_block(table, register, &bytes[place..place + 8]);
        place += 8;
    }
    after_rest(table, register, &bytes[place..])
}

// The register after these bytes: the first four at once, where there are so many, and the others
// one at a time.
fn after_rest(table: &[u32; 2048], register: u32, bytes: &[u8]) -> u32
    requires { IsTrue (table_is_right table.now) }
    ensures bits { bits_of 32 result ≡ after_bits (bits_of 32 register) (message_bits bytes.now) }
{
    if bytes.len() < 4 {
        return after_each(table, register, bytes);
    }
    let register = after_half(table, register, &bytes[..4]);
    after_each(table, register, &bytes[4..])
}

// The register after these bytes, one at a time.
fn after_each(table: &[u32; 2048], register: u32, bytes: &[u8]) -> u32
    requires { IsTrue (table_is_right table.now) }
    ensures bits { bits_of 32 result ≡ after_bits (bits_of 32 register) (message_bits bytes.now) }
{
    let mut register = register;
    for byte in bytes {
        register = after_byte(table, register, *byte);
    }
    register
}

// The register to which the first four bytes are added, as bytes.
#[inline(always)]
fn mixed(register: u32, bytes: &[u8]) -> [u8; 4]
    requires { 4 ≤ length bytes.now }
    ensures bytes { result ≡ mixed register bytes.now }
{
    (register ^ u32::from_be_bytes([bytes[0], bytes[1], bytes[2], bytes[3]])).to_be_bytes()
}

// The register after eight more bytes. It is added to the first four of them, and each byte then
// counts by itself, with those after it as zeros.
fn after_block(table: &[u32; 2048], register: u32, block: &[u8]) -> u32
    requires right { IsTrue (table_is_right table.now) }
    requires whole { length block.now ≡ 8 }
    ensures bits { bits_of 32 result ≡ after_bits (bits_of 32 register) (message_bits block.now) }
{
    let [a, b, c, d] = mixed(register, block);
    entry(table, 7, a)
        ^ entry(table, 6, b)
        ^ entry(table, 5, c)
        ^ entry(table, 4, d)
        ^ entry(table, 3, block[4])
        ^ entry(table, 2, block[5])
        ^ entry(table, 1, block[6])
        ^ entry(table, 0, block[7])
}

// The register after four more bytes, to which it is added. Each byte then counts by itself, with
// those after it as zeros.
fn after_half(table: &[u32; 2048], register: u32, half: &[u8]) -> u32
    requires right { IsTrue (table_is_right table.now) }
    requires whole { length half.now ≡ 4 }
    ensures bits { bits_of 32 result ≡ after_bits (bits_of 32 register) (message_bits half.now) }
{
    let [a, b, c, d] = mixed(register, half);
    entry(table, 3, a) ^ entry(table, 2, b) ^ entry(table, 1, c) ^ entry(table, 0, d)
}

// The register after one more byte.
fn after_byte(table: &[u32; 2048], register: u32, byte: u8) -> u32
    requires { IsTrue (table_is_right table.now) }
    ensures bits { bits_of 32 result ≡ after_bits (bits_of 32 register) (bits_of 8 byte) }
{
    entry(table, 0, (register >> 24) as u8 ^ byte) ^ (register << 8)
}

// What the byte and so many zero bytes leave in a register of zeros.
#[inline]
fn entry(table: &[u32; 2048], zeros: usize, byte: u8) -> u32
    requires right { IsTrue (table_is_right table.now) }
    requires within { zeros < 8 }
    ensures bits { bits_of 32 result ≡ entry_bits zeros byte }
{
    table[256 * zeros + byte as usize]
}
