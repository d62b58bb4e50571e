//! Words of a line: decimal numbers, and bytes as hexadecimal digits.

use omci_core::NoMemory;
use std::alloc::Global;

/// A number in decimal digits. A word that is none reads as 255.
pub fn u8_of(word: &str) -> u8 {
    word.parse().unwrap_or(u8::MAX)
}

/// A number in decimal digits. A word that is none reads as 65,535.
pub fn u16_of(word: &str) -> u16 {
    word.parse().unwrap_or(u16::MAX)
}

/// A number in decimal digits. A word that is none reads as 4,294,967,295.
pub fn u32_of(word: &str) -> u32 {
    word.parse().unwrap_or(u32::MAX)
}

/// A number in decimal digits. A word that is none reads as the greatest one.
pub fn u64_of(word: &str) -> u64 {
    word.parse().unwrap_or(u64::MAX)
}

/// The value of a hexadecimal digit, 0 where it is none.
fn digit(byte: u8) -> u8 {
    (byte as char).to_digit(16).unwrap_or(0) as u8
}

/// The bytes of a word of hexadecimal digits. `-` is no bytes.
pub fn bytes_of(alloc: Global, word: &str) -> Result<Vec<u8>, NoMemory> {
    let mut bytes = Vec::new(alloc);
    if word == "-" {
        return Ok(bytes);
    }
    for pair in word.as_bytes().chunks(2) {
        let mut byte = 0u8;
        for letter in pair {
            byte = byte.wrapping_mul(16).wrapping_add(digit(*letter));
        }
        bytes.push(byte)?;
    }
    Ok(bytes)
}

/// The first `N` bytes of a word of hexadecimal digits, with zeros after those that are there.
pub fn array_of<const N: usize>(word: &str) -> [u8; N] {
    let mut bytes = [0u8; N];
    if word == "-" {
        return bytes;
    }
    for (place, letter) in word.as_bytes().iter().enumerate() {
        if place / 2 < N {
            bytes[place / 2] = bytes[place / 2]
                .wrapping_mul(16)
                .wrapping_add(digit(*letter));
        }
    }
    bytes
}

/// The bytes as hexadecimal digits; `-` where there are none.
pub fn hex_of(alloc: Global, bytes: &[u8]) -> Result<String, NoMemory> {
    if bytes.is_empty() {
        return Ok(String::from_str(alloc, "-")?);
    }
    Ok(hex::encode(alloc, bytes)?)
}

/// The bytes as hexadecimal digits without the zeros at the end; `-` where all are zero.
pub fn short_hex_of(alloc: Global, bytes: &[u8]) -> Result<String, NoMemory> {
    let mut rest = bytes;
    for _ in 0..bytes.len() {
        match rest {
            [front @ .., 0] => rest = front,
            _ => break,
        }
    }
    hex_of(alloc, rest)
}
