//! Parts of a text: bytes, hex digits and numbers, each appended at the end of a buffer.
//!
//! Each call answers `NoMemory` where the buffer can't grow; the buffer then still begins with what
//! it held. No other memory is taken.

ghost use Rattle.std.specs.Prelude.{◌≡◌, ◌++◌, ◌≤◌, length, decimal, OnOk};
ghost use Rattle.std.specs.Int.{w16, to_be_bytes};
ghost use Rattle.hex.specs.Hex.{encode_lower};
ghost use Rattle.omci_contents.specs.Front.{IsFront};

use omci_core::NoMemory;

/// So many bytes are turned into hex digits at a time.
const HEX_ROW: usize = 32;

/// Appends some bytes.
#[inline(always)]
pub fn push_bytes(out: &mut Vec<u8>, bytes: &[u8]) -> Result<(), NoMemory>
    ensures text { OnOk result (out.new.items ≡ out.old.items ++ bytes.now) }
    ensures front { IsFront out.old.items out.new.items }
{
    out.extend_from_slice(bytes)?;
    Ok(())
}

// Appends the hex digits of a row of bytes.
fn push_hex_row(out: &mut Vec<u8>, row: &[u8]) -> Result<(), NoMemory>
    requires { length row.now ≤ HEX_ROW }
    ensures text { OnOk result (out.new.items ≡ out.old.items ++ encode_lower row.now) }
    ensures front { IsFront out.old.items out.new.items }
{
    let mut digits = [0; 2 * HEX_ROW];
    let digits = &mut digits[..2 * row.len()];
    hex::encode_to_slice(row, digits).unwrap();
    push_bytes(out, digits)
}

/// Appends the lower-case hex digits of some bytes.
pub fn push_hex(out: &mut Vec<u8>, bytes: &[u8]) -> Result<(), NoMemory>
    ensures text { OnOk result (out.new.items ≡ out.old.items ++ encode_lower bytes.now) }
    ensures front { IsFront out.old.items out.new.items }
{
    let mut place = 0;
    while bytes.len() - place > HEX_ROW {
        push_hex_row(out, &bytes[place..place + HEX_ROW])?;
        place += HEX_ROW;
    }
    push_hex_row(out, &bytes[place..])
}

/// Appends the four hex digits of a TCI.
pub fn push_tci(out: &mut Vec<u8>, tci: u16) -> Result<(), NoMemory>
    ensures text { OnOk result (out.new.items ≡ out.old.items
        ++ encode_lower (to_be_bytes w16 tci)) }
    ensures front { IsFront out.old.items out.new.items }
{
    push_hex_row(out, &tci.to_be_bytes())
}

/// Appends the decimal digits of a number.
pub fn push_number(out: &mut Vec<u8>, number: u64) -> Result<(), NoMemory>
    ensures text { OnOk result (out.new.items ≡ out.old.items ++ decimal number) }
    ensures front { IsFront out.old.items out.new.items }
{
    let mut buffer = itoa::Buffer::new();
    push_bytes(out, buffer.format(number).as_bytes())
}
