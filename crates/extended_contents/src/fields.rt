//! The fields of contents, read and written one after the other.

ghost use Rattle.std.specs.Prelude.{◌≡◌, ◌+◌, ◌-◌, ◌≤◌, ◌∷◌, ◌++◌, [], length, take, drop, slice_index, IfOk, OnOk};
ghost use Rattle.std.specs.Int.{w16, w32, from_be_bytes, to_be_bytes};
ghost use Rattle.message_spec.specs.declared.TheConstants.{MAX_WINDOW};

use omci_core::{Bytes, NoMemory};
use std::alloc::Global;
use std::marker::Model;

/// The bytes of some contents that are still to be read. Contracts see these bytes.
#[derive(Drop)]
pub(crate) struct FieldBytes<'a> {
    rest: &'a [u8],
}

impl<'a> Model for FieldBytes<'a> {
    ghost use Rattle.std.specs.Prelude.{ℕ, List};

    ghost Value = { List ℕ };

    ghost view = { λ f. f.rest.now };
}

impl<'a> FieldBytes<'a> {
    // All bytes of some contents.
    pub(crate) fn of(contents: &'a [u8]) -> FieldBytes<'a>
        ensures all { result ≡ contents.now }
    {
        FieldBytes { rest: contents }
    }

    // Some bytes.
    pub(crate) fn row<const N: usize>(&mut self) -> [u8; N]
        requires { N ≤ length self.old }
        ensures value { result ≡ take N self.old }
        ensures after { self.new ≡ drop N self.old }
        ensures left { length self.new + N ≡ length self.old }
    {
        let (front, rest) = self.rest.split_at(N);
        let mut row = [0; N];
        row.copy_from_slice(front);
        self.rest = rest;
        row
    }

    // A number of one byte.
    pub(crate) fn byte(&mut self) -> u8
        requires { 1 ≤ length self.old }
        ensures value { result ≡ slice_index self.old 0 }
        ensures after { self.new ≡ drop 1 self.old }
        ensures left { length self.new + 1 ≡ length self.old }
    {
        let row: [u8; 1] = self.row();
        row[0]
    }

    // A number of two bytes.
    pub(crate) fn two(&mut self) -> u16
        requires { 2 ≤ length self.old }
        ensures value { result ≡ from_be_bytes w16 (take 2 self.old) }
        ensures after { self.new ≡ drop 2 self.old }
        ensures left { length self.new + 2 ≡ length self.old }
    {
        u16::from_be_bytes(self.row())
    }

    // A number of four bytes.
    pub(crate) fn four(&mut self) -> u32
        requires { 4 ≤ length self.old }
        ensures value { result ≡ from_be_bytes w32 (take 4 self.old) }
        ensures after { self.new ≡ drop 4 self.old }
        ensures left { length self.new + 4 ≡ length self.old }
    {
        u32::from_be_bytes(self.row())
    }

    // The window of a byte, which is one less.
    pub(crate) fn window(&mut self) -> u16
        requires { 1 ≤ length self.old }
        ensures value { result ≡ slice_index self.old 0 + 1 }
        ensures after { self.new ≡ drop 1 self.old }
        ensures left { length self.new + 1 ≡ length self.old }
    {
        u16::from(self.byte()) + 1
    }

    // A copy of all bytes that are left.
    pub(crate) fn rest(&self, alloc: Global) -> Result<Bytes, NoMemory>
        ensures value { IfOk result (λ bytes. bytes ≡ self.now) }
    {
        Bytes::of(alloc, self.rest)
    }
}

// Appends some bytes.
pub(crate) fn put_bytes(out: &mut Vec<u8>, bytes: &[u8]) -> Result<(), NoMemory>
    ensures put { OnOk result (out.new.items ≡ out.old.items ++ bytes.now) }
{
    out.extend_from_slice(bytes)?;
    Ok(())
}

// Appends a number of one byte.
pub(crate) fn put_byte(out: &mut Vec<u8>, value: u8) -> Result<(), NoMemory>
    ensures put { OnOk result (out.new.items ≡ out.old.items ++ value ∷ []) }
{
    put_bytes(out, &[value])
}

// Appends a number of two bytes.
pub(crate) fn put_two(out: &mut Vec<u8>, value: u16) -> Result<(), NoMemory>
    ensures put { OnOk result (out.new.items ≡ out.old.items ++ to_be_bytes w16 value) }
{
    put_bytes(out, &value.to_be_bytes())
}

// Appends a number of four bytes.
pub(crate) fn put_four(out: &mut Vec<u8>, value: u32) -> Result<(), NoMemory>
    ensures put { OnOk result (out.new.items ≡ out.old.items ++ to_be_bytes w32 value) }
{
    put_bytes(out, &value.to_be_bytes())
}

// Appends the byte of a window, which is one less.
pub(crate) fn put_window(out: &mut Vec<u8>, window: u16) -> Result<(), NoMemory>
    requires { (1 ≤ window) × (window ≤ MAX_WINDOW) }
    ensures put { OnOk result (out.new.items ≡ out.old.items ++ (window - 1) ∷ []) }
{
    put_byte(out, (window - 1) as u8)
}
