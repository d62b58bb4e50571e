//! Bytes that are kept in place, at most so many.

ghost use Rattle.std.specs.Prelude.{◌≡◌, ◌==◌, ◌<◌, ◌≤◌, length, take};

use omci_core::filled;
use std::fmt;
use std::marker::Model;

/// A list of at most `MOST` bytes, in place, where `MOST` is below 256. Contracts see the list.
#[derive(Drop)]
pub struct FewBytes<const MOST: usize> {
    len: u8,
    row: [u8; MOST],
}

impl<const MOST: usize> Model for FewBytes<MOST> {
    ghost use Rattle.std.specs.Prelude.{ℕ, ◌≤◌, List, take};

    ghost Value = { List ℕ };

    ghost view = { λ b. take b.len b.row };

    ghost invariant = { λ b. b.len ≤ MOST };
}

impl<const MOST: usize> FewBytes<MOST> {
    /// A copy of these bytes.
    pub fn of(bytes: &[u8]) -> FewBytes<MOST>
        requires few { length bytes.now ≤ MOST }
        requires small { MOST < 256 }
        ensures copied { result ≡ bytes.now }
    {
        FewBytes {
            len: bytes.len() as u8,
            row: filled(bytes),
        }
    }

    /// The first bytes of a row.
    #[inline(always)]
    pub fn front(row: [u8; MOST], len: usize) -> FewBytes<MOST>
        requires few { len ≤ MOST }
        requires small { MOST < 256 }
        ensures front { result ≡ take len row.entry }
    {
        FewBytes {
            len: len as u8,
            row,
        }
    }

    /// The bytes.
    #[inline(always)]
    pub fn bytes(&self) -> &[u8]
        ensures value { result.now ≡ self.now }
    {
        &self.row[..self.len as usize]
    }
}

impl<const MOST: usize> PartialEq for FewBytes<MOST> {
    ghost use Rattle.std.specs.Str.{bytes_eq};
    ghost use Rattle.std.specs.Cmp.Rules.{comparing};
    ghost use Rattle.std.proofs.Common.{rules};
    ghost use Rattle.std.proofs.lemmas.Cmp.{nat_list_eq_equiv};

    ghost eq = { bytes_eq };

    ghost laws = { Prim.search (comparing, rules, nat_list_eq_equiv) };

    fn eq(&self, other: &FewBytes<MOST>) -> bool {
        self.bytes() == other.bytes()
    }
}

impl<const MOST: usize> Eq for FewBytes<MOST> {
    ghost use Rattle.std.specs.Cmp.Rules.{comparing};
    ghost use Rattle.std.proofs.Common.{rules};
    ghost use Rattle.std.proofs.lemmas.Cmp.{nat_list_eq_equiv};

    ghost laws = { Prim.search (comparing, rules, nat_list_eq_equiv) };
}

impl<const MOST: usize> fmt::Debug for FewBytes<MOST> {
    fn fmt<W: fmt::Write>(&self, f: &mut fmt::Formatter<W>) -> fmt::Result {
        fmt::Debug::fmt(&self.bytes(), f)
    }
}
