//! An extended frame.

ghost use Rattle.std.specs.Prelude.{◌≡◌, ◌≤◌, length, IfOk};
ghost use Rattle.extended_spec.specs.Frames.{Long};

use extended_spec::MAX_LONG_CONTENTS;
use omci_core::{Bytes, NoMemory};
use omci_types::EntityId;
use std::alloc::Global;
use std::marker::Model;

/// An extended frame: its TCI, type byte, entity and contents. Contracts see these four.
#[derive(Debug, Drop)]
pub struct LongFrame {
    tci: u16,
    kind: u8,
    entity: EntityId,
    contents: Bytes,
}

impl Model for LongFrame {
    ghost use Rattle.std.specs.Prelude.{◌≤◌, length};
    ghost use Rattle.extended_spec.specs.Frames.{Long};
    ghost use Rattle.extended_spec.specs.declared.TheConstants.{MAX_LONG_CONTENTS};

    ghost Value = { Long };

    ghost view = { λ f. record {
      tci = f.tci;
      kind = f.kind;
      entity = f.entity;
      contents = f.contents;
    } };

    ghost invariant = { λ f. length f.contents ≤ MAX_LONG_CONTENTS };
}

impl LongFrame {
    /// A frame with a copy of these contents. `NoMemory` where there is no room for them.
    pub fn new(
        alloc: Global,
        tci: u16,
        kind: u8,
        entity: EntityId,
        contents: &[u8],
    ) -> Result<LongFrame, NoMemory>
        requires { length contents.now ≤ MAX_LONG_CONTENTS }
        ensures made { IfOk result (λ frame. frame
            ≡ record { tci = tci; kind = kind; entity = entity; contents = contents.now }) }
    {
        let contents = Bytes::of(alloc, contents)?;
        Ok(LongFrame {
            tci,
            kind,
            entity,
            contents,
        })
    }

    // A frame with these contents, which are not copied.
    pub(crate) fn from_vec(tci: u16, kind: u8, entity: EntityId, contents: Vec<u8>) -> LongFrame
        requires { length contents.items ≤ MAX_LONG_CONTENTS }
        ensures made { result
            ≡ record { tci = tci; kind = kind; entity = entity; contents = contents.items } }
    {
        let contents = Bytes::from_vec(contents);
        LongFrame {
            tci,
            kind,
            entity,
            contents,
        }
    }

    /// The transaction correlation identifier.
    pub fn tci(&self) -> u16
        ensures value { result ≡ self.now.tci }
    {
        self.tci
    }

    /// The type byte.
    pub fn kind(&self) -> u8
        ensures value { result ≡ self.now.kind }
    {
        self.kind
    }

    /// The entity.
    pub fn entity(&self) -> EntityId
        ensures value { result ≡ self.now.entity }
    {
        self.entity
    }

    /// The contents: at most 1,966 bytes.
    pub fn contents(&self) -> &[u8]
        ensures value { result.now ≡ self.now.contents }
        ensures bound { length self.now.contents ≤ MAX_LONG_CONTENTS }
    {
        self.contents.bytes()
    }
}
