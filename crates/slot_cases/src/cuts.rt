//! A request whose device call is cut with each pick.

use crate::calls::MemoryCalls;
use crate::said::Said;
use case_lines::{NoMemory, hex_of};
use slot_disk::Pick;
use slot_spec::HEADER_BYTES;

/// The calls by which a disk is made on which a request is cut: `ff` is committed in slot 0, and
/// `ffff` goes into slot 1.
const BEFORE: [&[&str]; 5] = [
    &["disk", "4128"],
    &["format", "16", "ff"],
    &["begin", "1", "2"],
    &["put", "ffff"],
    &["seal", "0000ffff", "2"],
];

/// How many bytes each slot of that disk has room for.
const ROOM: u64 = 16;

/// What the disk may boot: the first image in slot 0, or the second one in slot 1.
const IMAGES: [&str; 2] = ["0 1 000000ff ff", "1 2 0000ffff ffff"];

impl MemoryCalls {
    /// After so many of the calls before, the request whose device call of this number is cut, with
    /// each pick: how many of the disks boot the first image, and how many the second.
    pub(crate) fn cuts(
        &mut self,
        lines: u64,
        call: u64,
        request: &[&str],
    ) -> Result<String, NoMemory> {
        let mut counts = [0u64; 2];
        self.count_cut(lines, call, Pick::Old, request, &mut counts)?;
        self.count_cut(lines, call, Pick::New, request, &mut counts)?;
        for byte in 0..=255u8 {
            self.count_cut(lines, call, Pick::Byte(byte), request, &mut counts)?;
        }
        let [first, second] = counts;
        Ok(format!(in self.alloc; "{first} {second}")?)
    }

    fn count_cut(
        &mut self,
        lines: u64,
        call: u64,
        pick: Pick,
        request: &[&str],
        counts: &mut [u64; 2],
    ) -> Result<(), NoMemory> {
        self.prepare(lines)?;
        self.fuse(call, pick);
        let _said = self.change(request)?;
        self.power();
        let booted = self.booted()?;
        for slot in 0..2usize {
            if booted.as_str() == IMAGES[slot] {
                counts[slot] = counts[slot].saturating_add(1);
            }
        }
        Ok(())
    }

    fn prepare(&mut self, lines: u64) -> Result<(), NoMemory> {
        let mut line = 0u64;
        for words in BEFORE {
            if line < lines {
                self.change(words)?;
            }
            line = line.saturating_add(1);
        }
        Ok(())
    }

    /// The committed slot of the disk, once it is mounted, with its image's length and check value,
    /// and the bytes that stand there.
    fn booted(&mut self) -> Result<String, NoMemory> {
        let _said: Said = self.disk.change(&["mount", "4128"])?;
        for slot in 0..2u8 {
            if self.disk.committed() == Some(slot) {
                return self.image(slot);
            }
        }
        Said::Absent.text(self.alloc)
    }

    fn image(&mut self, slot: u8) -> Result<String, NoMemory> {
        let Some(view) = self.disk.view(slot) else {
            return Said::NotValid.text(self.alloc);
        };
        let place = HEADER_BYTES.saturating_add(ROOM.saturating_mul(u64::from(slot)));
        let bytes = self.disk.read(place, view.length)?;
        let crc = hex_of(self.alloc, &view.crc.to_be_bytes())?;
        let length = view.length;
        Ok(format!(in self.alloc; "{slot} {length} {crc} {bytes}")?)
    }
}
