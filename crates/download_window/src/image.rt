//! An image that is to be sent.

ghost use Rattle.std.specs.Prelude.{◌≡◌, ◌↔◌, ℕ, length, IfOk, OnOk};
ghost use Rattle.window_spec.specs.Outgoing.{IsImageLength};

use omci_core::Bytes;
use std::alloc::Global;
use std::marker::Model;
use thiserror::Error;
use window_spec::MAX_IMAGE_BYTES;

/// Why there is no image.
#[derive(Clone, Copy, Debug, PartialEq, Eq, Error)]
pub enum ImageRefusal {
    /// There is no byte, or more than [`MAX_IMAGE_BYTES`].
    #[error("an image of {size} bytes")]
    Size { size: u64 },
    /// There was no memory for the image.
    #[error("out of memory")]
    NoMemory,
}

/// The bytes of a software image, 1 to [`MAX_IMAGE_BYTES`]. An [`Outbox`](crate::Outbox) holds it,
/// and no call changes it. Contracts see the list of its bytes.
#[derive(Debug, Drop)]
pub struct Image {
    bytes: Bytes,
}

impl Model for Image {
    ghost use Rattle.std.specs.Prelude.{ℕ, List, length};
    ghost use Rattle.window_spec.specs.Outgoing.{IsImageLength};

    ghost Value = { List ℕ };

    ghost view = { λ i. i.bytes };

    ghost invariant = { λ i. IsImageLength (length i.bytes) };
}

impl Image {
    /// An image of these bytes, which are copied. `Size` exactly where they are none or more than
    /// [`MAX_IMAGE_BYTES`]; else `NoMemory` where there is no room for the copy.
    pub fn new(alloc: Global, bytes: &[u8]) -> Result<Image, ImageRefusal>
        ensures copied { IfOk result (λ image. image ≡ bytes.now) }
        ensures fits { OnOk result (IsImageLength (length bytes.now)) }
        ensures size { (size : ℕ) → (result ≡ Err (ImageRefusal.Size size))
            ↔ ((IsImageLength (length bytes.now) → ⊥) × (size ≡ length bytes.now)) }
        ensures memory { result ≡ Err ImageRefusal.NoMemory → IsImageLength (length bytes.now) }
    {
        if bytes.is_empty() || bytes.len() > MAX_IMAGE_BYTES {
            return Err(ImageRefusal::Size {
                size: bytes.len() as u64,
            });
        }
        match Bytes::of(alloc, bytes) {
            Ok(bytes) => Ok(Image { bytes }),
            Err(_) => Err(ImageRefusal::NoMemory),
        }
    }

    /// The image's bytes.
    pub fn bytes(&self) -> &[u8]
        ensures value { result.now ≡ self.now }
        ensures length { IsImageLength (length self.now) }
    {
        self.bytes.bytes()
    }
}
