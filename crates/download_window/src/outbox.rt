//! The manager's side: an image in windows of sections.

ghost use Rattle.std.specs.Prelude.{◌≡◌, ◌+◌, ◌<◌, ◌≤◌, not, length, slice_get};
ghost use Rattle.message_spec.specs.declared.TheConstants.{MAX_WINDOW};
ghost use Rattle.window_spec.specs.declared.TheConstants.{MAX_IMAGE_BYTES};
ghost use Rattle.window_spec.specs.Outgoing.{section_count, section_at, new_outgoing};
ghost use Rattle.window_spec.specs.Outgoing.{sections_left, window_count, window_sections};
ghost use Rattle.window_spec.specs.Outgoing.{is_last, after_window};

use crate::image::Image;
use omci_core::front_filled;
use std::marker::Model;
use window_spec::{MAX_IMAGE_BYTES, MAX_WINDOW, SECTION_BYTES};

/// An image that is sent window by window, each of its sections once. A manager's job holds it;
/// [`advance`](Outbox::advance) alone changes it. Contracts see the image, the most sections of a
/// window and the place of the first section of the window that is sent. No call takes memory.
#[derive(Debug, Drop)]
pub struct Outbox {
    image: Image,
    count: usize,
    most: u16,
    first: usize,
}

impl Model for Outbox {
    ghost use Rattle.std.specs.Prelude.{◌≡◌, ◌≤◌, ◌<◌};
    ghost use Rattle.message_spec.specs.declared.TheConstants.{MAX_WINDOW};
    ghost use Rattle.window_spec.specs.declared.TheConstants.{MAX_IMAGE_BYTES};
    ghost use Rattle.window_spec.specs.Outgoing.{Outgoing, section_count};

    ghost Value = { Outgoing };

    ghost view = { λ o. record { image = o.image; most = o.most; first = o.first } };

    ghost invariant = { λ o. (1 ≤ o.most) × (o.most ≤ MAX_WINDOW)
        × (o.first < o.count) × (o.count ≡ section_count o.image)
        × (o.count ≤ MAX_IMAGE_BYTES) };
}

/// How many sections an image has.
#[tactic(auto, unfolding(window_spec::specs::Outgoing::section_count))]
fn count_of(image: &Image) -> usize
    ensures value { result ≡ section_count image.now }
    ensures some { 1 ≤ result }
    ensures most { result ≤ MAX_IMAGE_BYTES }
{
    (image.bytes().len() + (SECTION_BYTES - 1)) / SECTION_BYTES
}

/// The section of an image in a place. The last one is filled with zeros.
#[tactic(auto, unfolding(window_spec::specs::Outgoing::section_count, window_spec::specs::Outgoing::section_at))]
fn section_of(image: &Image, place: usize) -> [u8; SECTION_BYTES]
    requires { place < section_count image.now }
    ensures value { result ≡ section_at place image.now }
{
    let bytes = image.bytes();
    front_filled(&bytes[SECTION_BYTES * place..])
}

impl Outbox {
    /// The image with the first of its windows, which have at most so many sections, 1 to
    /// [`MAX_WINDOW`].
    pub fn new(image: Image, window: u16) -> Outbox
        requires some { 1 ≤ window }
        requires most { window ≤ MAX_WINDOW }
        ensures value { result ≡ new_outgoing image window }
    {
        let count = count_of(&image);
        Outbox {
            image,
            count,
            most: window,
            first: 0,
        }
    }

    /// How many sections the window has.
    pub fn sections(&self) -> u16
        ensures value { result ≡ window_count self.now }
        ensures some { 1 ≤ result }
        ensures most { result ≤ MAX_WINDOW }
    {
        let left = self.left();
        if left < usize::from(self.most) {
            left as u16
        } else {
            self.most
        }
    }

    /// The window's section with this number. The image's last one is filled with zeros.
    pub fn section(&self, number: u16) -> [u8; SECTION_BYTES]
        requires { number < window_count self.now }
        ensures value { result ≡ section_at (self.now.first + number) self.now.image }
        ensures section { slice_get (window_sections self.now) number ≡ Some result }
    {
        section_of(&self.image, self.first + usize::from(number))
    }

    /// Goes on to the next window. False exactly where none is left: the window is then the
    /// image's last, and stays.
    #[tactic(auto, unfolding(window_spec::specs::Outgoing::after_window))]
    pub fn advance(&mut self) -> bool
        ensures answer { result ≡ not (is_last self.old) }
        ensures window { self.new ≡ after_window self.old }
    {
        if self.left() <= usize::from(self.most) {
            return false;
        }
        self.first += usize::from(self.most);
        true
    }

    /// How many sections are left, those of the window among them.
    fn left(&self) -> usize
        ensures value { result ≡ sections_left self.now }
        ensures some { 1 ≤ result }
    {
        self.count - self.first
    }
}
