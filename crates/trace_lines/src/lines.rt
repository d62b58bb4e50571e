//! The lines that are gathered before they are written.

ghost use Rattle.std.specs.Prelude.{◌≡◌, []};

use std::alloc::Global;
use std::marker::Model;

/// A list of bytes: lines of a trace. Whoever runs an end holds it; [`push_line`](crate::push_line)
/// and [`push_reports`](crate::push_reports) append to it.
#[derive(Drop)]
pub struct Lines {
    pub(crate) text: Vec<u8>,
}

impl Model for Lines {
    ghost use Rattle.std.specs.Prelude.{List, ℕ};

    ghost Value = { List ℕ };

    ghost view = { λ l. l.text.items };
}

impl Lines {
    /// No line.
    pub fn new(alloc: Global) -> Lines
        ensures empty { result ≡ [] }
    {
        Lines {
            text: Vec::new(alloc),
        }
    }

    /// The lines' bytes.
    pub fn bytes(&self) -> &[u8]
        ensures value { result.now ≡ self.now }
    {
        &self.text
    }

    /// Drops all lines. Their memory is kept for the next ones.
    pub fn clear(&mut self)
        ensures empty { self.new ≡ [] }
    {
        self.text.clear();
    }
}
