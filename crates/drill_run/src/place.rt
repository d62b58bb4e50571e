//! Where the bytes end that came of a line.

ghost use Rattle.std.specs.Prelude.{◌≡◌};
ghost use Rattle.drill_run.specs.Tallied.{place_after_space};

/// A place in a line of the trace.
#[derive(Clone, Copy, Debug, PartialEq, Eq)]
pub(crate) enum Place {
    /// In the event's number.
    Number,
    /// In the word after it.
    Word,
    /// After that word.
    After,
}

impl Place {
    /// The place after a space.
    pub(crate) fn after_space(self) -> Place
        ensures value { result ≡ place_after_space self }
    {
        match self {
            Place::Number => Place::Word,
            Place::Word => Place::After,
            Place::After => Place::After,
        }
    }
}
