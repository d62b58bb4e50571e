//! The window that comes.
ghost use Rattle.std.specs.Prelude.{◌≡◌, min};
ghost use Rattle.window_spec.specs.Incoming.{no_window};
ghost use Rattle.store_spec.specs.declared.TheConstants.{MOST_GRANTED};

use download_window::Inbox;
use store_spec::MOST_GRANTED;

/// The most sections that a window may have, and what is held of the one that comes. It says
/// something only while a download runs.
#[derive(Drop)]
pub(crate) struct Coming {
    pub(crate) granted: u16,
    pub(crate) inbox: Inbox,
}

impl Coming {
    /// Nothing is held, and nothing granted.
    pub(crate) fn new() -> Coming
        ensures granted { result.granted ≡ 0 }
        ensures window { result.inbox ≡ no_window }
    {
        Coming {
            granted: 0,
            inbox: Inbox::new(),
        }
    }

    /// A download begins, for which windows of so many sections were asked: no more are granted
    /// than [`MOST_GRANTED`].
    pub(crate) fn grant(&mut self, asked: u16)
        ensures granted { self.new.granted ≡ min asked MOST_GRANTED }
        ensures window { self.new.inbox ≡ no_window }
    {
        self.granted = asked.min(MOST_GRANTED);
        self.inbox.clear();
    }
}
