//! The calls of a line by name.

use crate::image::Sender;
use crate::inbox::Window;
use crate::kept::Replies;
use crate::lane::OneLane;
use crate::link::Link;
use crate::words::no_such_call;
use case_lines::{Cases, NoMemory};
use std::alloc::Global;

/// One of each.
#[derive(Drop)]
pub(crate) struct Calls {
    alloc: Global,
    window: Window,
    sender: Sender,
    replies: Replies,
    lane: OneLane,
    link: Link,
}

impl Calls {
    pub(crate) fn new(alloc: Global) -> Result<Calls, NoMemory> {
        Ok(Calls {
            alloc,
            window: Window::new(alloc),
            sender: Sender::new(alloc),
            replies: Replies::new(alloc),
            lane: OneLane::new(alloc),
            link: Link::new(alloc)?,
        })
    }
}

impl Cases for Calls {
    fn answer(&mut self, words: &[&str]) -> Result<String, NoMemory> {
        match *words {
            ["unit", ref call @ ..] => self.window.answer(call),
            ["olt", ref call @ ..] => self.sender.answer(call),
            ["kept", ref call @ ..] => self.replies.answer(call),
            ["lane", ref call @ ..] => self.lane.answer(call),
            ["link", ref call @ ..] => self.link.answer(call),
            _ => no_such_call(self.alloc),
        }
    }
}
