//! Extended frames of this project's profile of ITU-T G.988, beside baseline frames: frames of
//! either set both ways, a reader of a stream of both, and the text of either. What they say is of
//! `extended_contents`, whose items stand here too.
#![tactic(auto)]

mod any_frame;
mod buffer;
mod decoding;
mod encoding;
mod front;
mod stream;
mod texts;

pub use any_frame::AnyFrame;
pub use buffer::make_room;
pub use decoding::decode_any;
pub use encoding::encode_long;
pub use extended_contents::{
    LongFrame, LongMessage, LongNotice, LongRequest, LongResponse, Pieces, Rows, fits_long_frame,
    has_valid_long_window, read_long, write_long,
};
pub use extended_spec::{AnyFault, AnyStreamFault, LongFault, MAX_LONG_CONTENTS};
pub use front::{Shown, front_message_fault, front_shown, push_front_text};
pub use stream::{AnyFrames, TakenAny};
pub use texts::{push_text_any, text_any};
