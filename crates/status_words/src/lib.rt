//! The words for the exit statuses of the program, and for the reasons for which an input is
//! refused: what stands on stderr where a run isn't done to its end.
#![tactic(auto)]

/// What happened, and what to do, where a run ends with this status. Status 2 has its words by
/// `reason_words`; of 0 and of a number that is no status nothing is said.
pub fn status_words(status: u8) -> &'static str {
    match status {
        1 => USAGE,
        3 => "the input can't be read: see that it can be read to its end",
        4 => "the output can't be written: see that it takes all, and that its disk isn't full",
        5 => "the disk failed: see that FILE can be opened, read and written",
        6 => "the link failed: see that ADDRESS is an address and a port that can be used",
        7 => "no image slots, or no image in the committed one: omci flash FILE makes a disk",
        8 => "the input has more than 16,777,216 bytes: cut it into parts",
        9 => "memory ran out: give the program more, or a shorter input",
        10 => "the image is empty or has more than 1,048,576 bytes, and FILE wasn't opened",
        _ => "",
    }
}

/// The words of each command, and what it reads.
const USAGE: &str = "usage: omci replay < SCRIPT, omci show < FRAMES, omci check < FRAMES, omci \
    meter < COUNTS, omci capture < PACKETS, omci drill N, omci olt ADDRESS TURNS < \
    ORDERS, omci unit ADDRESS FILE TURNS, omci flash FILE < IMAGE";

/// Why an input is refused.
pub fn reason_words(reason: u8) -> &'static str {
    match reason {
        1 => "a word that is unknown or missing, or one too many",
        2 => "a number that is malformed or out of range",
        3 => "hex that is malformed or of a length that isn't allowed",
        4 => "a header that is missing or has a fault",
        5 => "noise that is read as a frame",
        11 => "its byte 4 is neither 0a nor 0b",
        12 => "it isn't whole, and the stream ends",
        13 => "its bytes 41 to 44 aren't 00 00 00 28",
        14 => "its check value isn't that of the bytes before it",
        15 => "it gives more than 1,966 contents bytes",
        16 => "its contents end before the message's fields do",
        22 => "the high bits of its type byte are those of no message of its type",
        41 => "its bytes are no baseline frame",
        42 => "its frame doesn't go that way",
        _ => "a fault",
    }
}

/// What the place of a refused input counts: lines from 1, or of a stream the bytes before the frame.
pub fn place_words(reason: u8) -> &'static str {
    match reason {
        11..=16 | 22 => "the frame at byte",
        _ => "line",
    }
}
