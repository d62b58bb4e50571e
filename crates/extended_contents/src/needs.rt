//! The bytes that contents need: of the fields of fixed width, and of a list at the end whose last
//! member is cut.

ghost use Rattle.std.specs.Prelude.{◌≡◌, ◌<◌, ◌≤◌, length, drop};
ghost use Rattle.extended_spec.specs.Layouts.{long_layout, fixed_width, piece_size, need_after, list_need, need_of};
ghost use Rattle.extended_contents.specs.Members.{member_size};
ghost use Rattle.message_spec.specs.declared.Kind.TheVariants as kinds;

use extended_spec::{BITMAP_BYTES, PIECE_HEADER_BYTES, ROW_BYTES};
use omci_contents::{Action, Kind};
use omci_frames::number_at;

/// What a list at the end of contents has one after the other.
#[derive(Clone, Copy, Debug, PartialEq, Eq)]
enum Member {
    /// Pieces of the database.
    Piece,
    /// Rows of the alarm table.
    Row,
}

// The bytes from a place on.
pub(crate) fn bytes_from(bytes: &[u8], place: usize) -> &[u8]
    requires { place ≤ length bytes.now }
    ensures value { result.now ≡ drop place bytes.now }
{
    &bytes[place..]
}

// So many bytes has the piece that the bytes begin with.
#[tactic(auto, unfolding(extended_spec::specs::Layouts::piece_size))]
fn piece_size(bytes: &[u8]) -> usize
    ensures value { result ≡ piece_size bytes.now }
    ensures some { 0 < result }
    ensures bound { result ≤ 65543 }
{
    if bytes.len() < 2 {
        PIECE_HEADER_BYTES
    } else {
        PIECE_HEADER_BYTES + usize::from(number_at(bytes, 0))
    }
}

// So many bytes has the member of a list that the bytes begin with.
fn member_size(member: Member, bytes: &[u8]) -> usize
    ensures value { result ≡ member_size member bytes.now }
    ensures some { 0 < result }
    ensures bound { result ≤ 65543 }
{
    match member {
        Member::Piece => piece_size(bytes),
        Member::Row => ROW_BYTES,
    }
}

// The bytes that there would be if the last member of a list were whole, where it is cut.
fn members_need(member: Member, contents: &[u8]) -> Option<usize>
    ensures value { result ≡ need_after (member_size member) 0 0 contents.now }
{
    let mut place = 0;
    while place < contents.len() {
        let size = member_size(member, bytes_from(contents, place));
        if contents.len() - place < size {
            return Some(place + size);
        }
        place += size;
    }
    None
}

// The bytes of a request's fields of fixed width.
fn request_width(action: Action) -> usize
    ensures value { result ≡ fixed_width (long_layout (kinds.Request action)) }
{
    match action {
        Action::Create | Action::Delete | Action::Upload | Action::Reset | Action::Commit => 0,
        Action::Set | Action::Get | Action::AlarmsNext | Action::UploadNext => 2,
        Action::Alarms | Action::Section | Action::Activate | Action::Reboot => 1,
        Action::Start => 1 + 4 + 1 + 2,
        Action::End => 4 + 4 + 1 + 2,
    }
}

// The bytes of a response's fields of fixed width.
fn response_width(action: Action) -> usize
    ensures value { result ≡ fixed_width (long_layout (kinds.Response action)) }
{
    match action {
        Action::AlarmsNext | Action::UploadNext => 0,
        Action::Create => 1 + 2,
        Action::Set => 1 + 2 + 2,
        Action::Get => 1 + 2 + 2 + 2,
        Action::Alarms | Action::Upload => 2,
        Action::Start | Action::Section => 1 + 1,
        Action::Delete
        | Action::Reset
        | Action::End
        | Action::Activate
        | Action::Commit
        | Action::Reboot => 1,
    }
}

// The bytes of a kind's fields of fixed width.
fn kind_width(kind: Kind) -> usize
    ensures value { result ≡ fixed_width (long_layout kind) }
{
    match kind {
        Kind::Request(action) => request_width(action),
        Kind::UnansweredSection => 1,
        Kind::Response(action) => response_width(action),
        Kind::Alarm => BITMAP_BYTES + 1,
        Kind::Change => 2,
    }
}

// The bytes that a list at the end of a response would need, where its last member is cut.
fn response_list_need(action: Action, contents: &[u8]) -> Option<usize>
    ensures value { result ≡ list_need (long_layout (kinds.Response action)) 0 contents.now }
{
    match action {
        Action::AlarmsNext => members_need(Member::Row, contents),
        Action::UploadNext => members_need(Member::Piece, contents),
        Action::Create
        | Action::Delete
        | Action::Set
        | Action::Get
        | Action::Alarms
        | Action::Upload
        | Action::Reset
        | Action::Start
        | Action::Section
        | Action::End
        | Action::Activate
        | Action::Commit
        | Action::Reboot => None,
    }
}

// The bytes that a list at the end would need, where its last member is cut.
#[tactic(auto, using(crate::proofs::Members::no_list))]
fn kind_list_need(kind: Kind, contents: &[u8]) -> Option<usize>
    ensures value { result ≡ list_need (long_layout kind) 0 contents.now }
{
    match kind {
        Kind::Response(action) => response_list_need(action, contents),
        Kind::Request(_) | Kind::UnansweredSection | Kind::Alarm | Kind::Change => None,
    }
}

/// The bytes that the contents of a kind would need, where they end before the fields do.
#[tactic(auto, unfolding(extended_spec::specs::Layouts::need_of))]
pub fn need(kind: Kind, contents: &[u8]) -> Option<usize>
    ensures value { result ≡ need_of (long_layout kind) contents.now }
{
    let width = kind_width(kind);
    if contents.len() < width {
        return Some(width);
    }
    kind_list_need(kind, contents)
}
