//! The top call of the program: what each command line does with the source, the sink, the disk and
//! the link.
#![tactic(auto)]

ghost use Rattle.std.specs.Prelude.{◌≡◌, ◌≢◌, ◌↔◌, ◌<◌, ◌≤◌, ℕ, false, List, [], Some, None, Ok, Err, length};
ghost use Rattle.omci_core.specs.Causes.{Rose};
ghost use Rattle.script_spec.specs.Script.{Script, Orders};
ghost use Rattle.script_spec.specs.Grammar.{Writes, WritesOrders};
ghost use Rattle.script_spec.specs.Fault.{fault, orders_fault};
ghost use Rattle.slot_spec.specs.Slots.{SlotPair};
ghost use Rattle.slot_spec.specs.Layout.{StandsAt};
ghost use Rattle.image_store.specs.Starts.{IsUnit};
ghost use Rattle.command_lines.specs.Commands.{command_of};
ghost use Rattle.omci_top.specs.Calls.{reads_source, writes_sink, calls_disk, calls_link, runs_world};
ghost use Rattle.omci_top.specs.Answers.{AnswersReplay};
ghost use Rattle.omci_top.specs.Drills.{AnswersDrill};
ghost use Rattle.omci_top.specs.Filters.{AnswersFilter, filtered};
ghost use Rattle.omci_top.specs.Olts.{AnswersOlt};
ghost use Rattle.omci_top.specs.Units.{AnswersUnit};
ghost use Rattle.omci_top.specs.Flashes.{AnswersFlash, IsTooLarge};
ghost use Rattle.extended_spec.specs.Frames.{Any};
ghost use Rattle.show_spec.specs.Shown.{Passes, none_refused, no_message_refused};
ghost use Rattle.omci_top.specs.Shows.{AnswersShow, AnswersCheck, HasFault, HasNoFault};

mod drill;
mod filter;
mod flash;
mod olt;
mod replay;
mod show;
mod status;
mod streams;
mod unit;

pub use command_lines::{Command, Filter, command_of};
pub use flash::FLASH_ROOM;
pub use link_replay::World;
use omci_core::{Sink, Source, Words};
use omci_link::Link;
use replay::Replayed;
use slot_disk::Disk;
pub use status::Status;
use std::alloc::Global;
pub use streams::LARGEST_INPUT;

/// What a call came to.
#[derive(Drop)]
pub struct End<D: Disk> {
    /// How it ended.
    pub status: Status,
    /// The disk that it was given.
    pub disk: D,
    /// The world that ran the events, exactly where a replay or a drill is done.
    pub world: Option<World>,
}

/// Does what the words ask for. With `replay` a script is read whole from the source and run over
/// both ends, and its trace is written to the sink. With `show` a stream of frames of both message
/// sets is read from the source, and the text of each frame is written; with `check` its frames are
/// counted. With `meter` or `capture` a text is read whole from the source, and what that
/// filter makes of it is written. With `flash FILE` an image is read whole from the source, and the disk of that name
/// becomes one of two slots with the image in slot 0. With `drill N` the script that N makes is run
/// over both ends, and one line that sums its trace up is written. With `olt ADDRESS TURNS` orders
/// are read whole, and the manager runs over them and over the link, for at most so many turns.
/// With `unit ADDRESS FILE TURNS` the unit whose image slots are on the disk of that name runs over
/// the link, for at most so many turns.
pub fn omci<S: Source, K: Sink, D: Disk, L: Link>(
    alloc: Global,
    words: &Words,
    source: &mut S,
    sink: &mut K,
    disk: D,
    link: &mut L,
) -> End<D>
    // What each command reads and writes, by its answer.
    ensures replay { command_of words.now ≡ Some Command.Replay
        → AnswersReplay result.status result.world
        (S.left source.old) (S.left source.new) (K.written sink.old) (K.written sink.new)
        (S.faults source.old) (S.faults source.new) (K.faults sink.old) (K.faults sink.new) }
    ensures show { command_of words.now ≡ Some Command.Show → AnswersShow result.status
        (S.left source.old) (S.left source.new) (K.written sink.old) (K.written sink.new)
        (S.faults source.old) (S.faults source.new) (K.faults sink.old) (K.faults sink.new) }
    ensures check { command_of words.now ≡ Some Command.Check → AnswersCheck result.status
        (S.left source.old) (S.left source.new) (K.written sink.old) (K.written sink.new)
        (S.faults source.old) (S.faults source.new) (K.faults sink.old) (K.faults sink.new) }
    ensures filter { (filter : Filter) → command_of words.now ≡ Some (Command.Filter filter)
        → AnswersFilter result.status filter
        (S.left source.old) (S.left source.new) (K.written sink.old) (K.written sink.new)
        (S.faults source.old) (S.faults source.new) (K.faults sink.old) (K.faults sink.new) }
    ensures flash { command_of words.now ≡ Some Command.Flash
        → AnswersFlash D.seen D.may_leave D.rig D.faults result.status disk result.disk
        (S.left source.old) (S.left source.new) (S.faults source.old) (S.faults source.new) }
    ensures drill { (seed : ℕ) → command_of words.now ≡ Some (Command.Drill seed)
        → AnswersDrill result.status result.world seed
        (K.written sink.old) (K.written sink.new) (K.faults sink.old) (K.faults sink.new) }
    ensures olt { (turns : ℕ) → command_of words.now ≡ Some (Command.Olt turns)
        → AnswersOlt L.left L.sent L.faults result.status turns link.old link.new
        (S.left source.old) (S.left source.new) (K.written sink.old) (K.written sink.new)
        (S.faults source.old) (S.faults source.new) (K.faults sink.old) (K.faults sink.new) }
    ensures unit { (turns : ℕ) → command_of words.now ≡ Some (Command.Unit turns)
        → AnswersUnit D.seen D.may_leave D.clock D.left_since D.faults result.status turns disk
        result.disk (L.left link.old) (L.left link.new) (L.sent link.old) (L.sent link.new)
        (K.written sink.old) (K.written sink.new) (L.faults link.old) (L.faults link.new)
        (K.faults sink.old) (K.faults sink.new) }
    ensures usage { (result.status ≡ Status.Usage) ↔ (command_of words.now ≡ None) }

    // What a command doesn't call is as it came; words that are no command line call nothing.
    ensures same_source { reads_source (command_of words.now) ≡ false → source.new ≡ source.old }
    ensures same_sink { writes_sink (command_of words.now) ≡ false → sink.new ≡ sink.old }
    ensures same_disk { calls_disk (command_of words.now) ≡ false → result.disk ≡ disk }
    ensures same_link { calls_link (command_of words.now) ≡ false → link.new ≡ link.old }

    // A replay or a drill that is done gives its world; nothing else gives one.
    ensures no_world { result.status ≢ Status.Done → result.world ≡ None }
    ensures other_world { runs_world (command_of words.now) ≡ false → result.world ≡ None }

    // A sink is untouched where there is nothing to write.
    ensures read_fault_sink { command_of words.now ≢ Some Command.Show
        → result.status ≡ Status.ReadFault → sink.new ≡ sink.old }
    ensures too_long_sink { command_of words.now ≢ Some Command.Show
        → result.status ≡ Status.TooLong → sink.new ≡ sink.old }

    // A fault has its cause, and where none is answered there was none.
    ensures read_fault { result.status ≡ Status.ReadFault
        → Rose (S.faults source.old) (S.faults source.new) }
    ensures read_kept { result.status ≢ Status.ReadFault
        → S.faults source.new ≡ S.faults source.old }
    ensures write_fault { result.status ≡ Status.WriteFault
        → Rose (K.faults sink.old) (K.faults sink.new) }
    ensures write_kept { result.status ≢ Status.WriteFault
        → K.faults sink.new ≡ K.faults sink.old }
    ensures disk_fault { result.status ≡ Status.DiskFault
        → Rose (D.faults disk) (D.faults result.disk) }
    ensures link_fault { result.status ≡ Status.LinkFault
        → Rose (L.faults link.old) (L.faults link.new) }
    ensures link_kept { result.status ≢ Status.LinkFault
        → L.faults link.new ≡ L.faults link.old }
    ensures disk_kept { ((turns : ℕ) → command_of words.now ≢ Some (Command.Unit turns))
        → result.status ≢ Status.DiskFault → D.faults result.disk ≡ D.faults disk }

    // Where no count rises and memory suffices, a script ends Done, a fault is told, and more than
    // 16,777,216 bytes are too long.
    ensures replay_runs { (script : Script) (bytes : List ℕ)
        → command_of words.now ≡ Some Command.Replay → S.left source.old ≡ Some bytes
        → length bytes ≤ LARGEST_INPUT → Writes script bytes
        → ¬ Rose (S.faults source.old) (S.faults source.new)
        → ¬ Rose (K.faults sink.old) (K.faults sink.new)
        → result.status ≢ Status.NoMemory → result.status ≡ Status.Done }
    ensures replay_refuses { (place reason : ℕ) (bytes : List ℕ)
        → command_of words.now ≡ Some Command.Replay → S.left source.old ≡ Some bytes
        → length bytes ≤ LARGEST_INPUT → fault bytes ≡ Some (place, reason)
        → ¬ Rose (S.faults source.old) (S.faults source.new)
        → ¬ Rose (K.faults sink.old) (K.faults sink.new)
        → result.status ≢ Status.NoMemory → result.status ≡ Status.Input place reason }
    ensures replay_stops { (bytes : List ℕ)
        → command_of words.now ≡ Some Command.Replay → S.left source.old ≡ Some bytes
        → LARGEST_INPUT < length bytes
        → ¬ Rose (S.faults source.old) (S.faults source.new)
        → result.status ≢ Status.NoMemory → result.status ≡ Status.TooLong }

    // Likewise a stream of frames of which none is refused is shown or counted to its end, the
    // first fault within 16,777,216 bytes is told, and where there is none more bytes are too long.
    ensures show_runs { (frames : List Any) (bytes : List ℕ)
        → command_of words.now ≡ Some Command.Show → S.left source.old ≡ Some bytes
        → length bytes ≤ LARGEST_INPUT → Passes none_refused bytes frames []
        → ¬ Rose (S.faults source.old) (S.faults source.new)
        → ¬ Rose (K.faults sink.old) (K.faults sink.new)
        → result.status ≢ Status.NoMemory → result.status ≡ Status.Done }
    ensures show_refuses { (frames : List Any) (place reason : ℕ) (bytes : List ℕ)
        → command_of words.now ≡ Some Command.Show → S.left source.old ≡ Some bytes
        → HasFault none_refused bytes frames place reason
        → ¬ Rose (S.faults source.old) (S.faults source.new)
        → ¬ Rose (K.faults sink.old) (K.faults sink.new)
        → result.status ≢ Status.NoMemory → result.status ≡ Status.Input place reason }
    ensures show_stops { (frames : List Any) (bytes : List ℕ)
        → command_of words.now ≡ Some Command.Show → S.left source.old ≡ Some bytes
        → LARGEST_INPUT < length bytes → HasNoFault none_refused bytes frames
        → ¬ Rose (S.faults source.old) (S.faults source.new)
        → ¬ Rose (K.faults sink.old) (K.faults sink.new)
        → result.status ≢ Status.NoMemory → result.status ≡ Status.TooLong }
    ensures check_runs { (frames : List Any) (bytes : List ℕ)
        → command_of words.now ≡ Some Command.Check → S.left source.old ≡ Some bytes
        → length bytes ≤ LARGEST_INPUT → Passes no_message_refused bytes frames []
        → ¬ Rose (S.faults source.old) (S.faults source.new)
        → ¬ Rose (K.faults sink.old) (K.faults sink.new)
        → result.status ≢ Status.NoMemory → result.status ≡ Status.Done }
    ensures check_refuses { (frames : List Any) (place reason : ℕ) (bytes : List ℕ)
        → command_of words.now ≡ Some Command.Check → S.left source.old ≡ Some bytes
        → HasFault no_message_refused bytes frames place reason
        → ¬ Rose (S.faults source.old) (S.faults source.new)
        → ¬ Rose (K.faults sink.old) (K.faults sink.new)
        → result.status ≢ Status.NoMemory → result.status ≡ Status.Input place reason }
    ensures check_stops { (frames : List Any) (bytes : List ℕ)
        → command_of words.now ≡ Some Command.Check → S.left source.old ≡ Some bytes
        → LARGEST_INPUT < length bytes → HasNoFault no_message_refused bytes frames
        → ¬ Rose (S.faults source.old) (S.faults source.new)
        → ¬ Rose (K.faults sink.old) (K.faults sink.new)
        → result.status ≢ Status.NoMemory → result.status ≡ Status.TooLong }

    // A text without a fault is filtered, one with a fault is refused for its first one, and more
    // than 16,777,216 bytes are too long.
    ensures filter_runs { (filter : Filter) (text bytes : List ℕ)
        → command_of words.now ≡ Some (Command.Filter filter) → S.left source.old ≡ Some bytes
        → length bytes ≤ LARGEST_INPUT → filtered filter bytes ≡ Ok text
        → ¬ Rose (S.faults source.old) (S.faults source.new)
        → ¬ Rose (K.faults sink.old) (K.faults sink.new)
        → result.status ≢ Status.NoMemory → result.status ≡ Status.Done }
    ensures filter_refuses { (filter : Filter) (place reason : ℕ) (bytes : List ℕ)
        → command_of words.now ≡ Some (Command.Filter filter) → S.left source.old ≡ Some bytes
        → length bytes ≤ LARGEST_INPUT → filtered filter bytes ≡ Err (place, reason)
        → ¬ Rose (S.faults source.old) (S.faults source.new)
        → ¬ Rose (K.faults sink.old) (K.faults sink.new)
        → result.status ≢ Status.NoMemory → result.status ≡ Status.Input place reason }
    ensures filter_stops { (filter : Filter) (bytes : List ℕ)
        → command_of words.now ≡ Some (Command.Filter filter) → S.left source.old ≡ Some bytes
        → LARGEST_INPUT < length bytes
        → ¬ Rose (S.faults source.old) (S.faults source.new)
        → result.status ≢ Status.NoMemory → result.status ≡ Status.TooLong }

    // And an image of 1 to 1,048,576 bytes is flashed, another one is too large, and more than
    // 16,777,216 bytes are too long.
    ensures flash_runs { (image : List ℕ)
        → command_of words.now ≡ Some Command.Flash → S.left source.old ≡ Some image
        → 1 ≤ length image → length image ≤ FLASH_ROOM
        → ¬ Rose (S.faults source.old) (S.faults source.new)
        → ¬ Rose (D.faults disk) (D.faults result.disk)
        → result.status ≢ Status.NoMemory → result.status ≡ Status.Done }
    ensures flash_refuses { (image : List ℕ)
        → command_of words.now ≡ Some Command.Flash → S.left source.old ≡ Some image
        → length image ≤ LARGEST_INPUT → IsTooLarge image
        → ¬ Rose (S.faults source.old) (S.faults source.new)
        → result.status ≢ Status.NoMemory → result.status ≡ Status.TooLarge }
    ensures flash_stops { (bytes : List ℕ)
        → command_of words.now ≡ Some Command.Flash → S.left source.old ≡ Some bytes
        → LARGEST_INPUT < length bytes
        → ¬ Rose (S.faults source.old) (S.faults source.new)
        → result.status ≢ Status.NoMemory → result.status ≡ Status.TooLong }

    // And a drill ends Done.
    ensures drill_runs { (seed : ℕ) → command_of words.now ≡ Some (Command.Drill seed)
        → ¬ Rose (K.faults sink.old) (K.faults sink.new)
        → result.status ≢ Status.NoMemory → result.status ≡ Status.Done }

    // Orders are run to the end of their run, orders with a fault are refused for it, and more than
    // 16,777,216 bytes are too long.
    ensures olt_runs { (turns : ℕ) (orders : Orders) (bytes : List ℕ)
        → command_of words.now ≡ Some (Command.Olt turns) → S.left source.old ≡ Some bytes
        → length bytes ≤ LARGEST_INPUT → WritesOrders orders bytes
        → ¬ Rose (S.faults source.old) (S.faults source.new)
        → ¬ Rose (K.faults sink.old) (K.faults sink.new)
        → ¬ Rose (L.faults link.old) (L.faults link.new)
        → result.status ≢ Status.NoMemory → result.status ≡ Status.Done }
    ensures olt_refuses { (turns place reason : ℕ) (bytes : List ℕ)
        → command_of words.now ≡ Some (Command.Olt turns) → S.left source.old ≡ Some bytes
        → length bytes ≤ LARGEST_INPUT → orders_fault bytes ≡ Some (place, reason)
        → ¬ Rose (S.faults source.old) (S.faults source.new)
        → ¬ Rose (K.faults sink.old) (K.faults sink.new)
        → ¬ Rose (L.faults link.old) (L.faults link.new)
        → result.status ≢ Status.NoMemory → result.status ≡ Status.Input place reason }
    ensures olt_stops { (turns : ℕ) (bytes : List ℕ)
        → command_of words.now ≡ Some (Command.Olt turns) → S.left source.old ≡ Some bytes
        → LARGEST_INPUT < length bytes
        → ¬ Rose (S.faults source.old) (S.faults source.new)
        → result.status ≢ Status.NoMemory → result.status ≡ Status.TooLong }

    // A unit on a disk that stands for some slots runs for its turns, or until the link is closed;
    // bytes that a mount would refuse are no unit's.
    ensures unit_runs { (turns room : ℕ) (slots : SlotPair) (bytes : List ℕ)
        → command_of words.now ≡ Some (Command.Unit turns) → D.seen disk ≡ Some bytes
        → StandsAt room bytes slots
        → ¬ Rose (K.faults sink.old) (K.faults sink.new)
        → ¬ Rose (L.faults link.old) (L.faults link.new)
        → ¬ Rose (D.faults disk) (D.faults result.disk)
        → result.status ≢ Status.NoMemory → result.status ≡ Status.Done }
    ensures unit_refuses { (turns : ℕ) (bytes : List ℕ)
        → command_of words.now ≡ Some (Command.Unit turns) → D.seen disk ≡ Some bytes
        → ¬ IsUnit (length bytes) bytes
        → ¬ Rose (D.faults disk) (D.faults result.disk)
        → result.status ≢ Status.NoMemory → result.status ≡ Status.NoUnit }
{
    match command_of(words) {
        Some(Command::Replay) => {
            let Replayed { status, world } = replay::replay(alloc, source, sink);
            End {
                status,
                disk,
                world,
            }
        }
        Some(Command::Drill { seed }) => {
            let Replayed { status, world } = drill::drill(alloc, seed, sink);
            End {
                status,
                disk,
                world,
            }
        }
        Some(Command::Flash) => flash::flash(alloc, words.word(1), source, disk),
        Some(Command::Show) => {
            let status = show::show(alloc, source, sink);
            End {
                status,
                disk,
                world: None,
            }
        }
        Some(Command::Check) => {
            let status = show::check(alloc, source, sink);
            End {
                status,
                disk,
                world: None,
            }
        }
        Some(Command::Filter { filter }) => {
            let status = filter::filter(alloc, filter, source, sink);
            End {
                status,
                disk,
                world: None,
            }
        }
        Some(Command::Olt { turns }) => {
            let status = olt::olt(alloc, words.word(1), turns, source, sink, link);
            End {
                status,
                disk,
                world: None,
            }
        }
        Some(Command::Unit { turns }) => {
            unit::unit(alloc, words.word(1), words.word(2), turns, sink, disk, link)
        }
        None => End {
            status: Status::Usage,
            disk,
            world: None,
        },
    }
}
