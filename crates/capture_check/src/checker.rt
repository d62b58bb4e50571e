//! What the check knows of the lines so far: the latest run of each TCI.

ghost use Rattle.std.specs.Prelude.{◌≡◌, ◌+◌, ◌-◌, ◌^◌, ◌<◌, ◌≤◌, length, slice_get, slice_set};
ghost use Rattle.std.specs.Prelude.{Some, None, IfOk};
ghost use Rattle.capture_spec.specs.declared.TheConstants.{TCIS};
ghost use Rattle.capture_spec.specs.declared.Verdict.TheVariants as verdicts;
ghost use Rattle.capture_spec.specs.Runs.{request_at, reply_at, wants_reply};
ghost use Rattle.capture_spec.specs.Breaches.{fits, is_same, line_number, unless, unfit_to};
ghost use Rattle.capture_spec.specs.Breaches.{reply_unlike, request_unlike};
ghost use Rattle.capture_check.specs.Steps.{run_in, last_of, live, continued, asked_run};
ghost use Rattle.capture_check.specs.Steps.{answered_run, reply_breach, request_breach};
ghost use Rattle.capture_check.specs.Steps.{nothing_known, with_last, asked, answered, started};
ghost use Rattle.capture_check.specs.Steps.{found_in, taken_in, Fits};

use capture_spec::{AR, Breach, CaptureItem, CaptureLine, TCIS, TYPES, Verdict};
use omci_core::{NoMemory, Priority, priority_of};
use omci_types::Frame;
use std::alloc::Global;
use std::marker::Model;

/// The latest run of the requests with one TCI, by the places of its lines among all lines.
#[derive(Clone, Copy, Debug, PartialEq, Eq)]
pub(crate) struct Run {
    /// The last request of its TCI so far.
    latest: usize,
    first: usize,
    /// The first request with AR.
    with_ar: Option<usize>,
    /// The first reply.
    reply: Option<usize>,
}

/// What is known of the lines so far.
#[derive(Drop)]
pub(crate) struct Checker {
    /// The latest run of each TCI.
    table: Vec<Option<Run>>,
    /// The place after the last start.
    since: usize,
    /// The last request of low priority, and that of high priority.
    low: Option<usize>,
    high: Option<usize>,
    runs: u64,
    replies: u64,
}

impl Model for Checker {
    ghost use Rattle.std.specs.Prelude.{◌≡◌, length};
    ghost use Rattle.capture_spec.specs.declared.TheConstants.{TCIS};
    ghost use Rattle.capture_check.specs.Steps.{Known};

    ghost Value = { Known };

    ghost view = { λ c. record {
      table = c.table.items;
      since = c.since;
      low = c.low;
      high = c.high;
      runs = c.runs;
      replies = c.replies;
    } };

    ghost invariant = { λ c. length c.table.items ≡ TCIS };
}

/// Whether the unit has to answer a request: whether it has AR.
fn wants_reply(request: &Frame) -> bool
    ensures { result ≡ wants_reply request.now }
{
    request.kind / AR % 2 == 1
}

/// The request at a place.
#[tactic(auto, unfolding(capture_spec::specs::Runs::request_at))]
fn request_at(lines: &[CaptureLine], place: usize) -> Option<Frame>
    ensures { result ≡ request_at lines.now place }
{
    match lines.get(place)?.item {
        CaptureItem::Down(frame) => Some(frame),
        CaptureItem::Up(_) | CaptureItem::Start => None,
    }
}

/// The reply at a place: a frame that came up and is no notice.
#[tactic(auto, unfolding(capture_spec::specs::Runs::reply_at))]
fn reply_at(lines: &[CaptureLine], place: usize) -> Option<Frame>
    ensures { result ≡ reply_at lines.now place }
{
    match lines.get(place)?.item {
        CaptureItem::Up(frame) => { if frame.tci == 0 { None } else { Some(frame) } }
        CaptureItem::Down(_) | CaptureItem::Start => None,
    }
}

/// The number of the line at a place.
#[tactic(auto, unfolding(capture_spec::specs::Breaches::line_number))]
fn line_number(lines: &[CaptureLine], place: usize) -> u64
    ensures { result ≡ line_number lines.now place }
{
    match lines.get(place) {
        Some(line) => line.line,
        None => 0,
    }
}

/// Whether a reply is of the type and the entity of a request.
fn fits(reply: &Frame, request: Option<Frame>) -> bool
    ensures { result ≡ fits reply.now request }
{
    match request {
        Some(request) => {
            reply.kind % TYPES == request.kind % TYPES
                && reply.entity.class == request.entity.class
                && reply.entity.instance == request.entity.instance
        }
        None => true,
    }
}

/// Whether two frames have the same bytes.
fn is_same(frame: &Frame, other: Option<Frame>) -> bool
    ensures { result ≡ is_same frame.now other }
{
    match other {
        Some(other) => {
            frame.tci == other.tci
                && frame.kind == other.kind
                && frame.entity.class == other.entity.class
                && frame.entity.instance == other.entity.instance
                && frame.contents == other.contents
        }
        None => true,
    }
}

/// A breach, unless the line is as it should be.
fn unless(right: bool, kind: u8, earlier: u64) -> Option<Breach>
    ensures { result ≡ unless right kind earlier }
{
    if right {
        None
    } else {
        Some(Breach { kind, earlier })
    }
}

/// What is wrong with a reply, compared with the first request of its run.
fn unfit_to(lines: &[CaptureLine], reply: &Frame, first: usize) -> Option<Breach>
    ensures { result ≡ unfit_to lines.now reply.now first }
{
    unless(
        fits(reply, request_at(lines, first)),
        2,
        line_number(lines, first),
    )
}

/// What is wrong with a reply, compared with the first reply of its run.
fn reply_unlike(lines: &[CaptureLine], reply: &Frame, first: Option<usize>) -> Option<Breach>
    ensures { result ≡ reply_unlike lines.now reply.now first }
{
    let first = first?;
    unless(
        is_same(reply, reply_at(lines, first)),
        3,
        line_number(lines, first),
    )
}

/// What is wrong with a request, compared with the first one with AR of its run.
fn request_unlike(lines: &[CaptureLine], request: &Frame, first: Option<usize>) -> Option<Breach>
    ensures { result ≡ request_unlike lines.now request.now first }
{
    let first = first?;
    unless(
        is_same(request, request_at(lines, first)),
        4,
        line_number(lines, first),
    )
}

/// What is wrong with a reply of a run, or of no run.
fn reply_breach(lines: &[CaptureLine], reply: &Frame, run: Option<Run>) -> Option<Breach>
    ensures { result ≡ reply_breach lines.now reply.now run }
{
    let Some(run) = run else {
        return Some(Breach {
            kind: 1,
            earlier: 0,
        });
    };
    match unfit_to(lines, reply, run.first) {
        Some(breach) => Some(breach),
        None => reply_unlike(lines, reply, run.reply),
    }
}

/// What is wrong with a request that goes on with a run, or begins one.
fn request_breach(lines: &[CaptureLine], request: &Frame, run: Option<Run>) -> Option<Breach>
    ensures { result ≡ request_breach lines.now request.now run }
{
    if wants_reply(request) {
        request_unlike(lines, request, run?.with_ar)
    } else {
        None
    }
}

/// A run with one more request, or one that begins with it.
fn asked_run(wants: bool, place: usize, run: Option<Run>) -> Run
    ensures { result ≡ asked_run wants place run }
{
    let with_ar = if wants { Some(place) } else { None };
    match run {
        Some(run) => Run {
            latest: place,
            with_ar: run.with_ar.or(with_ar),
            ..run
        },
        None => Run {
            latest: place,
            first: place,
            with_ar,
            reply: None,
        },
    }
}

/// A run with one more reply.
fn answered_run(place: usize, run: Run) -> Run
    ensures { result ≡ answered_run place run }
{
    Run {
        reply: run.reply.or(Some(place)),
        ..run
    }
}

/// The latest run of a TCI.
fn run_at(table: &[Option<Run>], tci: u16) -> Option<Run>
    ensures { result ≡ run_in (slice_get table.now tci) }
{
    match table.get(usize::from(tci)) {
        Some(run) => *run,
        None => None,
    }
}

/// Puts the latest run of a TCI into its place.
fn put_run(table: &mut [Option<Run>], tci: u16, run: Run)
    requires { length table.old ≡ TCIS }
    ensures { table.new ≡ slice_set table.old tci (Some run) }
{
    table[usize::from(tci)] = Some(run);
}

impl Checker {
    /// No line is known. `NoMemory` where there is no room for the latest run of each TCI.
    #[tactic(auto, unfolding(crate::specs::Steps::nothing_known))]
    pub(crate) fn new(alloc: Global) -> Result<Checker, NoMemory>
        ensures { IfOk result (λ checker. checker ≡ nothing_known) }
    {
        Ok(Checker {
            table: vec![in alloc; None; TCIS]?,
            since: 0,
            low: None,
            high: None,
            runs: 0,
            replies: 0,
        })
    }

    /// The last request of the priority of a TCI.
    fn last(&self, tci: u16) -> Option<usize>
        ensures { result ≡ last_of tci self.now }
    {
        match priority_of(tci) {
            Priority::Low => self.low,
            Priority::High => self.high,
        }
    }

    /// The latest run of a TCI, if it is of the span since the last start.
    #[tactic(auto, unfolding(crate::specs::Steps::live))]
    fn live(&self, tci: u16) -> Option<Run>
        ensures { result ≡ live tci self.now }
    {
        let run = run_at(&self.table, tci)?;
        if self.since <= run.latest {
            Some(run)
        } else {
            None
        }
    }

    /// The run that a request with a TCI goes on with: the one of this span whose last request is
    /// the last of its priority.
    #[tactic(auto, unfolding(crate::specs::Steps::continued))]
    fn continued(&self, tci: u16) -> Option<Run>
        ensures { result ≡ continued tci self.now }
    {
        let run = self.live(tci)?;
        if self.last(tci) == Some(run.latest) {
            Some(run)
        } else {
            None
        }
    }

    /// Notes that the last request of the priority of a TCI stands at a place.
    #[tactic(auto, unfolding(crate::specs::Steps::with_last))]
    fn note_last(&mut self, tci: u16, place: usize)
        ensures { self.new ≡ with_last tci place self.old }
    {
        match priority_of(tci) {
            Priority::Low => self.low = Some(place),
            Priority::High => self.high = Some(place),
        }
    }

    /// Takes a request.
    #[tactic(auto, unfolding(crate::specs::Steps::asked, crate::specs::Steps::with_last))]
    fn ask(&mut self, lines: &[CaptureLine], place: usize, request: &Frame) -> Option<Breach>
        requires few { self.old.runs < 2 ^ 64 - 1 }
        ensures breach { result ≡ request_breach lines.now request.now
            (continued request.now.tci self.old) }
        ensures value { self.new ≡ asked place request.now self.old }
    {
        let run = self.continued(request.tci);
        if run.is_none() {
            self.runs += 1;
        }
        put_run(
            &mut self.table,
            request.tci,
            asked_run(wants_reply(request), place, run),
        );
        self.note_last(request.tci, place);
        request_breach(lines, request, run)
    }

    /// Takes a reply.
    #[tactic(auto, unfolding(crate::specs::Steps::answered))]
    fn answer(&mut self, lines: &[CaptureLine], place: usize, reply: &Frame) -> Option<Breach>
        requires few { self.old.replies < 2 ^ 64 - 1 }
        ensures breach { result ≡ reply_breach lines.now reply.now (live reply.now.tci self.old) }
        ensures value { self.new ≡ answered place reply.now self.old }
    {
        let run = self.live(reply.tci);
        self.replies += 1;
        if let Some(run) = run {
            put_run(&mut self.table, reply.tci, answered_run(place, run));
        }
        reply_breach(lines, reply, run)
    }

    /// Takes a start.
    fn start(&mut self, place: usize)
        requires { place < 2 ^ 64 - 1 }
        ensures { self.new ≡ started place self.old }
    {
        self.since = place + 1;
    }

    /// Takes the line at a place, which has this item, after the lines before it. Says what is
    /// wrong with it.
    pub(crate) fn take(
        &mut self,
        lines: &[CaptureLine],
        place: usize,
        item: CaptureItem,
    ) -> Option<Breach>
        requires there { place < 2 ^ 64 - 1 }
        requires few { (self.old.runs ≤ place) × (self.old.replies ≤ place) }
        ensures breach { result ≡ found_in lines.now (Some item) self.old }
        ensures value { self.new ≡ taken_in place (Some item) self.old }
        ensures fits { Fits (Some item) }
    {
        match item {
            CaptureItem::Down(request) => self.ask(lines, place, &request),
            CaptureItem::Up(frame) if frame.tci == 0 => None,
            CaptureItem::Up(frame) => self.answer(lines, place, &frame),
            CaptureItem::Start => {
                self.start(place);
                None
            }
        }
    }

    /// What the check says where no line is a breach.
    pub(crate) fn verdict(&self) -> Verdict
        ensures { result ≡ verdicts.Ok self.now.runs self.now.replies }
    {
        Verdict::Ok {
            runs: self.runs,
            replies: self.replies,
        }
    }
}
