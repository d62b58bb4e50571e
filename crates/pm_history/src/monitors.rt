//! The monitors: made, marked and counted in.

ghost use Rattle.std.specs.Prelude.{◌≡◌, ◌<◌, ◌-◌, if◌then◌else◌, Some, None, IfSome};
ghost use Rattle.meter_spec.specs.declared.TheConstants.{FIRST_MONITOR, MONITORS, COUNTERS};
ghost use Rattle.meter_spec.specs.Events.{is_monitor};
ghost use Rattle.pm_history.specs.Steps.{fresh, marked, marked_all, synchronized, synchronized_all, grown, monitor_at, with_monitor};

use meter_spec::{COUNTERS, FIRST_MONITOR, MONITORS, Monitor};

/// The monitors of the four instances.
pub(crate) type Monitors = [Option<Monitor>; MONITORS];

/// The place of an instance among the monitors, if one may have it.
#[tactic(auto, unfolding(meter_spec::specs::Events::is_monitor))]
pub(crate) fn place_of(instance: u16) -> Option<usize>
    ensures value { result ≡ (if is_monitor instance then Some (instance - FIRST_MONITOR) else None) }
    ensures bound { IfSome result (λ place. place < MONITORS) }
{
    let place = usize::from(instance.checked_sub(FIRST_MONITOR)?);
    if place < MONITORS { Some(place) } else { None }
}

/// Whether a monitor may have the instance.
pub(crate) fn is_monitor(instance: u16) -> bool
    ensures { result ≡ is_monitor instance }
{
    place_of(instance).is_some()
}

/// The monitor of an instance, if it is there.
#[tactic(auto, unfolding(crate::specs::Steps::monitor_at))]
pub(crate) fn monitor_at(instance: u16, monitors: &Monitors) -> Option<Monitor>
    ensures { result ≡ monitor_at instance monitors.now }
{
    match place_of(instance) {
        Some(place) => monitors[place],
        None => None,
    }
}

/// Puts the monitor of an instance in the place of the one that was there, or takes that away.
#[tactic(auto, unfolding(crate::specs::Steps::with_monitor))]
pub(crate) fn put_monitor(instance: u16, monitor: Option<Monitor>, monitors: &mut Monitors)
    ensures { monitors.new ≡ with_monitor instance monitor monitors.old }
{
    if let Some(place) = place_of(instance) {
        monitors[place] = monitor;
    }
}

/// A monitor that is made now.
pub(crate) fn fresh(setting: [u8; 2]) -> Monitor
    ensures { result ≡ fresh setting }
{
    Monitor {
        number: 0,
        setting,
        running: [0; COUNTERS],
        finished: [0; COUNTERS],
    }
}

/// A monitor after so many marks that are ticks.
#[tactic(auto, unfolding(crate::specs::Steps::marked))]
fn marked(monitor: Monitor, marks: u32) -> Monitor
    ensures { result ≡ marked marks monitor }
{
    if marks == 0 {
        return monitor;
    }
    Monitor {
        number: ((u32::from(monitor.number) + marks % 256) % 256) as u8,
        setting: monitor.setting,
        running: [0; COUNTERS],
        finished: if marks == 1 {
            monitor.running
        } else {
            [0; COUNTERS]
        },
    }
}

/// Marks each monitor so many times.
#[tactic(auto, using(crate::proofs::Passing::marked_none), unfolding(crate::specs::Steps::marked_all))]
pub(crate) fn mark_all(monitors: &mut Monitors, marks: u32)
    ensures { monitors.new ≡ marked_all marks monitors.old }
{
    if marks == 0 {
        return;
    }
    for place in 0..MONITORS {
        monitors[place] = monitors[place].map(|monitor| marked(monitor, marks));
    }
}

/// Begins each monitor's intervals anew.
#[tactic(auto, unfolding(crate::specs::Steps::synchronized_all))]
pub(crate) fn synchronize_all(monitors: &mut Monitors)
    ensures { monitors.new ≡ synchronized_all monitors.old }
{
    for place in 0..MONITORS {
        monitors[place] = monitors[place].map(|monitor| fresh(monitor.setting));
    }
}

/// Adds to the running counter at a place, which stays at its greatest number.
#[tactic(auto, unfolding(crate::specs::Steps::grown))]
pub(crate) fn grow(monitor: &mut Monitor, at: usize, n: u32)
    requires { at < COUNTERS }
    ensures { monitor.new ≡ grown at n monitor.old }
{
    monitor.running[at] = monitor.running[at].saturating_add(n);
}
