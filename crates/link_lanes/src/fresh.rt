//! The search for the oldest fresh packet of a direction.

ghost use Rattle.std.specs.Prelude.{◌≡◌, ◌+◌, ◌-◌, ◌<◌, ◌≤◌, ◌^◌, true, not, length, drop};
ghost use Rattle.std.specs.Prelude.{slice_get, IfSome, Some};
ghost use Rattle.link_spec.specs.Link.{may_come, is_down, is_fresh, first_fresh};
ghost use Rattle.link_lanes.specs.Latest.{first_of};
ghost use Rattle.link_lanes.specs.Fresh.{sooner};

use crate::latest::Latest;
use crate::ways::Ways;
use link_spec::{Direction, WINDOW, Way};

/// Whether a packet of this way that was sent may come: it isn't below the way's floor, and not too
/// old.
pub(crate) fn may_come(number: u64, way: Way, sent: u64) -> bool
    requires { number + WINDOW < 2 ^ 64 }
    ensures value { result ≡ may_come number way sent }
    ensures floor { result ≡ true → way.floor ≤ number }
{
    way.floor <= number && sent <= number + WINDOW
}

/// Whether the packet at a place of those that are held is a fresh one of the direction.
fn is_fresh_at(latest: &Latest, ways: &Ways, direction: Direction, place: usize) -> bool
    requires countable { latest.now.count ≤ 2 ^ 63 }
    requires held { length latest.now.last ≤ latest.now.count }
    requires there { place < length latest.now.last }
    ensures value { IfSome (slice_get latest.now.last place) (λ s. result
        ≡ is_fresh (is_down direction) (not (is_down direction)) (first_of latest.now + place) s
        ways.now latest.now.count) }
{
    let number = latest.first() + place as u64;
    match latest.tag(place) {
        None => false,
        Some(tag) => {
            let way = ways.way(tag);
            tag.direction == direction && way.mark <= number && may_come(number, way, latest.sent())
        }
    }
}

/// The first fresh packet of the direction from a place of those that are held on, one by one.
fn first_fresh_past(latest: &Latest, ways: &Ways, direction: Direction, start: usize) -> Option<u64>
    requires countable { latest.now.count ≤ 2 ^ 63 }
    requires held { length latest.now.last ≤ latest.now.count }
    requires within { start ≤ length latest.now.last }
    ensures value { result
        ≡ first_fresh (is_down direction) (not (is_down direction)) (first_of latest.now + start)
        (drop start latest.now.last) ways.now latest.now.count }
{
    let first = latest.first();
    for place in start..latest.len() {
        if is_fresh_at(latest, ways, direction, place) {
            return Some(first + place as u64);
        }
    }
    None
}

/// The first fresh packet of the direction from a place of those that are held on. Mostly no packet
/// or one is there from that place on, so these are answered without a loop.
#[inline(always)]
pub(crate) fn first_fresh_from(
    latest: &Latest,
    ways: &Ways,
    direction: Direction,
    start: usize,
) -> Option<u64>
    requires countable { latest.now.count ≤ 2 ^ 63 }
    requires held { length latest.now.last ≤ latest.now.count }
    requires within { start ≤ length latest.now.last }
    ensures value { result
        ≡ first_fresh (is_down direction) (not (is_down direction)) (first_of latest.now + start)
        (drop start latest.now.last) ways.now latest.now.count }
{
    if start >= latest.len() {
        return None;
    }
    if is_fresh_at(latest, ways, direction, start) {
        return Some(latest.first() + start as u64);
    }
    if start + 1 == latest.len() {
        return None;
    }
    first_fresh_past(latest, ways, direction, start + 1)
}

/// The lesser of two numbers of packets, where both are there.
pub(crate) fn sooner(one: Option<u64>, other: Option<u64>) -> Option<u64>
    ensures value { result ≡ sooner one other }
{
    match (one, other) {
        (Some(a), Some(b)) => Some(a.min(b)),
        (Some(a), None) => Some(a),
        (None, _) => other,
    }
}
