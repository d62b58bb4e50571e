//! A list whose items stay where they were put: an insert or a remove moves places of two bytes,
//! and no item.
#![tactic(auto)]

ghost use Rattle.std.specs.Prelude.{◌≡◌, ◌+◌, ◌<◌, ◌≤◌, ◌++◌, [], ◌∷◌, OnOk, OnErr, length};
ghost use Rattle.std.specs.Prelude.{slice_index_or, slice_set, take};
ghost use Rattle.std.specs.List.{All, IsDistinct, insert, remove};
ghost use Rattle.std.specs.List.Sorted.{IsPermutation};
ghost use Rattle.std.proofs.Math.Dec.{eqb};
ghost use Rattle.placed_list.specs.Places.{place_at, in_order, IsIndex, Lodges};

use omci_core::NoMemory;
use std::alloc::Global;
use std::marker::Model;

/// The most items that a list may have.
pub const MOST_ITEMS: usize = 65_536;

/// A list of at most 65,536 items. Contracts see the list. `insert` alone takes memory.
#[derive(Drop)]
pub struct PlacedList<T> {
    /// The items, and between them those that were removed, in whose places the next ones go.
    items: Vec<T>,
    /// Each place of an item once: first those of the list's items in their order, then the free
    /// ones.
    order: Vec<u16>,
    /// How many items the list has.
    count: usize,
}

impl<T> Model for PlacedList<T> {
    ghost use Rattle.std.specs.Prelude.{List, take};
    ghost use Rattle.placed_list.specs.Places.{in_order, IsIndex};

    ghost Value = { List T };

    ghost view = { λ l. in_order l.items.items (take l.count l.order.items) };

    ghost invariant = { λ l. IsIndex l.items.items l.order.items l.count };
}

impl<T: Copy> PlacedList<T> {
    /// No items.
    pub fn new(alloc: Global) -> PlacedList<T>
        ensures empty { result ≡ [] }
    {
        PlacedList {
            items: Vec::new(alloc),
            order: Vec::new(alloc),
            count: 0,
        }
    }

    /// How many items there are.
    pub fn len(&self) -> usize
        ensures value { result ≡ length self.now }
    {
        self.count
    }

    /// The item in this place, counted from 0.
    pub fn get(&self, at: usize) -> &T
        requires { at < length self.now }
        ensures value { (other : T) → result.now ≡ slice_index_or self.now at other }
    {
        &self.items[self.order[at] as usize]
    }

    /// Puts the item in place of the one that is there.
    pub fn set(&mut self, at: usize, item: T)
        requires { at < length self.old }
        ensures written { self.new ≡ slice_set self.old at item }
    {
        write_in(&mut self.items, &self.order[..self.count], at, item);
    }

    /// Puts the item before the one in this place. `NoMemory` where there is no room for it, as
    /// where 65,536 are there; the list is then as it was.
    pub fn insert(&mut self, at: usize, item: T) -> Result<(), NoMemory>
        requires { at ≤ length self.old }
        ensures ok { OnOk result (self.new ≡ insert self.old at item) }
        ensures err { OnErr result (self.new ≡ self.old) }
    {
        if self.count >= MOST_ITEMS {
            return Err(NoMemory);
        }
        lodge(&mut self.items, &mut self.order, self.count, item)?;
        move_to(&mut self.order, self.count, at);
        self.count += 1;
        Ok(())
    }

    /// Takes the items from this place on away.
    pub fn truncate(&mut self, count: usize)
        requires { count ≤ length self.old }
        ensures front { self.new ≡ take count self.old }
    {
        self.count = count;
    }

    /// Takes the item in this place away.
    pub fn remove(&mut self, at: usize)
        requires { at < length self.old }
        ensures removed { self.new ≡ remove self.old at }
    {
        self.count -= 1;
        move_to_end(&mut self.order, at, self.count);
    }
}

/// Writes the item whose place stands there in the order.
fn write_in<T: Copy>(items: &mut [T], order: &[u16], at: usize, item: T)
    requires inside { All (λ place. place < length items.old) order.now }
    requires distinct { IsDistinct eqb order.now }
    requires there { at < length order.now }
    ensures written { in_order items.new order.now
        ≡ slice_set (in_order items.old order.now) at item }
    ensures len { length items.new ≡ length items.old }
{
    items[order[at] as usize] = item;
}

/// Puts the item into the first free place, which is made where there is none. Without memory
/// nothing has changed.
fn lodge<T: Copy>(
    items: &mut Vec<T>,
    order: &mut Vec<u16>,
    count: usize,
    item: T,
) -> Result<(), NoMemory>
    requires index { IsIndex items.old.items order.old.items count }
    requires few { count < MOST_ITEMS }
    ensures ok { OnOk result
        (Lodges items.old.items items.new.items order.old.items order.new.items count item) }
    ensures err { OnErr result
        ((items.new.items ≡ items.old.items) × (order.new.items ≡ order.old.items)) }
{
    if count == items.len() {
        return append(items, order, item);
    }
    let place = order[count] as usize;
    items[place] = item;
    Ok(())
}

/// Adds the item at the end, and its place to the free ones. Without memory nothing has changed.
fn append<T: Copy>(items: &mut Vec<T>, order: &mut Vec<u16>, item: T) -> Result<(), NoMemory>
    requires few { length items.old.items < MOST_ITEMS }
    ensures items { OnOk result (items.new.items ≡ items.old.items ++ item ∷ []) }
    ensures order { OnOk result
        (order.new.items ≡ order.old.items ++ length items.old.items ∷ []) }
    ensures err { OnErr result
        ((items.new.items ≡ items.old.items) × (order.new.items ≡ order.old.items)) }
{
    let place = items.len() as u16;
    order.push(place)?;
    if items.push(item).is_err() {
        let _place = order.pop();
        return Err(NoMemory);
    }
    Ok(())
}

/// Moves the place that stands at `from` to `at`, and those between them up by one.
fn move_to(order: &mut [u16], from: usize, at: usize)
    requires before { at ≤ from }
    requires there { from < length order.old }
    ensures front { take (from + 1) order.new
        ≡ insert (take from order.old) at (place_at order.old from) }
    ensures moved { IsPermutation order.old order.new }
{
    order[at..from + 1].rotate_right(1);
}

/// Moves the place that stands at `at` to `last`, and those between them down by one.
fn move_to_end(order: &mut [u16], at: usize, last: usize)
    requires before { at ≤ last }
    requires there { last < length order.old }
    ensures front { take last order.new ≡ remove (take (last + 1) order.old) at }
    ensures moved { IsPermutation order.old order.new }
{
    order[at..last + 1].rotate_left(1);
}
