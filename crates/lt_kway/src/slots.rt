ghost use Rattle.std.specs.Prelude.{◌≡◌, ◌+◌, ◌<◌, ◌≤◌, [], ◌∷◌, ◌++◌, OnOk, OnErr, IfErr, IfSome, IfNone, length, take, drop, slice_index, slice_index_or};
ghost use Rattle.std.specs.List.{insert};
ghost use Rattle.lt_kway.specs.Slots.{AreSlots, heads_of};
ghost use Rattle.lt_kway.specs.declared.head.Head.{Head as HeadOf};

use crate::Head;
use lt_rec::NoMemory;
use std::alloc::Global;
use std::marker::Model;

/// A list of heads that stay where they are while others come and go. Contracts see the list.
#[derive(Drop)]
pub struct Slots {
    /// The slots of the heads, one by one, and then those that are free.
    order: Vec<usize>,
    count: usize,
    slots: Vec<Option<Head>>,
}

impl Model for Slots {
    ghost use Rattle.std.specs.Prelude.{List, take};
    ghost use Rattle.lt_kway.specs.Slots.{AreSlots, heads_of};
    ghost use Rattle.lt_kway.specs.declared.head.Head.{Head};

    ghost Value = { List Head };

    ghost view = { λ s. heads_of s.slots.items (take s.count s.order.items) };

    ghost invariant = { λ s. AreSlots s.slots.items s.order.items s.count };
}

impl Slots {
    /// No heads. Takes no memory.
    pub fn new(alloc: Global) -> Slots
        ensures { result ≡ [] }
    {
        Slots {
            order: Vec::new(alloc),
            count: 0,
            slots: Vec::new(alloc),
        }
    }

    pub fn len(&self) -> usize
        ensures { result ≡ length self.now }
    {
        self.count
    }

    pub fn get(&self, at: usize) -> &Head
        requires { at < length self.now }
        ensures { (d : HeadOf) → result.now ≡ slice_index_or self.now at d }
    {
        match self.slots.get(self.order[at]) {
            Some(Some(head)) => head,
            _ => unreachable!(),
        }
    }

    /// Puts a head at this place of the list. Moves numbers alone.
    pub fn insert(&mut self, at: usize, head: Head) -> Result<(), Head>
        requires { at ≤ length self.old }
        ensures ok { OnOk result (self.new ≡ insert self.old at head) }
        ensures unchanged { OnErr result (self.new ≡ self.old) }
        ensures handed_back { IfErr result (λ refused. refused ≡ head) }
    {
        if make_room(&mut self.slots, &mut self.order, self.count).is_err() {
            return Err(head);
        }
        let slot = move_up(&mut self.order, self.count, at);
        self.slots[slot] = Some(head);
        self.count += 1;
        Ok(())
    }

    /// Takes the last head off the list; `None` exactly where there is none. Takes no memory.
    pub fn pop(&mut self) -> Option<Head>
        ensures taken { IfSome result (λ head. self.old ≡ self.new ++ head ∷ []) }
        ensures empty { IfNone result (self.old ≡ []) }
        ensures unchanged { IfNone result (self.new ≡ []) }
    {
        let count = self.count.checked_sub(1)?;
        let slot = self.order[count];
        self.count = count;
        let head = &mut self.slots[slot];
        match head.take() {
            Some(head) => Some(head),
            None => unreachable!(),
        }
    }
}

/// Makes a slot more, where none is free.
fn make_room(
    slots: &mut Vec<Option<Head>>,
    order: &mut Vec<usize>,
    count: usize,
) -> Result<(), NoMemory>
    requires kept { AreSlots slots.old.items order.old.items count }
    ensures kept { AreSlots slots.new.items order.new.items count }
    ensures same { heads_of slots.new.items (take count order.new.items) ≡ heads_of slots.old.items (take count order.old.items) }
    ensures free { OnOk result (count < length order.new.items) }
{
    if count < order.len() {
        return Ok(());
    }
    order.reserve(1)?;
    let slot = slots.len();
    slots.push(None)?;
    match order.push(slot) {
        Ok(()) => Ok(()),
        Err(_) => unreachable!(),
    }
}

/// Moves the slot at place `count` of the order to this place, and those behind it up by one. The slot.
fn move_up(order: &mut Vec<usize>, count: usize, at: usize) -> usize
    requires within { count < length order.old.items }
    requires ordered { at ≤ count }
    ensures slot { result ≡ slice_index order.old.items count }
    ensures order { order.new.items ≡ insert (take count order.old.items) at result ++ drop (count + 1) order.old.items }
{
    let slot = order[count];
    let (front, _) = order.as_mut_slice().split_at_mut(count + 1);
    let (_, behind) = front.split_at_mut(at);
    behind.rotate_right(1);
    slot
}
