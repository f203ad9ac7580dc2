// Slots that are lent to be written: laying out, taking, giving back, writing and reading. Any contents are met with a
// result.
ghost use Rattle.std.specs.Prelude.{◌≡◌, ◌<◌, ◌≤◌, Err, length, slice_index_or};
ghost use Rattle.slots.specs.Words.{unsound};
ghost use Rattle.slots.specs.Ghost.{none};
ghost use Rattle.slots.specs.Values.{spine_in, next_in};
ghost use Rattle.slots.specs.Post.{watched as «watched-of», LaidOut, Taken, Wrote, Given, LeafPut, DigitValued};

use crate::reading::{next_at, spine_at};
use crate::records::{Digit, Link, Record, Spine, Unsound};
use crate::values::digit_value;
use measures::Measure;

// Later slots of a slice are never read or written.
pub const WATCHED: u16 = 8316;

pub fn watched(len: usize) -> u16
    ensures { result ≡ «watched-of» len }
{
    len.min(WATCHED as usize) as u16
}

// Makes a chain of all watched slots, in their order.
pub fn lay_out<R: Copy, V: Copy>(slots: &mut [Record<R, V>]) -> Link
    ensures { LaidOut slots.old slots.new result }
{
    let mut free = None;
    for i in (0..watched(slots.len())).rev() {
        slots[i as usize] = Record::Free(free);
        free = Some(i);
    }
    free
}

pub fn take_slot<R: Copy, V: Copy>(slots: &[Record<R, V>], free: &mut Link) -> Result<u16, Unsound>
    ensures { Taken slots.now free.old free.new result }
{
    let i = free.ok_or(Unsound)?;
    *free = next_at(slots, i)?;
    Ok(i)
}

pub fn write_slot<R: Copy, V: Copy>(
    slots: &mut [Record<R, V>],
    i: u16,
    record: Record<R, V>,
) -> Result<(), Unsound>
    ensures { Wrote slots.old slots.new i «record» result }
{
    if i as usize >= slots.len() {
        return Err(Unsound);
    }
    slots[i as usize] = record;
    Ok(())
}

pub fn give_slot<R: Copy, V: Copy>(
    slots: &mut [Record<R, V>],
    free: &mut Link,
    i: u16,
) -> Result<(), Unsound>
    ensures { Given slots.old slots.new free.old free.new i result }
{
    write_slot(slots, i, Record::Free(*free))?;
    *free = Some(i);
    Ok(())
}

pub fn put_leaf<R: Copy, V: Copy>(
    slots: &mut [Record<R, V>],
    free: &mut Link,
    row: R,
    value: V,
) -> Result<u16, Unsound>
    ensures { LeafPut slots.old slots.new free.old free.new row value result }
{
    let i = take_slot(slots, free)?;
    write_slot(slots, i, Record::Leaf { row, value })?;
    Ok(i)
}

// The lent slots, whose values are those of a measure, and the first free one, where they go together from call to call.
#[derive(Drop)]
pub struct Arena<'a, R, M: Measure> {
    pub slots: &'a mut [Record<R, M::Value>],
    pub free: Link,
}

impl<R: Copy, M: Measure> Arena<'_, R, M> {
    pub fn spine_at(&self, i: u16) -> Result<Spine, Unsound>
        ensures { result ≡ spine_in (slice_index_or self.now.slots.now i none) }
    {
        spine_at(self.slots, i)
    }

    pub fn digit_value(&self, digit: Digit) -> Result<M::Value, Unsound>
        ensures { DigitValued M.Item.Weigh.weight M.Measure.means self.now.slots.now digit result }
    {
        digit_value::<R, M>(self.slots, digit)
    }

    fn next_at(&self, i: u16) -> Result<Link, Unsound>
        ensures found { i < length self.now.slots.now → result ≡ next_in (slice_index_or self.now.slots.now i none) }
        ensures past { length self.now.slots.now ≤ i → result ≡ Err unsound }
    {
        next_at(self.slots, i)
    }

    pub fn take(&mut self) -> Result<u16, Unsound>
        ensures same { self.new.slots.ghost_name ≡ self.old.slots.ghost_name }
        ensures slots { self.new.slots.now ≡ self.old.slots.now }
        ensures taken { Taken self.old.slots.now self.old.free self.new.free result }
    {
        let i = self.free.ok_or(Unsound)?;
        self.free = self.next_at(i)?;
        Ok(i)
    }

    pub fn give(&mut self, i: u16) -> Result<(), Unsound>
        ensures same { self.new.slots.ghost_name ≡ self.old.slots.ghost_name }
        ensures given { Given self.old.slots.now self.new.slots.now self.old.free self.new.free i result }
    {
        give_slot(self.slots, &mut self.free, i)
    }

    pub fn put_leaf(&mut self, row: R, value: M::Value) -> Result<u16, Unsound>
        ensures same { self.new.slots.ghost_name ≡ self.old.slots.ghost_name }
        ensures put { LeafPut self.old.slots.now self.new.slots.now self.old.free self.new.free row value result }
    {
        put_leaf(self.slots, &mut self.free, row, value)
    }
}
