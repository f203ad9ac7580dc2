// Visits of each slot of trees and of a chain. A visit marks the slot, and a marked one may not be visited again,
// so that all visits of garbage together are no more than the slots.
ghost use Rattle.std.specs.Prelude.{◌≡◌};
ghost use Rattle.audit.specs.Checks.{rules};
ghost use Rattle.audit.specs.Visits.{moment, Confirmed, Entered, ChainVisited, Visited, twig_at, arm_at, node_at, tree_at, trees_at};

use crate::budget::Budget;
use crate::leaves::LeafCheck;
use measures::Measure;
use slots::records::{Digit, Link, Record, Side, Tree, Unsound};
use slots::values::{digit_value, level_value};
use std::marker::PhantomData;

// A tree has at most 65,535 elements, and so at most 15 levels.
const DEEPEST: u8 = 15;

pub fn confirm<M: Measure>(found: M::Value, value: &M::Value) -> Result<(), Unsound>
    ensures { Confirmed (Ok found) value.now result }
{
    if M::same(&found, value) {
        Ok(())
    } else {
        Err(Unsound)
    }
}

// Marks slot i, and hands out its record.
pub fn enter<R: Copy, V: Copy>(
    slots: &[Record<R, V>],
    marks: &mut [u8],
    i: u16,
) -> Result<Record<R, V>, Unsound>
    ensures { Entered slots.now marks.old marks.new i result }
{
    let at = usize::from(i);
    let Some(slot) = slots.get(at) else {
        return Err(Unsound);
    };
    let Some(0) = marks.get(at) else {
        return Err(Unsound);
    };
    marks[at] = 1;
    Ok(*slot)
}

pub fn visit_chain<R: Copy, V: Copy>(
    slots: &[Record<R, V>],
    marks: &mut [u8],
    free: Link,
) -> Result<(), Unsound>
    ensures { ChainVisited slots.now free marks.old marks.new result }
{
    let mut link = free;
    while let Some(i) = link {
        let Record::Free(next) = enter(slots, marks, i)? else {
            return Err(Unsound);
        };
        link = next;
    }
    Ok(())
}

// How far an audit has come: the slots, the marks of those that were visited, what is left of the limits, and the source that
// leaves are checked by.
#[derive(Drop)]
pub struct Audit<'s, 'a, R, M: Measure, S, L> {
    pub slots: &'s [Record<R, M::Value>],
    pub marks: &'a mut [u8],
    pub budget: Budget,
    pub source: &'a mut S,
    pub checks: PhantomData<L>,
}

impl<R: Copy, M: Measure, S, L: LeafCheck<R, M, S>> Audit<'_, '_, R, M, S, L> {
    #[cycle(visit_digit_visit_node_visit_twig)]
    fn visit_twig(&mut self, height: u8, i: u16) -> Result<(), Unsound>
        ensures visited { Visited (rules M.Item.Weigh.weight M.Measure.means L.LeafCheck.items L.LeafCheck.good L.LeafCheck.checks) (twig_at self.old.slots.now height i) (moment self.old.marks.now self.old.budget self.old.source.now) (moment self.new.marks.now self.new.budget self.new.source.now) result }
        ensures same_slots { self.new.slots.now ≡ self.old.slots.now }
        ensures same_marks { self.new.marks.ghost_name ≡ self.old.marks.ghost_name }
        ensures same_source { self.new.source.ghost_name ≡ self.old.source.ghost_name }
    {
        match enter(self.slots, self.marks, i)? {
            Record::Leaf { row, value } => {
                if height > 0 {
                    return Err(Unsound);
                }
                let weight = L::check(self.source, row, &value)?;
                self.budget.spend(weight)
            }
            Record::Node2 { a, b, value } => self.visit_node(height, Digit::Two(a, b), &value),
            Record::Node3 { a, b, c, value } => {
                self.visit_node(height, Digit::Three(a, b, c), &value)
            }
            Record::Free(_) | Record::Level { .. } => Err(Unsound),
        }
    }

    #[cycle(visit_digit_visit_node_visit_twig)]
    fn visit_node(&mut self, height: u8, parts: Digit, value: &M::Value) -> Result<(), Unsound>
        ensures visited { Visited (rules M.Item.Weigh.weight M.Measure.means L.LeafCheck.items L.LeafCheck.good L.LeafCheck.checks) (node_at self.old.slots.now height parts value.now) (moment self.old.marks.now self.old.budget self.old.source.now) (moment self.new.marks.now self.new.budget self.new.source.now) result }
        ensures same_slots { self.new.slots.now ≡ self.old.slots.now }
        ensures same_marks { self.new.marks.ghost_name ≡ self.old.marks.ghost_name }
        ensures same_source { self.new.source.ghost_name ≡ self.old.source.ghost_name }
    {
        if height == 0 {
            return Err(Unsound);
        }
        self.visit_digit(height - 1, parts)?;
        confirm::<M>(digit_value::<R, M>(self.slots, parts)?, value)
    }

    #[cycle(visit_digit_visit_node_visit_twig)]
    fn visit_digit(&mut self, height: u8, digit: Digit) -> Result<(), Unsound>
        ensures visited { Visited (rules M.Item.Weigh.weight M.Measure.means L.LeafCheck.items L.LeafCheck.good L.LeafCheck.checks) (arm_at self.old.slots.now height digit) (moment self.old.marks.now self.old.budget self.old.source.now) (moment self.new.marks.now self.new.budget self.new.source.now) result }
        ensures same_slots { self.new.slots.now ≡ self.old.slots.now }
        ensures same_marks { self.new.marks.ghost_name ≡ self.old.marks.ghost_name }
        ensures same_source { self.new.source.ghost_name ≡ self.old.source.ghost_name }
    {
        let first = digit.peel(Side::Front);
        self.visit_twig(height, first.slot)?;
        match first.rest {
            Some(rest) => self.visit_digit(height, rest),
            None => Ok(()),
        }
    }

    fn visit_tree(&mut self, height: u8, tree: Tree) -> Result<(), Unsound>
        ensures visited { Visited (rules M.Item.Weigh.weight M.Measure.means L.LeafCheck.items L.LeafCheck.good L.LeafCheck.checks) (tree_at self.old.slots.now height tree) (moment self.old.marks.now self.old.budget self.old.source.now) (moment self.new.marks.now self.new.budget self.new.source.now) result }
        ensures same_slots { self.new.slots.now ≡ self.old.slots.now }
        ensures same_marks { self.new.marks.ghost_name ≡ self.old.marks.ghost_name }
        ensures same_source { self.new.source.ghost_name ≡ self.old.source.ghost_name }
    {
        if height > DEEPEST {
            return Err(Unsound);
        }
        match tree {
            Tree::Empty => Ok(()),
            Tree::Single(i) => self.visit_twig(height, i),
            Tree::Deep(i) => {
                let Record::Level {
                    front,
                    middle,
                    back,
                    value,
                } = enter(self.slots, self.marks, i)?
                else {
                    return Err(Unsound);
                };
                self.visit_digit(height, front)?;
                self.visit_tree(height + 1, middle)?;
                self.visit_digit(height, back)?;
                confirm::<M>(
                    level_value::<R, M>(self.slots, front, middle, back)?,
                    &value,
                )
            }
        }
    }

    pub fn visit_roots(&mut self, roots: &[Tree]) -> Result<(), Unsound>
        ensures visited { Visited (rules M.Item.Weigh.weight M.Measure.means L.LeafCheck.items L.LeafCheck.good L.LeafCheck.checks) (trees_at self.old.slots.now roots.now) (moment self.old.marks.now self.old.budget self.old.source.now) (moment self.new.marks.now self.new.budget self.new.source.now) result }
        ensures same_slots { self.new.slots.now ≡ self.old.slots.now }
        ensures same_marks { self.new.marks.ghost_name ≡ self.old.marks.ghost_name }
        ensures same_source { self.new.source.ghost_name ≡ self.old.source.ghost_name }
    {
        for root in roots {
            self.visit_tree(0, *root)?;
        }
        Ok(())
    }
}
