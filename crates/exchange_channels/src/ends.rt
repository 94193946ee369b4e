//! Lists that take ends without a refusal, once there is room.
ghost use Rattle.std.specs.Prelude.{◌≡◌, ◌+◌, ◌-◌, ◌^◌, ◌<◌, ◌≤◌, ◌↔◌, ◌==◌, [], ◌∷◌, ◌++◌, length, IsSome, IfNone, OnSome, OnOk, OnErr, slice_index_or};
ghost use Rattle.std.specs.Option.{option_to_list};

use crate::{IntakeEnd, OutletEnd};
use rel_base::Memory;
use std::alloc::Global;
use std::marker::Model;

/// At most 4,294,967,295 ends, in order, and room for further ones. Contracts see the ends, and
/// how many more there is room for.
#[derive(Drop)]
pub struct Ends<X> {
    pub(crate) items: Vec<X>,
    /// How many items may come without more memory.
    spare: u32,
}

/// The ends of outlets.
pub type OutletEnds = Ends<OutletEnd>;

/// The ends of intakes.
pub type IntakeEnds = Ends<IntakeEnd>;

impl<X> Model for Ends<X> {
    ghost use Rattle.std.specs.Prelude.{vec_len, vec_capacity};
    ghost use Rattle.exchange_channels.specs.Ends.{EndsState, IsRoomy};

    ghost Value = { EndsState X };

    ghost view = { λ e. record { items = e.items.items; spare = e.spare } };

    ghost invariant = { λ e. IsRoomy (vec_len e.items) e.spare (vec_capacity e.items) };
}

impl<X> Ends<X> {
    /// No end, and no room.
    pub fn new(alloc: Global) -> Self
        ensures { result ≡ record { items = []; spare = 0 } }
    {
        Ends {
            items: Vec::new(alloc),
            spare: 0,
        }
    }

    /// The number of ends.
    pub fn len(&self) -> u32
        ensures { result ≡ length self.now.items }
    {
        self.items.len() as u32
    }

    /// Whether there is no end.
    pub fn is_empty(&self) -> bool
        ensures { result ≡ (length self.now.items == 0) }
    {
        self.items.is_empty()
    }

    /// End number `i`, from 0.
    pub fn get(&self, i: u32) -> &X
        requires { i < length self.now.items }
        ensures { result.now ≡ slice_index_or self.now.items i result.now }
    {
        &self.items[i as usize]
    }

    /// Makes room for so many further ends.
    pub fn reserve(&mut self, more: u32) -> Result<(), Memory>
        ensures items { self.new.items ≡ self.old.items }
        ensures room { self.old.spare ≤ self.new.spare }
        ensures ok { OnOk result (more ≤ self.new.spare) }
        ensures err { OnErr result (self.new ≡ self.old) }
    {
        if more > u32::MAX - self.len() {
            return Err(Memory);
        }
        self.items.reserve(more as usize)?;
        if self.spare < more {
            self.spare = more;
        }
        Ok(())
    }

    /// Takes the last end, whose room stays; `None` where there is no end.
    pub fn pop(&mut self) -> Option<X>
        ensures items { self.old.items ≡ self.new.items ++ option_to_list result }
        ensures some { IsSome result ↔ (0 < length self.old.items) }
        ensures room { OnSome result (self.new.spare ≡ self.old.spare + 1) }
        ensures none { IfNone result (self.new ≡ self.old) }
    {
        let end = self.items.pop()?;
        self.spare += 1;
        Some(end)
    }
}

impl<X: Drop> Ends<X> {
    /// Adds an end. After `Memory` the list is as it was, and the end is let go.
    pub fn push(&mut self, end: X) -> Result<(), Memory>
        requires { length self.old.items < 2 ^ 32 - 1 }
        ensures ok { OnOk result (self.new.items ≡ self.old.items ++ end ∷ []) }
        ensures room { OnOk result (self.new.spare ≡ self.old.spare - 1) }
        ensures err { OnErr result (self.new ≡ self.old) }
    {
        self.items.push(end)?;
        self.spare = self.spare.saturating_sub(1);
        Ok(())
    }

    /// Adds an end, for which there is room. It takes no memory.
    pub fn put(&mut self, end: X)
        requires { 0 < self.old.spare }
        ensures items { self.new.items ≡ self.old.items ++ end ∷ [] }
        ensures spare { self.new.spare + 1 ≡ self.old.spare }
    {
        match self.items.push(end) {
            Ok(()) => self.spare -= 1,
            Err(_) => unreachable!(),
        }
    }
}
