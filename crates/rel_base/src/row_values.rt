//! Where the values of a row stand.
ghost use Rattle.std.specs.Prelude.{◌≡◌, ◌<◌, ◌↔◌, [], ◌∷◌, ◌++◌, length, IsSome, IfOk, OnOk, OnErr};
ghost use Rattle.std.specs.Option.{option_to_list};
ghost use Rattle.rel_base.specs.inner.RowValues.{HasPlaces, value_at, values_in, with_value};

use crate::{Memory, Value};
use std::alloc::Global;
use std::mem;

/// The values of a row. Up to three stand in the row itself, so that it has 56 bytes.
pub enum Values {
    /// The first `len` of these.
    Few { len: u8, values: [Value; 3] },
    /// All of these, in memory of their own.
    Many(Vec<Value>),
}

// Written out, since a derived drop is proved anew at each place where a value is let go.
impl Drop for Values {
    fn drop(self) {
        match self {
            Values::Few { len: _, values: _ } | Values::Many(_) => {}
        }
    }
}

impl Values {
    /// No values.
    #[inline(always)]
    pub fn new() -> Values
        ensures value { values_in result ≡ [] }
        ensures places { HasPlaces result }
    {
        Values::Few {
            len: 0,
            values: [Value::Int(0), Value::Int(0), Value::Int(0)],
        }
    }

    /// No values, with room for so many: more than three get memory of their own.
    #[inline(always)]
    pub fn with_capacity(alloc: Global, room: u32) -> Result<Values, Memory>
        ensures value { IfOk result (λ made. values_in made ≡ []) }
        ensures places { IfOk result (λ made. HasPlaces made) }
    {
        if room <= 3 {
            return Ok(Values::new());
        }
        let many = Vec::with_capacity(alloc, room as usize)?;
        Ok(Values::Many(many))
    }

    /// All values, in order.
    pub fn as_slice(&self) -> &[Value]
        requires { HasPlaces self.now }
        ensures { result.now ≡ values_in self.now }
    {
        match self {
            Values::Few { len, values } => &values[..*len as usize],
            Values::Many(values) => values.as_slice(),
        }
    }

    /// Adds a value at the end. After `Memory` the values are as they were, and the new one is let
    /// go.
    #[inline(always)]
    pub fn push(&mut self, alloc: Global, value: Value) -> Result<(), Memory>
        requires { HasPlaces self.old }
        ensures ok { OnOk result (values_in self.new ≡ values_in self.old ++ value ∷ []) }
        ensures err { OnErr result (values_in self.new ≡ values_in self.old) }
        ensures places { HasPlaces self.new }
    {
        match self {
            Values::Few { len, .. } if *len < 3 => {
                let place = *len;
                *len = place + 1;
                let _ = self.replace(place, value);
                Ok(())
            }
            Values::Few { values, .. } => {
                let many = with_one_more(alloc, values, value)?;
                *self = Values::Many(many);
                Ok(())
            }
            Values::Many(values) => {
                values.push(value)?;
                Ok(())
            }
        }
    }

    /// Takes the last value; `None` where there is none.
    pub fn pop(&mut self) -> Option<Value>
        requires { HasPlaces self.old }
        ensures items { values_in self.old ≡ values_in self.new ++ option_to_list result }
        ensures some { IsSome result ↔ (0 < length (values_in self.old)) }
        ensures places { HasPlaces self.new }
    {
        match self {
            Values::Few { len, .. } => {
                if *len == 0 {
                    return None;
                }
                let place = *len - 1;
                *len = place;
                Some(self.replace(place, Value::Int(0)))
            }
            Values::Many(values) => values.pop(),
        }
    }

    /// Moves all values to the end of a list, so that none is left. Memory of their own is kept.
    /// After `Memory` all is as it was.
    #[inline(always)]
    pub fn move_to(&mut self, into: &mut Vec<Value>) -> Result<(), Memory>
        requires { HasPlaces self.old }
        ensures ok { OnOk result (into.new.items ≡ into.old.items ++ values_in self.old) }
        ensures none { OnOk result (values_in self.new ≡ []) }
        ensures err { OnErr result (into.new.items ≡ into.old.items) }
        ensures kept { OnErr result (values_in self.new ≡ values_in self.old) }
        ensures places { HasPlaces self.new }
    {
        let len = self.as_slice().len();
        match self {
            Values::Few { values, .. } => {
                move_few(&mut values[..len], into)?;
                *self = Values::new();
                Ok(())
            }
            Values::Many(values) => {
                into.append(values)?;
                Ok(())
            }
        }
    }

    /// Puts a value into one of the row's own places, and gives what stood there. A row that has
    /// none gives it back.
    #[inline(always)]
    fn replace(&mut self, place: u8, value: Value) -> Value
        requires { place < 3 }
        ensures value { result ≡ value_at self.old place value }
        ensures after { self.new ≡ with_value self.old place value }
    {
        match self {
            Values::Few { values, .. } => mem::replace(&mut values[place as usize], value),
            Values::Many(_) => value,
        }
    }
}

/// Three values and one more, in memory of their own. After `Memory` the three are as they were.
#[cold]
#[inline(never)]
fn with_one_more(alloc: Global, own: &mut [Value; 3], value: Value) -> Result<Vec<Value>, Memory>
    ensures ok { IfOk result (λ made. made.items ≡ own.old ++ value ∷ []) }
    ensures err { OnErr result (own.new ≡ own.old) }
{
    let mut many = Vec::with_capacity(alloc, 8)?;
    many.push_reserved(mem::take(&mut own[0]));
    many.push_reserved(mem::take(&mut own[1]));
    many.push_reserved(mem::take(&mut own[2]));
    many.push_reserved(value);
    Ok(many)
}

/// Moves values to the end of a list. After `Memory` the list is as it was.
#[inline(always)]
fn move_few(values: &mut [Value], into: &mut Vec<Value>) -> Result<(), Memory>
    ensures ok { OnOk result (into.new.items ≡ into.old.items ++ values.old) }
    ensures err { OnErr result (into.new.items ≡ into.old.items) }
    ensures kept { OnErr result (values.new ≡ values.old) }
    ensures as_many { length values.new ≡ length values.old }
{
    into.reserve(values.len())?;
    for value in values {
        into.push_reserved(mem::take(value));
    }
    Ok(())
}
