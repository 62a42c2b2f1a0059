//! The outputs of a station, in order.

ghost use Rattle.std.specs.Prelude.{◌≡◌, ◌<◌, ◌≤◌, ◌+◌, ◌-◌, [], ◌∷◌, ◌++◌, ◌==◌, length};
ghost use Rattle.std.specs.Prelude.{IfNone, IfOk, IfSome, IsOk, IsOkUnless, OnOk, slice_get};
ghost use Rattle.std.specs.Option.{option_copied};
ghost use Rattle.std.specs.VecDeque.{deque_capacity, deque_len};

use crate::output::Output;
use at_base::Error;
use std::alloc::Global;
use std::collections::VecDeque;
use std::marker::Model;

/// A queue of outputs. Contracts see the outputs, and the room for more.
#[derive(Drop)]
pub struct Outputs {
    items: VecDeque<Output>,
}

impl Model for Outputs {
    ghost use Rattle.std.specs.Prelude.{◌-◌};
    ghost use Rattle.std.specs.VecDeque.{deque_capacity, deque_len};
    ghost use Rattle.station.specs.Lawful.{Queue};

    ghost Value = { Queue };

    ghost view = { λ o. record {
      items = o.items.items;
      spare = deque_capacity o.items - deque_len o.items;
    } };
}

/// Moves the others after the outputs, which must have room for them.
fn move_all(outputs: &mut VecDeque<Output>, others: &mut VecDeque<Output>)
    requires { deque_len outputs.old + length others.old.items ≤ deque_capacity outputs.old }
    ensures items { outputs.new.items ≡ outputs.old.items ++ others.old.items }
    ensures len { deque_len outputs.new ≡ deque_len outputs.old + length others.old.items }
    ensures capacity { deque_capacity outputs.new ≡ deque_capacity outputs.old }
{
    if let Some(output) = others.pop_front() {
        outputs.push_back_reserved(output);
        move_all(outputs, others);
    }
}

impl Outputs {
    /// An empty queue. Error: `Memory`, which an empty queue never needs.
    pub fn new(alloc: Global) -> Result<Outputs, Error>
        ensures ok { IfOk result (λ outputs. outputs.items ≡ []) }
        ensures made { IsOk result }
        ensures refused { IsOkUnless result Error.Memory }
    {
        Ok(Outputs {
            items: VecDeque::new(alloc),
        })
    }

    /// Makes room for `n` more outputs. Error: `Memory`, if there isn't room for them already. The
    /// outputs don't change, and no room goes.
    pub fn room(&mut self, n: usize) -> Result<(), Error>
        ensures ok { OnOk result (n ≤ self.new.spare) }
        ensures spare { self.old.spare ≤ self.new.spare }
        ensures needed { n ≤ self.old.spare → IsOk result }
        ensures refused { IsOkUnless result Error.Memory }
        ensures kept { self.new.items ≡ self.old.items }
    {
        self.items.reserve(n)?;
        Ok(())
    }

    /// Adds an output at the end. The caller ensures that the queue has room. Allocates nothing.
    pub fn add(&mut self, output: Output)
        requires { 0 < self.old.spare }
        ensures added { self.new.items ≡ self.old.items ++ output ∷ [] }
        ensures spare { self.new.spare + 1 ≡ self.old.spare }
    {
        self.items.push_back_reserved(output);
    }

    /// Adds these outputs at the end. The caller ensures that the queue has room. Allocates
    /// nothing.
    pub fn append(&mut self, made: Vec<Output>)
        requires { length made.items ≤ self.old.spare }
        ensures { self.new.items ≡ self.old.items ++ made.items }
    {
        move_all(&mut self.items, &mut VecDeque::from_vec(made));
    }

    /// The number of outputs. Allocates nothing.
    pub fn len(&self) -> usize
        ensures { result ≡ length self.now.items }
    {
        self.items.len()
    }

    /// Whether there are no outputs. Allocates nothing.
    pub fn is_empty(&self) -> bool
        ensures { result ≡ (length self.now.items == 0) }
    {
        self.items.is_empty()
    }

    /// The output with an index, from the oldest on. Allocates nothing.
    pub fn get(&self, index: usize) -> Option<&Output>
        ensures { option_copied result ≡ slice_get self.now.items index }
    {
        self.items.get(index)
    }

    /// Removes and returns the oldest output, if any. Allocates nothing.
    pub fn pop(&mut self) -> Option<Output>
        ensures some { IfSome result (λ output. self.old.items ≡ output ∷ self.new.items) }
        ensures none { IfNone result (self.old.items ≡ []) }
        ensures end { IfNone result (self.new.items ≡ []) }
    {
        self.items.pop_front()
    }
}
