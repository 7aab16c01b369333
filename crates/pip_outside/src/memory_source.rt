ghost use Rattle.std.specs.Prelude.{◌≡◌, ◌+◌, ◌<◌, ◌≤◌, ◌↔◌, min, Some, length, IfOk, IsErr};
ghost use Rattle.std.specs.Io.{ReadsAtMost};
ghost use Rattle.std.specs.Io.KnownBytes.{ReadConsumes};
ghost use Rattle.pip_outside.specs.Faults.{CountsFaults};
ghost use Rattle.pip_outside.specs.Bytes.{count_of, IsUnread};
ghost use Rattle.pip_outside.specs.Plans.{first_plan, FailsNext, after_call};

use crate::copy::copy_front;
use crate::failed::Failed;
use crate::plan::Plan;
use crate::source::Source;
use std::marker::Model;

/// A source in memory that gives pieces of one size, as far as there is room and bytes are left, and fails at given
/// calls.
///
/// Contracts see the bytes left, how many were taken, the plan of its calls, and the count of faults.
#[derive(Drop)]
pub struct MemorySource {
    bytes: Vec<u8>,
    at: usize,
    plan: Plan,
    faults: u64,
}

impl Model for MemorySource {
    ghost use Rattle.std.specs.Prelude.{◌≤◌, drop, vec_len};
    ghost use Rattle.pip_outside.specs.Views.{MemoryInput};

    ghost Value = { MemoryInput };

    ghost view = { λ s. record { left = drop s.at s.bytes.items; taken = s.at; plan = s.plan; faults = s.faults } };

    ghost invariant = { λ s. s.at ≤ vec_len s.bytes };
}

impl MemorySource {
    /// A source of these bytes that gives at most `piece` of them a call. The calls whose numbers, from 0, stand in
    /// `fails` fail.
    pub fn new(bytes: Vec<u8>, piece: usize, fails: Vec<u64>) -> MemorySource
        requires { 0 < piece }
        ensures unread { IsUnread ⟦<MemorySource as Source>⟧.left ⟦<MemorySource as Source>⟧.taken
            ⟦<MemorySource as Source>⟧.faults result (Some bytes.items) }
        ensures plan { result.plan ≡ first_plan piece fails.items }
    {
        MemorySource {
            bytes,
            at: 0,
            plan: Plan::new(piece, fails),
            faults: 0,
        }
    }
}

impl Source for MemorySource {
    ghost left = { λ s. Some s.left };

    ghost taken = { λ s. s.taken };

    ghost faults = { λ s. s.faults };

    ghost calls = { λ s t. (t.plan ≡ after_call s.plan) × (s.taken ≤ t.taken) × (t.taken ≤ s.taken + s.plan.piece) };

    fn read(&mut self, buf: &mut [u8]) -> Result<usize, Failed>
        ensures bound { ReadsAtMost result buf.new }
        ensures bytes { ReadConsumes (Some self.old.left) (Some self.new.left) result buf.new }
        ensures counted { self.new.taken ≡ self.old.taken + count_of result }
        ensures faults { CountsFaults (IsErr result) self.old.faults self.new.faults }

        // the plan: which calls fail, and how much the others give
        ensures planned { IsErr result ↔ FailsNext self.old.plan }
        ensures piece { IfOk result (λ n. n ≡ min self.old.plan.piece (min (length buf.new) (length self.old.left))) }
        ensures call { self.new.plan ≡ after_call self.old.plan }
    {
        if self.plan.fails_next() {
            self.faults = self.faults.saturating_add(1);
            return Err(Failed);
        }
        let count = copy_front(&self.bytes[self.at..], self.plan.piece(), buf);
        self.at += count;
        Ok(count)
    }
}
