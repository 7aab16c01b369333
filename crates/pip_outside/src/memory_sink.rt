ghost use Rattle.std.specs.Prelude.{◌≡◌, ◌<◌, min, Some, [], length, IfOk, IsErr};
ghost use Rattle.std.specs.Io.KnownBytes.{WriteAppends};
ghost use Rattle.pip_outside.specs.Faults.{CountsFaults};
ghost use Rattle.pip_outside.specs.Bytes.{TakesPiece, IsUnwritten};
ghost use Rattle.pip_outside.specs.Plans.{first_plan, FailsNext, after_call};

use crate::failed::Failed;
use crate::plan::Plan;
use crate::sink::Sink;
use std::marker::Model;

/// A sink in memory that takes pieces of one size and fails at given calls.
///
/// Contracts see the bytes written, the plan of its calls, and the count of faults.
#[derive(Drop)]
pub struct MemorySink {
    bytes: Vec<u8>,
    plan: Plan,
    faults: u64,
}

impl Model for MemorySink {
    ghost use Rattle.pip_outside.specs.Views.{MemoryOutput};

    ghost Value = { MemoryOutput };

    ghost view = { λ s. record { written = s.bytes.items; plan = s.plan; faults = s.faults } };
}

impl MemorySink {
    /// A sink over an empty vector, with what room the caller reserved in it, that takes at most `piece` bytes a call.
    /// The calls whose numbers, from 0, stand in `fails` fail, and so does a call that finds no memory.
    pub fn new(room: Vec<u8>, piece: usize, fails: Vec<u64>) -> MemorySink
        requires piece { 0 < piece }
        requires room { room.items ≡ [] }
        ensures empty { IsUnwritten ⟦<MemorySink as Sink>⟧.written ⟦<MemorySink as Sink>⟧.faults result (Some []) }
        ensures plan { result.plan ≡ first_plan piece fails.items }
    {
        MemorySink {
            bytes: room,
            plan: Plan::new(piece, fails),
            faults: 0,
        }
    }

    /// The bytes written so far.
    pub fn written(&self) -> &[u8]
        ensures { ⟦<MemorySink as Sink>⟧.written self.now ≡ Some result.now }
    {
        &self.bytes
    }
}

impl Sink for MemorySink {
    ghost written = { λ s. Some s.written };

    ghost faults = { λ s. s.faults };

    fn write(&mut self, piece: &[u8]) -> Result<usize, Failed>
        ensures takes { TakesPiece result piece.now }
        ensures bytes { WriteAppends (Some self.old.written) (Some self.new.written) result piece.now }
        ensures faults { CountsFaults (IsErr result) self.old.faults self.new.faults }

        // the plan: which calls fail at least, and how much the others take
        ensures planned { FailsNext self.old.plan → IsErr result }
        ensures piece { IfOk result (λ n. n ≡ min self.old.plan.piece (length piece.now)) }
        ensures call { self.new.plan ≡ after_call self.old.plan }
    {
        let count = self.plan.piece().min(piece.len());
        if self.plan.fails_next() || self.bytes.extend_from_slice(&piece[..count]).is_err() {
            self.faults = self.faults.saturating_add(1);
            return Err(Failed);
        }
        Ok(count)
    }
}
