ghost use Rattle.std.specs.Prelude.{◌≡◌, ◌+◌, ℕ, List, Option, IfSome, IsErr};
ghost use Rattle.std.specs.Io.{ReadsAtMost};
ghost use Rattle.std.specs.Io.KnownBytes.{ReadConsumes};
ghost use Rattle.pip_outside.specs.Faults.{CountsFaults};
ghost use Rattle.pip_outside.specs.Bytes.{count_of};

use crate::failed::Failed;

/// Bytes that are read once, in order.
pub trait Source {
    /// The bytes that are left, where the source tells them.
    ghost left: { Self → Option (List ℕ) };

    /// How many bytes were taken, where the bytes left are told.
    ghost taken: { Self → ℕ };

    /// How often a read has failed, up to `2^64 - 1`.
    ghost faults: { Self → ℕ };

    /// One call of `read` may lead from a state to another; any may where the source tells no more.
    ghost calls: { Self → Self → Type 0 } = { λ _ _. Unit {0} };

    /// Puts the next bytes into the front of `buf` and answers how many.
    ///
    /// `Ok(0)` with room in `buf` is the end of the input, and comes only with nothing left where the source tells.
    /// A failed read takes nothing, and is counted; a read that answers counts nothing.
    fn read(&mut self, buf: &mut [u8]) -> Result<usize, Failed>
        ensures bound { ReadsAtMost result buf.new }
        ensures bytes { ReadConsumes (left self.old) (left self.new) result buf.new }
        ensures counted { IfSome (left self.old) (λ _. taken self.new ≡ taken self.old + count_of result) }
        ensures faults { CountsFaults (IsErr result) (faults self.old) (faults self.new) }
        ensures step { calls self.old self.new };
}
