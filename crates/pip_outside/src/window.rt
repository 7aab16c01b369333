ghost use Rattle.std.specs.Prelude.{◌≡◌, ◌+◌, ◌-◌, ◌<◌, ◌≤◌, ◌^◌, [], length, drop, take, IfOk, IfErr, IfSome, IsErr, IsErrOf};
ghost use Rattle.std.specs.Io.KnownBytes.{ReadConsumes};
ghost use Rattle.pip_outside.specs.Bytes.{count_of};
ghost use Rattle.pip_outside.specs.Calls.{CallsOnce};
ghost use Rattle.pip_outside.specs.Faults.{CountsFaults};
ghost use Rattle.pip_outside.specs.Windows.{FillsFrom};

use crate::failed::Failed;
use crate::source::Source;
use std::alloc::{AllocError, Global};
use std::marker::Model;

// The most bytes that one call asks a source for.
const PIECE: usize = 2048;

/// Why no bytes come into a window: the source failed, or memory was refused.
#[derive(Clone, Copy, Debug, PartialEq, Eq)]
pub enum FillRefusal {
    Failed,
    WantOfMemory,
}

impl From<Failed> for FillRefusal {
    ghost use Rattle.std.specs.Prelude.{◌≡◌};
    ghost use Rattle.pip_outside.specs.declared.window.FillRefusal.TheVariants as refusal;

    ghost from_gives = { λ _ e. e ≡ refusal.Failed };

    fn from(_: Failed) -> FillRefusal {
        FillRefusal::Failed
    }
}

impl From<AllocError> for FillRefusal {
    ghost use Rattle.std.specs.Prelude.{◌≡◌};
    ghost use Rattle.pip_outside.specs.declared.window.FillRefusal.TheVariants as refusal;

    ghost from_gives = { λ _ e. e ≡ refusal.WantOfMemory };

    fn from(_: AllocError) -> FillRefusal {
        FillRefusal::WantOfMemory
    }
}

// Moves the bytes from a place on to the front, where no more of them stand there than before it.
fn move_to_front(bytes: &mut [u8], start: usize)
    requires within { start ≤ length bytes.old }
    requires few { length bytes.old ≤ start + start }
    ensures { take (length bytes.old - start) bytes.new ≡ drop start bytes.old }
{
    let (front, moved) = bytes.split_at_mut(start);
    let (target, _) = front.split_at_mut(moved.len());
    target.copy_from_slice(moved);
}

// Asks the source for at most `most` bytes, and for no more than 2,048, which come into the front of these.
fn read_piece<S: Source>(piece: &mut [u8], source: &mut S, most: usize) -> Result<usize, Failed>
    requires room { length piece.old ≡ 2048 }
    requires most { 1 ≤ most }
    ensures bound { IfOk result (λ n. (n ≤ most) × (n ≤ 2048)) }
    ensures bytes { ReadConsumes (S.left source.old) (S.left source.new) result piece.new }
    ensures counted { IfSome (S.left source.old) (λ _. S.taken source.new ≡ S.taken source.old + count_of result) }
    ensures faults { CountsFaults (IsErr result) (S.faults source.old) (S.faults source.new) }
    ensures step { S.calls source.old source.new }
{
    let (buf, _) = piece.split_at_mut(most.min(PIECE));
    source.read(buf)
}

/// The bytes of an input that are held: those that came behind the ones that were dropped.
///
/// Contracts see the held bytes, how many were dropped before them, and the most that were held at once since the last
/// `restart`.
#[derive(Drop)]
pub struct Window {
    // the held bytes stand behind the first `start` of these
    bytes: Vec<u8>,
    // where a source puts what it is asked for
    piece: Vec<u8>,
    start: usize,
    base: usize,
    peak: usize,
}

impl Model for Window {
    ghost use Rattle.std.specs.Prelude.{◌≡◌, ◌≤◌, ◌+◌, drop, vec_len};
    ghost use Rattle.pip_outside.specs.Windows.{HeldBytes};

    ghost Value = { HeldBytes };

    ghost view = { λ w. record { held = drop w.start w.bytes.items; base = w.base; peak = w.peak } };

    // the dropped bytes that still stand are no more than the held ones: twice what is held bounds the memory
    ghost invariant = { λ w. (w.start + w.start ≤ vec_len w.bytes) × (vec_len w.bytes ≤ w.peak + w.start)
        × (vec_len w.piece ≡ 2048) };
}

impl Window {
    /// A window that holds nothing. Nothing fails but memory.
    pub fn try_new(alloc: Global) -> Result<Window, FillRefusal>
        ensures fresh { IfOk result (λ w. w ≡ record { held = []; base = 0; peak = 0 }) }
        ensures memory { IfErr result (λ e. e ≡ FillRefusal.WantOfMemory) }
    {
        let bytes = Vec::with_capacity(alloc, PIECE)?;
        let piece = Vec::from_elem(alloc, 0, PIECE)?;
        Ok(Window {
            bytes,
            piece,
            start: 0,
            base: 0,
            peak: 0,
        })
    }

    /// The held bytes.
    pub fn held(&self) -> &[u8]
        ensures value { result.now ≡ self.now.held }
        ensures peak { length result.now ≤ self.now.peak }
    {
        let (_, held) = self.bytes.split_at(self.start);
        held
    }

    /// How many bytes were dropped before the held ones.
    pub fn base(&self) -> usize
        ensures { result ≡ self.now.base }
    {
        self.base
    }

    /// Drops the first n of the held bytes. Those that stay are moved to the front once no more of them stay than were
    /// dropped, so a byte that is dropped pays for moving one.
    pub fn drop_front(&mut self, n: usize)
        requires held { n ≤ length self.old.held }
        requires counted { self.old.base + n < 2 ^ 64 }
        ensures { self.new ≡ record self.old { held = drop n self.old.held; base = self.old.base + n } }
    {
        self.base += n;
        self.start += n;
        let left = self.bytes.len() - self.start;
        if left <= self.start {
            move_to_front(&mut self.bytes, self.start);
            self.bytes.truncate(left);
            self.start = 0;
        }
    }

    /// Forgets how many bytes were held before.
    pub fn restart(&mut self)
        ensures { self.new ≡ record self.old { peak = length self.old.held } }
    {
        self.peak = self.bytes.len() - self.start;
    }

    /// Asks the source for at most `most` bytes, and for no more than 4,096, and appends those that come; `Ok(0)` is
    /// the end of the input. Want of memory comes before the source is asked; either refusal leaves the window as it
    /// was.
    pub fn fill<S: Source>(&mut self, source: &mut S, most: usize) -> Result<usize, FillRefusal>
        requires { 1 ≤ most }
        ensures bytes { FillsFrom most (S.left source.old) (S.left source.new) result self.old self.new }

        // the source
        ensures counted { IfSome (S.left source.old) (λ _. S.taken source.new ≡ S.taken source.old + count_of result) }
        ensures faults { CountsFaults (IsErrOf result FillRefusal.Failed) (S.faults source.old) (S.faults source.new) }
        ensures asked { CallsOnce S.calls source.old source.new result }
    {
        self.bytes.reserve(PIECE)?;
        let count = read_piece(&mut self.piece, source, most)?;
        self.bytes.extend_from_slice(&self.piece[..count])?;
        self.peak = self.peak.max(self.bytes.len() - self.start);
        Ok(count)
    }
}
