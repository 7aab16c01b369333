ghost use Rattle.std.specs.Prelude.{◌≡◌, ◌↔◌, ◌+◌, ◌<◌, ◌≤◌, ◌^◌, ◌++◌, ℕ, List, [], length, take, fold, All, IsTrue, IfNone, IfSome};
ghost use Rattle.pip_model.specs.Reading.{open_after as open_after_of};
ghost use Rattle.pip_reader.specs.Groups.{IsScanned, NoBracket, first_group_end, group_end_from, place_behind};

use std::marker::Model;
use text_tokens::open_after;

// Whether no byte is a bracket. Each byte is tested, whatever the others are.
#[inline(always)]
fn has_no_bracket(bytes: &[u8]) -> bool
    ensures { IsTrue result ↔ All NoBracket bytes.now }
{
    let mut found = false;
    for byte in bytes {
        found |= *byte == b'(' || *byte == b')';
    }
    !found
}

// How many bytes at the front are passed at one go: a run of 32 or of 8 bytes without a bracket; 0 where there is none.
#[inline(always)]
fn quiet_run(bytes: &[u8]) -> usize
    ensures quiet { All NoBracket (take result bytes.now) }
    ensures within { result ≤ length bytes.now }
{
    if 32 <= bytes.len() && has_no_bracket(&bytes[..32]) {
        32
    } else if 8 <= bytes.len() && has_no_bracket(&bytes[..8]) {
        8
    } else {
        0
    }
}

/// A search for the end of a text's first group, piece by piece.
///
/// Contracts see how many brackets are open behind the bytes that were scanned.
#[derive(Drop)]
pub struct GroupScan {
    depth: usize,
}

impl Model for GroupScan {
    ghost use Rattle.std.specs.Prelude.{ℕ};

    ghost Value = { ℕ };

    ghost view = { λ s. s.depth };
}

impl GroupScan {
    /// Before the first byte.
    pub fn start() -> GroupScan
        ensures { IsScanned [] result }
    {
        GroupScan { depth: 0 }
    }

    // The place behind the `)` that balances the first `(`, where so many brackets are open before these bytes.
    fn find_in(&mut self, bytes: &[u8]) -> Option<usize>
        requires { self.old + length bytes.now < 2 ^ 64 }
        ensures found { result ≡ group_end_from self.old 0 bytes.now }
        ensures open { IfNone result (self.new ≡ fold open_after_of self.old bytes.now) }
        ensures bound { IfSome result (λ after. after ≤ length bytes.now) }
        ensures few { self.new ≤ self.old + length bytes.now }
    {
        let mut depth = self.depth;
        for (i, byte) in bytes.iter().enumerate() {
            if *byte == b'(' || *byte == b')' {
                let before = depth;
                depth = open_after(before, *byte);
                if before > 0 && depth == 0 {
                    return Some(i + 1);
                }
            }
        }
        self.depth = depth;
        None
    }

    // The same, by runs: those without a bracket are passed at one go.
    fn find(&mut self, bytes: &[u8]) -> Option<usize>
        requires { self.old + length bytes.now < 2 ^ 64 }
        ensures found { result ≡ group_end_from self.old 0 bytes.now }
        ensures open { IfNone result (self.new ≡ fold open_after_of self.old bytes.now) }
        ensures bound { IfSome result (λ after. after ≤ length bytes.now) }
        ensures few { self.new ≤ self.old + length bytes.now }
    {
        let mut at = 0;
        while at < bytes.len() {
            let (_, rest) = bytes.split_at(at);
            let quiet = quiet_run(rest);
            if 0 < quiet {
                at += quiet;
            } else {
                let end = at + rest.len().min(8);
                if let Some(after) = self.find_in(&bytes[at..end]) {
                    return Some(at + after);
                }
                at = end;
            }
        }
        None
    }

    /// Scans the next bytes: the place among these behind the `)` that balances the first `(` of all bytes scanned so
    /// far; none exactly where there is no such place yet. It counts `(` and `)` alone, and takes no memory. Once a
    /// place was found nothing is said of further bytes.
    pub fn scan(&mut self, bytes: &[u8]) -> Option<usize>
        requires { self.old + length bytes.now < 2 ^ 64 }
        ensures found { (seen : List ℕ) → IsScanned seen self.old
            → place_behind (length seen) result ≡ first_group_end (seen ++ bytes.now) }
        ensures open { (seen : List ℕ) → IsScanned seen self.old
            → IfNone result (IsScanned (seen ++ bytes.now) self.new) }
        ensures bound { IfSome result (λ after. after ≤ length bytes.now) }
        ensures few { self.new ≤ self.old + length bytes.now }
    {
        self.find(bytes)
    }
}
