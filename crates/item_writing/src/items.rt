ghost use Rattle.std.specs.Prelude.{◌≡◌, ◌≤◌, ℕ, List, [], IfOk, IfErr, IfSome, IsErrOf};
ghost use Rattle.pip_outside.specs.Faults.{CountsFaults};
ghost use Rattle.program_model.specs.Commands.{Command, Item, item_at, item_text, text_of};
ghost use Rattle.item_writing.specs.Endings.{IsOfItem};
ghost use Rattle.item_writing.specs.Items.{FindsItem, IsTextOfItem, IsTextAt, IsBehind, WritesItems};

use crate::ending::Ending;
use pip_outside::{Sink, write_all};
use std::alloc::Global;

/// A command that makes a text of each item of an input: how an item is read, and what is made of it.
pub trait Items {
    /// An item that was read.
    type Read;

    /// Room that is kept from item to item. No text depends on it.
    type Room;

    /// The command that it is.
    ghost meaning: { Self → Command };

    /// An item as the definitions see it.
    ghost seen: { (c : Self) → Self.Read → Item (meaning c) };

    /// What is known of an item.
    ghost is_item: { Self → Self.Read → Type 0 };

    /// The last place that may stand behind an item.
    ghost last_place: { Self → List ℕ → ℕ };

    /// The item at a place, with the place after it, or none where no item is left. The room is for what it is made of.
    fn read(
        &self,
        alloc: Global,
        room: &mut Self::Room,
        bytes: &[u8],
        at: usize,
    ) -> Result<Option<(Self::Read, usize)>, Ending>
        requires { at ≤ last_place self.now bytes.now }
        ensures { FindsItem (seen self.now) (is_item self.now) (item_at (meaning self.now) bytes.now at) at
            (last_place self.now bytes.now) result };

    /// No room yet. It takes no memory.
    fn room(&self, alloc: Global) -> Self::Room;

    /// Puts the text of an item into `text`. The item may be used up.
    fn put(
        &self,
        alloc: Global,
        room: &mut Self::Room,
        item: &mut Self::Read,
        text: &mut Vec<u8>,
    ) -> Result<(), Ending>
        requires item { is_item self.now item.old }
        requires empty { text.old.items ≡ [] }
        ensures own { IfErr result IsOfItem }
        ensures text { IsTextOfItem (text_of (meaning self.now) (seen self.now item.old)) result text.new.items };

    /// Takes an item that is done with, of which it may keep room for the next. No text depends on it.
    fn keep(&self, room: &mut Self::Room, item: Self::Read);

    /// Gives the room back.
    fn discard(&self, room: Self::Room);
}

// Puts the text of the item at a place into `text`, from whose memory all is made, and answers the place after the item.
fn write_text<C: Items>(
    command: &C,
    room: &mut C::Room,
    bytes: &[u8],
    at: usize,
    text: &mut Vec<u8>,
) -> Result<Option<usize>, Ending>
    requires within { at ≤ C.last_place command.now bytes.now }
    requires empty { text.old.items ≡ [] }
    ensures text { IsTextAt (item_text (C.meaning command.now) bytes.now at) result text.new.items }
    ensures own { IfErr result IsOfItem }
    ensures after { IfOk result (λ found. IfSome found (IsBehind at (C.last_place command.now bytes.now))) }
{
    let alloc = *text.allocator();
    match command.read(alloc, room, bytes, at)? {
        Some((mut item, after)) => {
            let put = command.put(alloc, room, &mut item, text);
            command.keep(room, item);
            put?;
            Ok(Some(after))
        }
        None => Ok(None),
    }
}

// Writes the texts of the items in order, up to the first refusal, in a room.
fn write_items_in<C: Items, K: Sink>(
    alloc: Global,
    command: &C,
    room: &mut C::Room,
    bytes: &[u8],
    sink: &mut K,
) -> Result<(), Ending>
    ensures output { WritesItems (item_text (C.meaning command.now) bytes.now) (K.written sink.old) (K.written sink.new)
        result }
    ensures own { IfErr result (λ e. ¬ (e ≡ Ending.WriteFault) → IsOfItem e) }
    ensures faults { CountsFaults (IsErrOf result Ending.WriteFault) (K.faults sink.old) (K.faults sink.new) }
{
    let mut text = Vec::new(alloc);
    let mut at = 0;
    while let Some(after) = write_text(command, room, bytes, at, &mut text)? {
        write_all(sink, &text)?;
        text.clear();
        at = after;
    }
    Ok(())
}

/// Writes the texts of the items in order, up to the first refusal.
pub fn write_items<C: Items, K: Sink>(
    alloc: Global,
    command: &C,
    bytes: &[u8],
    sink: &mut K,
) -> Result<(), Ending>
    ensures output { WritesItems (item_text (C.meaning command.now) bytes.now) (K.written sink.old) (K.written sink.new)
        result }
    ensures own { IfErr result (λ e. ¬ (e ≡ Ending.WriteFault) → IsOfItem e) }
    ensures faults { CountsFaults (IsErrOf result Ending.WriteFault) (K.faults sink.old) (K.faults sink.new) }
{
    let mut room = command.room(alloc);
    let written = write_items_in(alloc, command, &mut room, bytes, sink);
    command.discard(room);
    written
}
