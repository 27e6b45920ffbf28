//! A buffer of fixed size for texts.

ghost use Rattle.std.specs.Prelude.{◌≡◌, ◌<◌, ◌≤◌, ◌^◌, ◌∷◌, [], IfOk, OnOk, length};
ghost use Rattle.ll_explain.specs.Buffers.{adding, blank, from_byte, holding};

use std::alloc::{AllocError, Global};
use std::marker::Model;
use std::mem;

/// A buffer for a text, of a size that is fixed beforehand. It has a window over the text: it leaves out the first bytes,
/// as many as it was told, holds the next, as many as it has room for, and counts all. So adding to it takes no memory
/// and can't fail. A buffer without room counts a text, and a long text can be had part by part.
#[derive(Drop)]
pub struct TextBuffer {
    bytes: Vec<u8>,
    room: usize,
    skip: usize,
    count: usize,
}

impl Model for TextBuffer {
    ghost use Rattle.std.specs.Prelude.{◌≤◌, ◌<◌, ◌^◌};
    ghost use Rattle.std.specs.Vec.{vec_capacity, vec_len};
    ghost use Rattle.ll_explain.specs.Buffers.{Buffered};

    ghost Value = { Buffered };

    ghost view = { λ buffer.
        record {
          room = buffer.room;
          skip = buffer.skip;
          count = buffer.count;
          held = buffer.bytes.items;
        } };

    ghost invariant = { λ buffer.
        (vec_len buffer.bytes ≤ buffer.room) × (buffer.room ≤ vec_capacity buffer.bytes)
        × (buffer.room < 2 ^ 63) };
}

impl TextBuffer {
    /// A buffer with room for so many bytes.
    pub fn new(alloc: Global, room: usize) -> Result<TextBuffer, AllocError>
        ensures room { IfOk result (λ buffer. buffer ≡ blank room) }
        ensures small { OnOk result (room < 2 ^ 63) }
    {
        Ok(TextBuffer {
            bytes: Vec::with_capacity(alloc, room)?,
            room,
            skip: 0,
            count: 0,
        })
    }

    /// A buffer without room.
    pub fn counter(alloc: Global) -> TextBuffer
        ensures { result ≡ blank 0 }
    {
        TextBuffer {
            bytes: Vec::new(alloc),
            room: 0,
            skip: 0,
            count: 0,
        }
    }

    /// How many bytes it can hold.
    pub fn room(&self) -> usize
        ensures room { result ≡ self.now.room }
        ensures small { self.now.room < 2 ^ 63 }
    {
        self.room
    }

    /// How many bytes were added.
    pub fn count(&self) -> usize
        ensures { result ≡ self.now.count }
    {
        self.count
    }

    /// The bytes that are held.
    pub fn held(&self) -> &[u8]
        ensures bytes { result.now ≡ self.now.held }
        ensures within { length self.now.held ≤ self.now.room }
    {
        &self.bytes
    }

    /// The bytes that are held, without the buffer.
    pub fn into_bytes(self) -> Vec<u8>
        ensures { result.items ≡ self.held }
    {
        let TextBuffer { bytes, .. } = self;
        bytes
    }

    /// Returns the buffer, and leaves one without room in its place. This needs no memory.
    pub fn take(&mut self) -> TextBuffer
        ensures { result ≡ self.old }
    {
        let empty = TextBuffer::counter(*self.bytes.allocator());
        mem::replace(self, empty)
    }

    /// Makes the buffer as it was when nothing was added.
    pub fn clear(&mut self)
        ensures { self.new ≡ blank self.old.room }
    {
        self.restart(0);
    }

    /// Makes the buffer empty, for a text of which so many bytes are left out.
    pub fn restart(&mut self, skip: usize)
        ensures { self.new ≡ from_byte skip self.old.room }
    {
        self.bytes.clear();
        self.skip = skip;
        self.count = 0;
    }

    /// Makes what is held all of the text, as if no other byte had been added.
    pub fn settle(&mut self)
        ensures { self.new ≡ holding self.old.room self.old.held }
    {
        self.skip = 0;
        self.count = self.bytes.len();
    }

    /// Adds bytes: leaves out those that are to be left out, holds as many of the others as there is room for, and
    /// counts all.
    pub fn put(&mut self, bytes: &[u8])
        ensures { self.new ≡ adding self.old bytes.now }
    {
        match bytes {
            [byte] => self.put_byte(*byte),
            _ => self.put_all(bytes),
        }
    }

    /// Adds one byte. What stands between words is added so, without a call that copies bytes.
    #[tactic(auto, unfolding(crate::specs::Buffers::adding, crate::specs::Buffers::with_byte))]
    fn put_byte(&mut self, byte: u8)
        ensures { self.new ≡ adding self.old (byte ∷ []) }
    {
        if self.count >= self.skip && self.bytes.len() < self.room {
            self.bytes.push_reserved(byte);
        }
        self.count = self.count.saturating_add(1);
    }

    /// Adds bytes.
    fn put_all(&mut self, bytes: &[u8])
        ensures { self.new ≡ adding self.old bytes.now }
    {
        let out = self.skip.saturating_sub(self.count).min(bytes.len());
        let wanted = &bytes[out..];
        let left = self.room - self.bytes.len();
        let part = &wanted[..wanted.len().min(left)];
        let Ok(()) = self.bytes.extend_from_slice(part) else {
            unreachable!()
        };
        self.count = self.count.saturating_add(bytes.len());
    }
}
