ghost use Rattle.std.specs.Prelude.{◌≡◌, ◌-◌, ◌++◌, [], ℕ, List, Some, None, IfOk, OnOk, OnErr, MatchOption, min, take, length, vec_len};
ghost use Rattle.brace_io.specs.MemShelves.{Entry, named, bytes_in, spent};

use brace_num::{NoMemory, Text};
use std::alloc::Global;
use std::marker::Model;

/// A prepared name of a shelf in memory, with all the memory that it may need.
#[derive(Drop)]
pub(crate) struct MemFile {
    name: Text,
    bytes: Vec<u8>,
    held: bool,
    room: usize,
}

impl Model for MemFile {
    ghost use Rattle.std.specs.Prelude.{◌≡◌, ◌≤◌, [], Some, None, cond, false, vec_capacity};
    ghost use Rattle.brace_io.specs.MemShelves.{Entry};

    ghost Value = { Entry };

    ghost view = { λ f. record {
      name = f.name;
      file = cond f.held (Some f.bytes.items) None;
      room = f.room;
    } };

    ghost invariant = { λ f. (f.room ≤ vec_capacity f.bytes) × (f.held ≡ false
        → f.bytes.items ≡ []) };
}

impl MemFile {
    /// A name that is prepared and not held.
    pub(crate) fn make(alloc: Global, name: &str, room: usize) -> Result<MemFile, NoMemory>
        ensures { IfOk result (λ f. f ≡ record { name = name.now; file = None; room = room }) }
    {
        let mut string = String::new(alloc);
        string.push_str(name)?;
        Ok(MemFile {
            name: Text::from_string(string),
            bytes: Vec::with_capacity(alloc, room)?,
            held: false,
            room,
        })
    }

    pub(crate) fn is_named(&self, name: &str) -> bool
        ensures { result ≡ named name.now self.now }
    {
        self.name.as_bytes() == name.as_bytes()
    }

    /// The bytes, where the name is held.
    pub(crate) fn content(&self) -> Option<&[u8]>
        ensures { MatchOption result (self.now.file ≡ None) (λ bytes. self.now.file
            ≡ Some bytes.now) }
    {
        if self.held {
            Some(self.bytes.as_slice())
        } else {
            None
        }
    }

    pub(crate) fn is_spent(&self) -> bool
        ensures { result ≡ spent self.now }
    {
        self.room <= self.bytes.len()
    }

    /// Holds nothing.
    pub(crate) fn clear(&mut self)
        ensures { self.new ≡ record self.old { file = Some [] } }
    {
        self.bytes.clear();
        self.held = true;
    }

    /// Adds as much of the piece as there is room for, and answers its length.
    pub(crate) fn add(&mut self, piece: &[u8]) -> usize
        ensures count { result
            ≡ min (length piece.now) (self.old.room - length (bytes_in self.old.file)) }
        ensures all { self.new ≡ record self.old {
          file = Some
              (bytes_in self.old.file ++ take result piece.now);
        } }
    {
        let n = piece.len().min(self.room.saturating_sub(self.bytes.len()));
        self.held = true;
        match self.bytes.extend_from_slice(&piece[..n]) {
            Ok(()) => n,
            Err(_) => 0,
        }
    }

    /// Another room for the next writing; what is held stays.
    pub(crate) fn set_room(&mut self, room: usize) -> Result<(), NoMemory>
        ensures ok { OnOk result (self.new ≡ record self.old { room = room }) }
        ensures err { OnErr result (self.new ≡ self.old) }
    {
        let more = room.saturating_sub(self.bytes.len());
        self.bytes.reserve_exact(more)?;
        self.room = room;
        Ok(())
    }

    /// Holds the bytes, with their length as its room.
    pub(crate) fn put(&mut self, bytes: Vec<u8>)
        ensures { self.new ≡ record self.old {
          file = Some bytes.items;
          room = length bytes.items;
        } }
    {
        self.room = bytes.len();
        self.bytes = bytes;
        self.held = true;
    }
}
