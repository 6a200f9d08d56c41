ghost use Rattle.std.specs.Prelude.{◌≡◌, ◌≢◌, ◌<◌, ◌≤◌, ◌+◌, ◌-◌, ◌++◌, ◌||◌, ◌&&◌, ◌↔◌, [], ℕ, List, Some, None, Ok, Err, is_err, is_some, not, nat_lt, IfOk, OnOk, IfErr, OnErr, MatchOption, min, take, drop, length, true, false};
ghost use Rattle.std.specs.List.{position, position_or_len};
ghost use Rattle.brace_io.specs.Counts.{next_count};
ghost use Rattle.brace_io.specs.MemShelves.{Entry, Shelved, named, entry_of, file_in, files_of, bytes_in, spent, call_fails, failed, create_fails, append_fails, entry_written, spent_at, room_left, with_bytes, with_more, unread, moved_on, stopped_at, OthersAlone};
ghost use Rattle.brace_io.specs.Shelves.{Idle, Reading, Writing, Stopped, IsReading, IsWriting};

use crate::count::Count;
use crate::mem_file::MemFile;
use crate::spoken::spoken;
use crate::{Failed, ReadFault, Shelf};
use boxcar::tag::Tag;
use brace_num::NoMemory;
use std::alloc::Global;
use std::marker::Model;

/// What a shelf in memory is doing.
#[derive(Clone, Copy, Drop)]
pub(crate) enum Doing {
    Idle,
    Reading,
    Writing,
    Stopped,
}

/// A shelf in memory. It takes all its memory when names are held or prepared, and none in the
/// calls of a shelf. The calls whose numbers it was given, counted from 1 over all five, fail; so
/// do `create` of a name that was not prepared and `append` of a piece that is not empty once the
/// room of the name is spent.
#[derive(Drop)]
pub struct MemShelf {
    alloc: Global,
    files: Vec<MemFile>,
    fails: Vec<u64>,
    calls: Count,
    faults: Count,
    doing: Doing,
    name: Tag,
    index: usize,
    place: usize,
}

impl Model for MemShelf {
    ghost use Rattle.brace_io.specs.MemShelves.{Shelved};
    ghost use Rattle.brace_io.specs.inner.MemStages.{mem_stage, Spotted};

    ghost Value = { Shelved };

    ghost view = { λ s. record {
      entries = s.files.items;
      fails = s.fails.items;
      calls = s.calls;
      faults = s.faults;
      stage = mem_stage s.doing s.name.numbers s.place;
    } };

    ghost invariant = { λ s. Spotted s.doing s.files.items s.name.numbers s.index };
}

impl MemShelf {
    /// An idle shelf that holds nothing; `fails` are the numbers of the calls that fail.
    pub fn make(alloc: Global, fails: Vec<u64>) -> MemShelf
        ensures { result ≡ record {
          entries = [];
          fails = fails.items;
          calls = 0;
          faults = 0;
          stage = Idle;
        } }
    {
        MemShelf {
            alloc,
            files: Vec::new(alloc),
            fails,
            calls: Count::zero(),
            faults: Count::zero(),
            doing: Doing::Idle,
            name: spoken(""),
            index: 0,
            place: 0,
        }
    }

    /// The bytes under a name, where it is held.
    pub fn file(&self, name: &str) -> Option<&[u8]>
        ensures { MatchOption result (files_of self.now.entries name.now ≡ None)
            (λ bytes. files_of self.now.entries name.now ≡ Some bytes.now) }
    {
        let index = self.find(name);
        if index < self.files.len() {
            self.files[index].content()
        } else {
            None
        }
    }

    /// Holds the bytes under a name, with their length as its room; refused memory changes nothing.
    pub fn hold(&mut self, name: &str, bytes: &[u8]) -> Result<(), NoMemory>
        ensures held { OnOk result (entry_of self.new.entries name.now ≡
            Some (record { name = name.now; file = Some bytes.now; room = length bytes.now })) }
        ensures others { OthersAlone self.old.entries self.new.entries name.now }
        ensures rest { self.new ≡ record self.old { entries = self.new.entries } }
        ensures refused { OnErr result (self.new ≡ self.old) }
    {
        let mut copy = Vec::with_capacity(self.alloc, bytes.len())?;
        copy.extend_from_slice(bytes)?;
        let index = self.find(name);
        if index < self.files.len() {
            self.files[index].put(copy);
        } else {
            let mut file = MemFile::make(self.alloc, name, 0)?;
            file.put(copy);
            self.files.push(file)?;
        }
        Ok(())
    }

    /// Prepares a room in bytes in which a file of the name can be created; what is held stays, and
    /// refused memory changes nothing.
    pub fn prepare(&mut self, name: &str, room: u64) -> Result<(), NoMemory>
        ensures prepared { OnOk result (entry_of self.new.entries name.now ≡
            Some (record {
              name = name.now;
              file = files_of self.old.entries name.now;
              room = room;
            })) }
        ensures others { OthersAlone self.old.entries self.new.entries name.now }
        ensures rest { self.new ≡ record self.old { entries = self.new.entries } }
        ensures refused { OnErr result (self.new ≡ self.old) }
    {
        let index = self.find(name);
        if index < self.files.len() {
            self.files[index].set_room(room as usize)?;
        } else {
            let file = MemFile::make(self.alloc, name, room as usize)?;
            self.files.push(file)?;
        }
        Ok(())
    }

    /// The index of a name, or the number of names where it has none.
    fn find(&self, name: &str) -> usize
        ensures { result ≡ position_or_len (named name.now) self.now.entries }
    {
        match self.position(name) {
            Some(index) => index,
            None => self.files.len(),
        }
    }

    fn position(&self, name: &str) -> Option<usize>
        ensures { result ≡ position (named name.now) self.now.entries }
    {
        self.files.iter().position(|file| file.is_named(name))
    }

    /// Counts a call, and answers whether it fails by its number.
    fn refuses(&mut self) -> bool
        ensures listed { result ≡ call_fails self.old }
        ensures counted { self.new ≡ record self.old { calls = next_count self.old.calls } }
    {
        self.calls.raise();
        self.fails.contains(&self.calls.number())
    }

    /// Counts a failure, and stops at the name.
    fn stop(&mut self, name: Tag)
        ensures stopped { self.new ≡ record self.old {
          faults = next_count self.old.faults;
          stage = Stopped (Some name.numbers);
        } }
        ensures never_falls { self.old.faults ≤ self.new.faults }
    {
        self.faults.raise();
        self.doing = Doing::Stopped;
        self.name = name;
    }

    /// The bytes of the file that is read.
    fn open_bytes(&self) -> &[u8]
        ensures { (name : List ℕ) (place : ℕ) → self.now.stage ≡ Reading (Some (name, place))
            → result.now ≡ bytes_in (files_of self.now.entries name) }
    {
        let index = self.index;
        if index >= self.files.len() {
            return &[];
        }
        match self.files[index].content() {
            Some(bytes) => bytes,
            None => &[],
        }
    }

    /// The file that is written has no room left.
    fn is_full(&self) -> bool
        requires { IsWriting (Some (files_of self.now.entries)) self.now.stage }
        ensures { result ≡ spent_at (entry_written self.now.entries self.now.stage) }
    {
        self.files[self.index].is_spent()
    }

    /// Adds as much of the piece as there is room for to the file that is written, and answers its
    /// length.
    fn add(&mut self, piece: &[u8]) -> usize
        requires { IsWriting (Some (files_of self.old.entries)) self.old.stage }
        ensures count { result ≡ min (length piece.now)
            (room_left (entry_written self.old.entries self.old.stage)) }
        ensures adds { (name : List ℕ) → self.old.stage ≡ Writing (Some name)
            → entry_of self.new.entries name ≡
            with_more (take result piece.now) (entry_of self.old.entries name) }
        ensures others { (name : List ℕ) → self.old.stage ≡ Writing (Some name)
            → OthersAlone self.old.entries self.new.entries name }
        ensures rest { self.new ≡ record self.old { entries = self.new.entries } }
    {
        self.files[self.index].add(piece)
    }

    /// Counts a failure, and stops at the name of the file that is open.
    fn stop_here(&mut self)
        ensures stopped { self.new ≡ record self.old {
          faults = next_count self.old.faults;
          stage = stopped_at self.old.stage;
        } }
        ensures never_falls { self.old.faults ≤ self.new.faults }
    {
        self.faults.raise();
        if let Doing::Reading | Doing::Writing = self.doing {
            self.doing = Doing::Stopped;
        }
    }
}

impl Shelf for MemShelf {
    ghost use Rattle.std.specs.Prelude.{Some};
    ghost use Rattle.brace_io.specs.MemShelves.{files_of};

    ghost held = { λ s. Some (files_of s.entries) };

    ghost faults = { λ s. s.faults };

    ghost stage = { λ s. s.stage };

    fn begin_read(&mut self, name: &str) -> Result<(), ReadFault>
        ensures never_falls { self.old.faults ≤ self.new.faults }
        ensures fails { (result ≡ Err ReadFault.Failed) ↔ (call_fails self.old ≡ true) }
        ensures has { OnOk result (is_some (files_of self.old.entries name.now) ≡ true) }
        ensures reads { OnOk result (self.new ≡
            record self.old {
              calls = next_count self.old.calls;
              stage = Reading
                  (Some (name.now, 0));
            }) }
        ensures lacks { result ≡ Err ReadFault.Absent → files_of self.old.entries name.now ≡ None }
        ensures idle { result ≡ Err ReadFault.Absent
            → self.new ≡ record self.old { calls = next_count self.old.calls; stage = Idle } }
        ensures stops { result ≡ Err ReadFault.Failed
            → self.new ≡ failed (Stopped (Some name.now)) self.old }
    {
        if self.refuses() {
            self.stop(spoken(name));
            return Err(ReadFault::Failed);
        }
        if self.file(name).is_none() {
            self.doing = Doing::Idle;
            return Err(ReadFault::Absent);
        }
        self.index = self.find(name);
        self.name = spoken(name);
        self.place = 0;
        self.doing = Doing::Reading;
        Ok(())
    }

    fn read(&mut self, buffer: &mut [u8]) -> Result<usize, Failed>
        requires { IsReading (Some (files_of self.old.entries)) self.old.stage }
        ensures never_falls { self.old.faults ≤ self.new.faults }
        ensures fails { is_err result ≡ call_fails self.old }
        ensures count { IfOk result (λ n. n ≡
            min (length buffer.old) (length (unread self.old.entries self.old.stage))) }
        ensures bytes { IfOk result (λ n. buffer.new ≡
            take n (unread self.old.entries self.old.stage) ++ drop n buffer.old) }
        ensures moves { IfOk result (λ n. self.new ≡
            record self.old {
              calls = next_count self.old.calls;
              stage = moved_on n self.old.stage;
            }) }
        ensures untouched { OnErr result (buffer.new ≡ buffer.old) }
        ensures stops { OnErr result (self.new ≡ failed (stopped_at self.old.stage) self.old) }
    {
        if self.refuses() {
            self.stop_here();
            return Err(Failed);
        }
        let bytes = self.open_bytes();
        let from = self.place.min(bytes.len());
        let n = copy_front(&bytes[from..], buffer);
        self.place += n;
        Ok(n)
    }

    fn create(&mut self, name: &str) -> Result<(), Failed>
        ensures never_falls { self.old.faults ≤ self.new.faults }
        ensures fails { is_err result ≡ create_fails self.old name.now }
        ensures empties { OnOk result (entry_of self.new.entries name.now ≡
            with_bytes [] (entry_of self.old.entries name.now)) }
        ensures others { OthersAlone self.old.entries self.new.entries name.now }
        ensures writes { OnOk result (self.new ≡
            record self.old {
              entries = self.new.entries;
              calls = next_count self.old.calls;
              stage = Writing (Some name.now);
            }) }
        ensures stops { OnErr result (self.new ≡ failed (Stopped (Some name.now)) self.old) }
    {
        if self.refuses() {
            self.stop(spoken(name));
            return Err(Failed);
        }
        let index = self.find(name);
        if index >= self.files.len() {
            self.stop(spoken(name));
            return Err(Failed);
        }
        self.files[index].clear();
        self.index = index;
        self.name = spoken(name);
        self.doing = Doing::Writing;
        Ok(())
    }

    fn append(&mut self, piece: &[u8]) -> Result<usize, Failed>
        requires { IsWriting (Some (files_of self.old.entries)) self.old.stage }
        ensures never_falls { self.old.faults ≤ self.new.faults }
        ensures fails { is_err result ≡ append_fails self.old piece.now }
        ensures count { IfOk result (λ n. n ≡
            min (length piece.now) (room_left (entry_written self.old.entries self.old.stage))) }
        ensures adds { IfOk result (λ n. (name : List ℕ) → self.old.stage ≡ Writing (Some name)
            → entry_of self.new.entries name ≡
            with_more (take n piece.now) (entry_of self.old.entries name)) }
        ensures others { (name : List ℕ) → self.old.stage ≡ Writing (Some name)
            → OthersAlone self.old.entries self.new.entries name }
        ensures rest { OnOk result (self.new ≡
            record self.old { entries = self.new.entries; calls = next_count self.old.calls }) }
        ensures stops { OnErr result (self.new ≡ failed (stopped_at self.old.stage) self.old) }
    {
        if self.refuses() {
            self.stop_here();
            return Err(Failed);
        }
        if !piece.is_empty() && self.is_full() {
            self.stop_here();
            return Err(Failed);
        }
        Ok(self.add(piece))
    }

    fn finish(&mut self) -> Result<(), Failed>
        ensures never_falls { self.old.faults ≤ self.new.faults }
        ensures fails { is_err result ≡ call_fails self.old }
        ensures ends { OnOk result (self.new ≡
            record self.old { calls = next_count self.old.calls; stage = Idle }) }
        ensures stops { OnErr result (self.new ≡ failed (stopped_at self.old.stage) self.old) }
    {
        if self.refuses() {
            self.stop_here();
            return Err(Failed);
        }
        self.doing = Doing::Idle;
        Ok(())
    }
}

/// Copies as much as fits, and answers its length.
fn copy_front(from: &[u8], to: &mut [u8]) -> usize
    ensures count { result ≡ min (length to.old) (length from.now) }
    ensures same { to.new ≡ take result from.now ++ drop result to.old }
{
    let n = from.len().min(to.len());
    to[..n].copy_from_slice(&from[..n]);
    n
}
