ghost use Rattle.std.specs.Prelude.{◌≡◌, ◌<◌, ◌≤◌, ◌-◌, ◌↔◌, ◌++◌, [], length, take, drop, map, min, position, IsTrue, IsSome, IsOk, IsErr, IfOk, IfSome, OnErr, string_bytes};
ghost use Rattle.std.specs.Bool.{OnTrue, OnFalse};
ghost use Rattle.kql_outside.specs.Causes.{HasCause, next_count};
ghost use Rattle.kql_outside.specs.Told.{file_of, appended, prepended, reduced};
ghost use Rattle.std.specs.Option.{option_map};
ghost use Rattle.std.specs.Str.{bytes_eq};
ghost use Rattle.kql_outside.specs.Memory.{path_and_bytes, bytes_at, room_left};

use crate::counts::Faults;
use crate::outside::{Failed, Shelf, Sink};
use std::alloc::{AllocError, Global};
use std::marker::Model;

/// Files in memory. No call of it fails.
#[derive(Debug, Drop)]
pub struct CleanShelf {
    files: Vec<(String, Vec<u8>)>,
    reading: Option<Reading>,
}

// The file that was started, by its number, and how many bytes of it were read.
#[derive(Clone, Copy, Debug)]
struct Reading {
    file: usize,
    at: usize,
}

impl Model for CleanShelf {
    ghost use Rattle.std.specs.Prelude.{map};
    ghost use Rattle.kql_outside.specs.Memory.{ShelfState, path_and_bytes, left_of, IsWithin};

    ghost Value = { ShelfState };

    ghost view = { λ s. record {
      files = map path_and_bytes s.files.items;
      rest = left_of (map path_and_bytes s.files.items) s.reading;
    } };

    ghost invariant = { λ s. IsWithin (map path_and_bytes s.files.items) s.reading };
}

impl CleanShelf {
    /// A shelf of these files, of which none is started. The first file of a path counts.
    pub fn new(files: Vec<(String, Vec<u8>)>) -> CleanShelf
        ensures files { result.files ≡ map path_and_bytes files.items }
        ensures rest { result.rest ≡ [] }
    {
        CleanShelf {
            files,
            reading: None,
        }
    }

    // The number of the file of a path.
    fn number_of(&self, path: &str) -> Option<usize>
        ensures within { IfSome result (λ number. number < length self.now.files) }
        ensures bytes { file_of self.now.files path.now ≡ option_map (bytes_at self.now.files) result }
    {
        place_of(&self.files, path)
    }
}

// The place of the first of these files that has the path.
fn place_of(files: &[(String, Vec<u8>)], path: &str) -> Option<usize>
    ensures { result ≡ position (λ f. bytes_eq (string_bytes f.0) path.now) files.now }
{
    files.iter().position(|file| file.0.as_str() == path)
}

// Copies as many bytes as both have room for, from front to front, and answers how many.
fn copy_front(from: &[u8], to: &mut [u8]) -> usize
    ensures count { result ≡ min (length from.now) (length to.old) }
    ensures copied { take result to.new ≡ take result from.now }
{
    let count = from.len().min(to.len());
    to[..count].copy_from_slice(&from[..count]);
    count
}

impl Shelf for CleanShelf {
    ghost use Rattle.std.specs.Prelude.{Some};

    ghost files = { λ s. Some s.files };

    ghost rest = { λ s. Some s.rest };

    ghost faults = { λ _. 0 };

    fn start(&mut self, path: &str) -> Result<bool, Failed>
        ensures files { self.new.files ≡ self.old.files }
        ensures succeeds { IsOk result }
        ensures found { IfOk result (λ there. IsTrue there ↔ IsSome (file_of self.old.files path.now)) }
        ensures started { IfOk result (λ there.
            OnTrue there (Some self.new.rest ≡ file_of self.old.files path.now)) }
        ensures missing { IfOk result (λ there. OnFalse there (self.new.rest ≡ self.old.rest)) }
    {
        match self.number_of(path) {
            Some(file) => {
                self.reading = Some(Reading { file, at: 0 });
                Ok(true)
            }
            None => Ok(false),
        }
    }

    fn read(&mut self, buf: &mut [u8]) -> Result<usize, Failed>
        requires { 0 < length buf.old }
        ensures files { self.new.files ≡ self.old.files }
        ensures within { IfOk result (λ count. count ≤ length buf.new) }
        ensures count { result ≡ Ok (min (length self.old.rest) (length buf.old)) }
        ensures bytes { IfOk result (λ count. self.old.rest ≡ take count buf.new ++ self.new.rest) }
    {
        let Some(reading) = self.reading else {
            return Ok(0);
        };
        let count = copy_front(&self.files[reading.file].1[reading.at..], buf);
        self.reading = Some(Reading {
            file: reading.file,
            at: reading.at + count,
        });
        Ok(count)
    }
}

/// A sink in memory: it takes at most `chunk` bytes at a time, and fails where no room is left.
#[derive(Debug, Drop)]
pub struct CleanSink {
    bytes: Vec<u8>,
    chunk: usize,
    room: usize,
    faults: Faults,
}

impl Model for CleanSink {
    ghost use Rattle.std.specs.Prelude.{◌<◌, ◌≤◌, vec_len, vec_capacity};
    ghost use Rattle.kql_outside.specs.Memory.{SinkState};

    ghost Value = { SinkState };

    ghost view = { λ s. record {
      bytes = s.bytes.items;
      chunk = s.chunk;
      room = s.room;
      count = s.faults;
    } };

    ghost invariant = { λ s. (0 < s.chunk) × (vec_len s.bytes ≤ s.room) × (s.room ≤ vec_capacity s.bytes) };
}

impl CleanSink {
    /// An empty sink. Its memory, for `room` bytes, is taken here, and none by a write.
    pub fn new(alloc: Global, chunk: usize, room: usize) -> Result<CleanSink, AllocError>
        requires { 0 < chunk }
        ensures { IfOk result (λ s.
            s ≡ record { bytes = []; chunk = chunk; room = room; count = 0 }) }
    {
        Ok(CleanSink {
            bytes: Vec::with_capacity(alloc, room)?,
            chunk,
            room,
            faults: Faults::none(),
        })
    }

    /// The bytes that were written.
    pub fn bytes(&self) -> &[u8]
        ensures { result.now ≡ self.now.bytes }
    {
        &self.bytes
    }

    // Fails a write.
    pub(crate) fn fail(&mut self) -> Failed
        ensures count { self.new ≡ record self.old { count = next_count self.old.count } }
        ensures later { self.old.count ≤ self.new.count }
    {
        self.faults.fail()
    }
}

impl Sink for CleanSink {
    ghost use Rattle.std.specs.Prelude.{Some};

    ghost written = { λ s. Some s.bytes };

    ghost room = { λ s. Some (room_left s) };

    ghost faults = { λ s. s.count };

    fn write(&mut self, bytes: &[u8]) -> Result<usize, Failed>
        requires { 0 < length bytes.now }
        ensures full { IsErr result ↔ (room_left self.old ≡ 0) }
        ensures count { IfOk result (λ count.
            count ≡ min (length bytes.now) (min self.old.chunk (room_left self.old))) }
        ensures ok { IfOk result (λ count.
            self.new ≡ record self.old { bytes = self.old.bytes ++ take count bytes.now }) }
        ensures err { OnErr result
            (self.new ≡ record self.old { count = next_count self.old.count }) }

        ensures some { IfOk result (λ count. 0 < count) }
        ensures cause { HasCause self.old.count self.new.count result }
    {
        let left = self.room - self.bytes.len();
        if left == 0 {
            return Err(self.faults.fail());
        }
        let count = bytes.len().min(self.chunk).min(left);
        self.bytes.extend_from_slice(&bytes[..count]).unwrap();
        Ok(count)
    }
}
