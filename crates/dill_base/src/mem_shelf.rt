ghost use Rattle.std.specs.Prelude.{◌≡◌, ◌<◌, ◌+◌, ◌^◌, ◌++◌, Some, None, Option, length, take, drop, min, [], OnOk, is_ok};
ghost use Rattle.std.specs.Option.{option_map};
ghost use Rattle.dill_base.specs.Causes.{is_listed};
ghost use Rattle.dill_base.specs.Shelves.{Files, bytes_under, Starts, StartHasCause, Reads, ReadHasCause};
ghost use Rattle.dill_base.specs.MemShelf.{left_of, after_start, is_started, after_read, read_piece, piece_of, buffer_after};

use crate::{Failed, Octets, Piece, Shelf};
use std::marker::Model;

/// A shelf in memory. Besides the starts of names that it doesn't hold, it fails at the calls of some numbers:
/// `start` and `read` are counted together, from 1.
#[derive(Drop)]
pub struct MemShelf {
    held: Vec<(Octets, Octets)>,
    fails: Vec<u64>,
    calls: u64,
    count: u64,
    place: usize,
    at: usize,
}

impl Model for MemShelf {
    ghost use Rattle.dill_base.specs.MemShelf.{HeldFiles, left_of};

    ghost Value = { HeldFiles };

    ghost view = { λ s. record { files = s.held.items; left = left_of s.held.items s.place s.at; fails = s.fails.items; calls = s.calls; faults = s.count } };
}

impl MemShelf {
    /// A shelf with these files, names before bytes, of which none is started.
    pub fn new(files: Vec<(Octets, Octets)>, fails: Vec<u64>) -> MemShelf
        ensures { result ≡ record { files = files.items; left = []; fails = fails.items; calls = 0; faults = 0 } }
    {
        let place = files.len();
        MemShelf {
            held: files,
            fails,
            calls: 0,
            count: 0,
            place,
            at: 0,
        }
    }
}

impl Shelf for MemShelf {
    ghost files = { λ s. Some s.files };

    ghost left = { λ s. Some s.left };

    ghost faults = { λ s. s.faults };

    fn start(&mut self, name: &str) -> Result<(), Failed>
        ensures files { self.new.files ≡ self.old.files }
        ensures started { OnOk result (Starts (Some self.old.files) name.now (Some self.new.left)) }
        ensures cause { StartHasCause (Some self.old.files) name.now self.old.faults self.new.faults result }
        ensures exact { self.new ≡ after_start self.old name.now }
        ensures well { is_ok result ≡ is_started self.old name.now }
    {
        self.calls = self.calls.saturating_add(1);
        let Some(place) = place_of(self.held.as_slice(), name.as_bytes()) else {
            return Err(Failed);
        };
        if listed(self.fails.as_slice(), self.calls) {
            self.count = self.count.saturating_add(1);
            return Err(Failed);
        }
        self.place = place;
        self.at = 0;
        Ok(())
    }

    fn read(&mut self, buf: &mut [u8]) -> Piece
        requires { 0 < length buf.old }
        ensures files { self.new.files ≡ self.old.files }
        ensures piece { Reads (Some self.old.left) (Some self.new.left) buf.new result }
        ensures cause { ReadHasCause self.old.faults self.new.faults result }
        ensures exact { self.new ≡ after_read self.old (length buf.old) }
        ensures given { result ≡ read_piece self.old (length buf.old) }
        ensures buffer { buf.new ≡ buffer_after self.old buf.old }
    {
        self.calls = self.calls.saturating_add(1);
        if listed(self.fails.as_slice(), self.calls) {
            self.count = self.count.saturating_add(1);
            return Piece::Failed;
        }
        let count = copy_front(left_at(self.held.as_slice(), self.place, self.at), buf);
        self.at += count;
        piece(count)
    }
}

/// The first file of a name.
fn place_of(held: &[(Octets, Octets)], name: &[u8]) -> Option<usize>
    ensures { bytes_under held.now name.now ≡ option_map (λ i. left_of held.now i 0) result }
{
    for (i, file) in held.iter().enumerate() {
        if file.0.as_slice() == name {
            return Some(i);
        }
    }
    None
}

/// Whether the call of this number is to fail.
pub(crate) fn listed(fails: &[u64], number: u64) -> bool
    ensures { result ≡ is_listed fails.now number }
{
    fails.iter().any(|n| *n == number)
}

/// What is left of the file at a place.
fn left_at(held: &[(Octets, Octets)], place: usize, at: usize) -> &[u8]
    ensures left { result.now ≡ left_of held.now place at }
    ensures fits { at + length result.now < 2 ^ 64 }
{
    if place >= held.len() {
        return &[];
    }
    let bytes = held[place].1.as_slice();
    if at >= bytes.len() { &[] } else { &bytes[at..] }
}

/// So many bytes, or the end where there are none.
fn piece(count: usize) -> Piece
    ensures { result ≡ piece_of count }
{
    if count == 0 {
        Piece::End
    } else {
        Piece::Got(count)
    }
}

/// Copies as many of the bytes as fit.
fn copy_front(bytes: &[u8], buf: &mut [u8]) -> usize
    ensures count { result ≡ min (length bytes.now) (length buf.old) }
    ensures front { buf.new ≡ take result bytes.now ++ drop result buf.old }
{
    let count = bytes.len().min(buf.len());
    buf[..count].copy_from_slice(&bytes[..count]);
    count
}
