//! Bytes in pieces, one after another, each of which may have further owners.
//!
//! A piece is put after the others, and bytes are cut off the end, without a copy of any byte. A part within one piece
//! is shared. One that spans pieces is copied alone, so that whoever keeps it keeps no more than it, and the pieces
//! stay shared with their other owners. Who asks for all bytes by their number, as a copy of a segment does, may keep
//! them, and may ask again: then they become one piece.

ghost use Rattle.std.specs.Prelude.{◌≡◌, ◌≤◌, ◌<◌, ◌^◌, ◌+◌, ◌-◌, ◌++◌, ℕ, List, []};
ghost use Rattle.std.specs.Prelude.{length, take, drop, IfOk, OnOk, OnErr};
ghost use Rattle.disk_model.specs.Content.{part_of};
ghost use Rattle.disk_model.specs.Pieces.{joined, AreEnded};

use bytes::Bytes;
use std::alloc::{AllocError, Global};
use std::marker::Model;

/// How many bytes there may be: as many as fit one vector.
const MOST: usize = usize::MAX / 2;

/// A piece, and where it ends, so that a place is found by halving.
#[derive(Drop)]
pub struct Chunk {
    bytes: Bytes,
    end: usize,
}

/// Bytes in pieces, and how many they are.
#[derive(Drop)]
pub struct Pieces {
    items: Vec<Chunk>,
    len: usize,
}

impl Model for Pieces {
    ghost use Rattle.std.specs.Prelude.{List, ℕ};
    ghost use Rattle.disk_model.specs.Pieces.{bytes_of, IsLenCounted};

    ghost Value = { List ℕ };

    ghost view = { bytes_of };

    ghost invariant = { IsLenCounted };
}

impl Pieces {
    /// Makes no piece, without memory.
    pub fn new(alloc: Global) -> Pieces
        ensures { result ≡ [] }
    {
        Pieces {
            items: Vec::new(alloc),
            len: 0,
        }
    }

    /// Counts the bytes.
    pub fn len(&self) -> usize
        ensures value { result ≡ length self.now }
        ensures bound { result < 2 ^ 63 }
    {
        self.len
    }

    /// Lends the first piece.
    pub fn front(&self) -> &[u8]
        ensures { (rest : List ℕ) × (self.now ≡ result.now ++ rest) }
    {
        match self.items.first() {
            Some(piece) => piece.bytes.as_slice(),
            None => &[],
        }
    }

    /// Puts a piece after the others.
    pub fn push(&mut self, bytes: Bytes) -> Result<(), AllocError>
        ensures ok { OnOk result (self.new ≡ self.old ++ bytes) }
        ensures err { OnErr result (self.new ≡ self.old) }
    {
        let end = self.len + bytes.len();
        if end > MOST {
            return Err(AllocError);
        }
        self.items.push(Chunk { bytes, end })?;
        self.len = end;
        Ok(())
    }

    /// Cuts the bytes to a length, without memory.
    pub fn truncate(&mut self, len: usize)
        ensures { self.new ≡ take len self.old }
    {
        drop_last(&mut self.items, self.len.saturating_sub(len));
        self.len = self.len.min(len);
    }

    /// Gives so many bytes from a place on, and fewer only where they end.
    pub fn read(&mut self, alloc: Global, at: usize, most: usize) -> Result<Bytes, AllocError>
        ensures bytes { IfOk result (λ bytes. bytes ≡ part_of at most self.old) }
        ensures kept { self.new ≡ self.old }
    {
        if at == 0 && self.len == most {
            self.gather(alloc)?;
        }
        self.part(alloc, at, most)
    }

    /// Makes one piece of all.
    fn gather(&mut self, alloc: Global) -> Result<(), AllocError>
        ensures { self.new ≡ self.old }
    {
        if self.items.len() < 2 {
            return Ok(());
        }
        let mut all = Vec::with_capacity(alloc, self.len)?;
        copy_front(self.items.as_slice(), self.len, &mut all)?;
        let mut whole = Pieces::new(alloc);
        whole.push(Bytes::from_vec(all)?)?;
        *self = whole;
        Ok(())
    }

    /// Shares a part of one piece, or copies one that spans pieces.
    fn part(&self, alloc: Global, at: usize, most: usize) -> Result<Bytes, AllocError>
        ensures { IfOk result (λ bytes. bytes ≡ part_of at most self.now) }
    {
        let passed = count_passed(self.items.as_slice(), at);
        match self.items[passed..].split_first() {
            Some((piece, behind)) => read_in(alloc, piece, behind, piece.end - at, most),
            None => Ok(Bytes::new()),
        }
    }
}

/// How many pieces end at or below a place: those in front.
fn count_passed(pieces: &[Chunk], at: usize) -> usize
    requires { AreEnded 0 pieces.now }
    ensures within { result ≤ length pieces.now }
    ensures passed { length (joined (take result pieces.now)) ≤ at }
    ensures next { result < length pieces.now → at < length (joined (take (result + 1) pieces.now)) }
{
    pieces.partition_point(|piece| piece.end <= at)
}

/// Shares a part of a piece that has so many bytes of it, or copies one that spans pieces.
fn read_in(
    alloc: Global,
    piece: &Chunk,
    behind: &[Chunk],
    here: usize,
    most: usize,
) -> Result<Bytes, AllocError>
    requires { here ≤ length piece.now.bytes }
    ensures { IfOk result (λ bytes. bytes ≡ take most
        (drop (length piece.now.bytes - here) piece.now.bytes ++ joined behind.now)) }
{
    let bytes = &piece.bytes;
    let from = bytes.len() - here;
    if most <= here || behind.is_empty() {
        return bytes.slice(from..from + most.min(here));
    }
    let mut all = Vec::from_slice(alloc, &bytes.as_slice()[from..])?;
    copy_front(behind, most - here, &mut all)?;
    Ok(Bytes::from_vec(all)?)
}

/// Copies so many of the first bytes of pieces to the end of others. Where memory fails, some of them may be there.
fn copy_front(pieces: &[Chunk], mut most: usize, all: &mut Vec<u8>) -> Result<(), AllocError>
    ensures { OnOk result (all.new.items ≡ all.old.items ++ take most (joined pieces.now)) }
{
    for piece in pieces {
        if most == 0 {
            break;
        }
        let here = most.min(piece.bytes.len());
        all.extend_from_slice(&piece.bytes.as_slice()[..here])?;
        most -= here;
    }
    Ok(())
}

/// Drops so many bytes from the end.
fn drop_last(pieces: &mut Vec<Chunk>, mut count: usize)
    requires { AreEnded 0 pieces.old.items }
    ensures bytes { joined pieces.new.items
        ≡ take (length (joined pieces.old.items) - count) (joined pieces.old.items) }
    ensures ends { AreEnded 0 pieces.new.items }
{
    while let Some(mut last) = pieces.pop() {
        let len = last.bytes.len();
        if count < len {
            last.bytes.truncate(len - count);
            last.end -= count;
            // It has the room from which it was taken.
            let _ = pieces.push(last);
            return;
        }
        count -= len;
    }
}
