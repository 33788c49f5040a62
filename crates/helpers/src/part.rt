//! The bytes that a task owns.

ghost use Rattle.std.specs.Prelude.{◌≡◌, ℕ, ◌+◌, ◌-◌, ◌*◌, ◌^◌, ◌<◌, ◌≤◌, [], ◌++◌, All, length, take, drop, replicate, sum, vec_capacity, IfOk, OnErr};
ghost use Rattle.helpers.specs.Piece.{Piece, joined_room};
ghost use Rattle.machine_model.specs.Memory.{bytes_at, little_bytes, little_number, load_bytes, store_bytes, widened, written};
ghost use Rattle.machine_model.specs.Limits.{max_part};

use insn_codec::{LoadKind, Size};
use machine_model::memory::{fill, load, store, sum};
use refusal::NoMemory;
use std::alloc::Global;
use std::marker::Model;
use std::mem;

/// Owned bytes, and where they lie in the job's buffer, which has at most 65,536.
#[derive(Drop)]
pub struct Part {
    base: usize,
    bytes: Vec<u8>,
}

impl Model for Part {
    ghost use Rattle.std.specs.Prelude.{◌+◌, ◌^◌, ◌<◌, ◌≤◌, length, vec_capacity};
    ghost use Rattle.helpers.specs.Piece.{Piece};
    ghost use Rattle.machine_model.specs.Limits.{max_part};

    ghost Value = { Piece };

    ghost view = { λ p. record {
      base = p.base;
      bytes = p.bytes.items;
      room = vec_capacity p.bytes;
    } };

    ghost invariant = { λ p. p.base + length p.bytes.items ≤ max_part };
}

/// Puts bytes into a buffer, from a place on.
fn put(buffer: &mut Vec<u8>, at: usize, bytes: &[u8])
    requires { at + length bytes.now ≤ length buffer.old.items }
    ensures { buffer.new.items ≡ written buffer.old.items at bytes.now }
{
    buffer[at..at + bytes.len()].copy_from_slice(bytes);
}

impl Part {
    /// The whole buffer, of at most 65,536 bytes.
    pub fn whole(bytes: Vec<u8>) -> Part
        requires { length bytes.items ≤ max_part }
        ensures base { result.base ≡ 0 }
        ensures bytes { result.bytes ≡ bytes.items }
    {
        Part { base: 0, bytes }
    }

    /// How many bytes it has.
    pub fn len(&self) -> usize
        ensures len { result ≡ length self.now.bytes }
        ensures small { self.now.base + length self.now.bytes ≤ max_part }
        ensures bytes { All (λ b. b < 256) self.now.bytes }
    {
        let bytes: &[u8] = &self.bytes;
        bytes.len()
    }

    /// What a load gives at a place in it.
    #[inline]
    pub fn load(&self, kind: LoadKind, at: usize) -> u64
        requires { at + load_bytes kind ≤ length self.now.bytes }
        ensures value { result
            ≡ widened kind (little_number (bytes_at self.now.bytes at (load_bytes kind))) }
        ensures small { little_number (bytes_at self.now.bytes at (load_bytes kind))
            < 2 ^ (8 * load_bytes kind) }
    {
        load(kind, &self.bytes, at)
    }

    /// Puts the low bytes of a number, as many as the size has, at a place in it.
    #[inline]
    pub fn store(&mut self, size: Size, at: usize, number: u64)
        requires { at + store_bytes size ≤ length self.old.bytes }
        ensures { self.new
            ≡ record self.old
            { bytes = written self.old.bytes at (little_bytes (store_bytes size) number) } }
    {
        store(size, &mut self.bytes, at, number);
    }

    /// Gives so many bytes from a place on this value.
    pub fn fill(&mut self, at: usize, count: usize, byte: u8)
        requires { at + count ≤ length self.old.bytes }
        ensures { self.new
            ≡ record self.old { bytes = written self.old.bytes at (replicate count byte) } }
    {
        fill(&mut self.bytes, at, count, byte);
    }

    /// The sum of so many bytes from a place on.
    pub fn sum(&self, at: usize, count: usize) -> u64
        requires { at + count ≤ length self.now.bytes }
        ensures value { result ≡ sum (bytes_at self.now.bytes at count) }
        ensures small { result ≤ 255 * count }
    {
        sum(&self.bytes, at, count)
    }

    /// Copies the bytes to where they lie in the job's buffer.
    pub fn copy_to(&self, buffer: &mut Vec<u8>)
        requires { self.now.base + length self.now.bytes ≤ length buffer.old.items }
        ensures { buffer.new.items ≡ written buffer.old.items self.now.base self.now.bytes }
    {
        put(buffer, self.base, &self.bytes);
    }

    /// Copies the bytes to where they lie in the job's buffer, as far as it reaches: what would lie
    /// past its end is left out.
    #[tactic(auto, using(crate::proofs::PieceLemmas::written_past, crate::proofs::PieceLemmas::written_inside, crate::proofs::PieceLemmas::written_across))]
    pub fn copy_within(&self, buffer: &mut Vec<u8>)
        ensures { buffer.new.items
            ≡ take (length buffer.old.items)
            (written buffer.old.items self.now.base self.now.bytes) }
    {
        let length = buffer.len();
        if length <= self.base {
            return;
        }
        let room = length - self.base;
        if self.bytes.len() <= room {
            put(buffer, self.base, &self.bytes);
        } else {
            put(buffer, self.base, &self.bytes[..room]);
        }
    }

    /// For how many bytes the part has room.
    pub fn room(&self) -> usize
        ensures room { result ≡ self.now.room }
        ensures fits { length self.now.bytes ≤ self.now.room }
    {
        self.bytes.capacity()
    }

    /// Moves the last `count` bytes out. Their room is kept, so that the piece can be put back
    /// without memory. Where they are all the bytes, the piece takes them with their room: nothing
    /// is copied then, and no memory is asked for.
    pub fn cut(&mut self, alloc: Global, count: usize) -> Result<Part, NoMemory>
        requires { count ≤ length self.old.bytes }
        ensures rest { IfOk result (λ piece. (self.new.base ≡ self.old.base) ×
            (self.new.bytes ≡ take (length self.old.bytes - count) self.old.bytes)) }
        ensures bytes { IfOk result (λ piece. piece.bytes
            ≡ drop (length self.old.bytes - count) self.old.bytes) }
        ensures base { IfOk result (λ piece. piece.base ≡ self.old.base + length self.new.bytes) }
        ensures room { IfOk result (λ piece. joined_room self.new piece ≡ self.old.room) }
        ensures fits { IfOk result (λ piece. length self.new.bytes + length piece.bytes
            ≤ joined_room self.new piece) }
        ensures err { OnErr result (self.new ≡ self.old) }
        ensures copies { OnErr result (count < length self.old.bytes) }
    {
        let keep = self.bytes.len() - count;
        if keep == 0 {
            let bytes = mem::replace(&mut self.bytes, Vec::new(alloc));
            return Ok(Part {
                base: self.base,
                bytes,
            });
        }
        let bytes = self.bytes.split_off(keep)?;
        Ok(Part {
            base: self.base + keep,
            bytes,
        })
    }

    /// Puts a piece back where it was cut. Pieces that were cut one after the other are put back in
    /// the opposite order.
    pub fn rejoin(&mut self, piece: Part)
        requires base { piece.base ≡ self.old.base + length self.old.bytes }
        requires room { length self.old.bytes + length piece.bytes ≤ joined_room self.old piece }
        ensures bytes { (self.new.base ≡ self.old.base)
            × (self.new.bytes ≡ self.old.bytes ++ piece.bytes) }
        ensures room { joined_room self.old piece ≤ self.new.room }
    {
        let Part {
            base: _,
            bytes: piece,
        } = piece;
        if self.bytes.is_empty() {
            self.bytes = piece;
        } else {
            let _ = self.bytes.extend_from_slice(&piece);
        }
    }

    /// Gives back the room that the bytes don't need, where that is more than they take. So the
    /// part has room for at most twice its bytes then.
    pub fn shed_room(&mut self)
        ensures bytes { (self.new.base ≡ self.old.base) × (self.new.bytes ≡ self.old.bytes) }
        ensures room { self.new.room ≤ self.old.room }
        ensures kept { self.old.room - length self.old.bytes ≤ length self.old.bytes
            → self.new.room ≡ self.old.room }
    {
        if self.bytes.len() < self.bytes.capacity() - self.bytes.len() {
            self.bytes.shrink_to_fit();
        }
    }

    /// The part's bytes.
    pub fn into_bytes(self) -> Vec<u8>
        ensures { result.items ≡ self.bytes }
    {
        let Part { base: _, bytes } = self;
        bytes
    }

    /// Takes its bytes out. Until bytes are put into it again, it has none.
    #[inline]
    pub fn take_bytes(&mut self, alloc: Global) -> Vec<u8>
        ensures bytes { result.items ≡ self.old.bytes }
        ensures none { self.new.bytes ≡ [] }
        ensures room { vec_capacity result ≡ self.old.room }
        ensures base { self.new.base ≡ self.old.base }
        ensures small { self.old.base + length self.old.bytes ≤ max_part }
    {
        mem::replace(&mut self.bytes, Vec::new(alloc))
    }

    /// Puts bytes into it in place of those that it has.
    #[inline]
    pub fn put_bytes(&mut self, bytes: Vec<u8>)
        requires { self.old.base + length bytes.items ≤ max_part }
        ensures { self.new
            ≡ record { base = self.old.base; bytes = bytes.items; room = vec_capacity bytes } }
    {
        self.bytes = bytes;
    }
}
