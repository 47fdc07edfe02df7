//! Floor: base. Reads and writes big-endian numbers and bytes, one field after the other, and has the one error of
//! calls that can fail only for want of memory. It does not know what the fields mean. Any crate may call it.
#![tactic(auto)]

ghost use Rattle.std.specs.Prelude.{◌≡◌, ◌<◌, ◌↔◌, ◌∷◌, ◌++◌, [], length, take, slice_index, IsTrue, IsErr, IfOk, IfErr, OnOk, OnErr};
ghost use Rattle.std.specs.Int.{w16, w32, w64, to_be_bytes, from_be_bytes};
ghost use Rattle.std.specs.List.{list_all};
ghost use Rattle.fields.specs.Names.{is_name, is_name_byte};

use std::alloc::{AllocError, AllocFailed, Global};
use std::marker::Model;

/// Memory was refused. What stands after it is said by each call that answers it.
#[derive(Clone, Copy, Debug, PartialEq, Eq)]
pub struct NoMemory;

impl From<AllocError> for NoMemory {
    fn from(_refused: AllocError) -> NoMemory {
        NoMemory
    }
}

impl<T: Drop> From<AllocFailed<T>> for NoMemory {
    fn from(_refused: AllocFailed<T>) -> NoMemory {
        NoMemory
    }
}

/// Fewer bytes are left than a field needs.
#[derive(Clone, Copy, Debug, PartialEq, Eq)]
pub struct Short {
    pub need: usize,
    pub left: usize,
}

/// Takes big-endian fields from the front of some bytes. A refused call leaves it unmoved.
#[derive(Drop)]
pub struct Reader<'a> {
    rest: &'a [u8],
    whole: usize,
}

impl<'a> Model for Reader<'a> {
    ghost use Rattle.std.specs.Prelude.{◌-◌, ◌≤◌, length};
    ghost use Rattle.fields.specs.Reading.{Reading};

    ghost Value = { Reading };

    ghost view = { λ r. record { place = r.whole - length r.rest.now; left = r.rest.now } };

    ghost invariant = { λ r. length r.rest.now ≤ r.whole };
}

impl<'a> Reader<'a> {
    ghost use Rattle.fields.specs.Reading.{reading_of, advanced};

    pub fn new(bytes: &'a [u8]) -> Reader<'a>
        ensures { result ≡ reading_of bytes.now }
    {
        Reader {
            rest: bytes,
            whole: bytes.len(),
        }
    }

    /// How many bytes were taken.
    pub fn place(&self) -> usize
        ensures { result ≡ self.now.place }
    {
        self.whole - self.rest.len()
    }

    /// The next `n` bytes.
    pub fn bytes(&mut self, n: usize) -> Result<&'a [u8], Short>
        ensures short { IsErr result ↔ (length self.old.left < n) }
        ensures why { IfErr result (λ e. e ≡ record { need = n; left = length self.old.left }) }
        ensures unmoved { OnErr result (self.new ≡ self.old) }
        ensures moved { OnOk result (self.new ≡ advanced n self.old) }
        ensures value { IfOk result (λ x. x.now ≡ take n self.old.left) }
        ensures spelled { IfOk result (λ x. self.old.left ≡ x.now ++ self.new.left) }
    {
        if self.rest.len() < n {
            return Err(Short {
                need: n,
                left: self.rest.len(),
            });
        }
        let (field, rest) = self.rest.split_at(n);
        self.rest = rest;
        Ok(field)
    }

    pub fn u8(&mut self) -> Result<u8, Short>
        ensures short { IsErr result ↔ (length self.old.left < 1) }
        ensures why { IfErr result (λ e. e ≡ record { need = 1; left = length self.old.left }) }
        ensures unmoved { OnErr result (self.new ≡ self.old) }
        ensures moved { OnOk result (self.new ≡ advanced 1 self.old) }
        ensures value { IfOk result (λ x. x ≡ slice_index self.old.left 0) }
        ensures spelled { IfOk result (λ x. self.old.left ≡ x ∷ self.new.left) }
    {
        let [value] = self.array::<1>()?;
        Ok(value)
    }

    pub fn u16(&mut self) -> Result<u16, Short>
        ensures short { IsErr result ↔ (length self.old.left < 2) }
        ensures why { IfErr result (λ e. e ≡ record { need = 2; left = length self.old.left }) }
        ensures unmoved { OnErr result (self.new ≡ self.old) }
        ensures moved { OnOk result (self.new ≡ advanced 2 self.old) }
        ensures value { IfOk result (λ x. x ≡ from_be_bytes w16 (take 2 self.old.left)) }
        ensures spelled { IfOk result (λ x. self.old.left ≡ to_be_bytes w16 x ++ self.new.left) }
    {
        let field = self.array::<2>()?;
        Ok(u16::from_be_bytes(field))
    }

    pub fn u32(&mut self) -> Result<u32, Short>
        ensures short { IsErr result ↔ (length self.old.left < 4) }
        ensures why { IfErr result (λ e. e ≡ record { need = 4; left = length self.old.left }) }
        ensures unmoved { OnErr result (self.new ≡ self.old) }
        ensures moved { OnOk result (self.new ≡ advanced 4 self.old) }
        ensures value { IfOk result (λ x. x ≡ from_be_bytes w32 (take 4 self.old.left)) }
        ensures spelled { IfOk result (λ x. self.old.left ≡ to_be_bytes w32 x ++ self.new.left) }
    {
        let field = self.array::<4>()?;
        Ok(u32::from_be_bytes(field))
    }

    pub fn u64(&mut self) -> Result<u64, Short>
        ensures short { IsErr result ↔ (length self.old.left < 8) }
        ensures why { IfErr result (λ e. e ≡ record { need = 8; left = length self.old.left }) }
        ensures unmoved { OnErr result (self.new ≡ self.old) }
        ensures moved { OnOk result (self.new ≡ advanced 8 self.old) }
        ensures value { IfOk result (λ x. x ≡ from_be_bytes w64 (take 8 self.old.left)) }
        ensures spelled { IfOk result (λ x. self.old.left ≡ to_be_bytes w64 x ++ self.new.left) }
    {
        let field = self.array::<8>()?;
        Ok(u64::from_be_bytes(field))
    }

    // The next `N` bytes, as an array.
    fn array<const N: usize>(&mut self) -> Result<[u8; N], Short>
        ensures short { IsErr result ↔ (length self.old.left < N) }
        ensures why { IfErr result (λ e. e ≡ record { need = N; left = length self.old.left }) }
        ensures unmoved { OnErr result (self.new ≡ self.old) }
        ensures moved { OnOk result (self.new ≡ advanced N self.old) }
        ensures value { IfOk result (λ x. x ≡ take N self.old.left) }
        ensures spelled { IfOk result (λ x. self.old.left ≡ x ++ self.new.left) }
    {
        match self.rest.split_first_chunk::<N>() {
            Some((field, rest)) => {
                self.rest = rest;
                Ok(*field)
            }
            None => Err(Short {
                need: N,
                left: self.rest.len(),
            }),
        }
    }
}

/// Builds bytes from big-endian fields. A refused call leaves it unchanged.
#[derive(Drop)]
pub struct Writer {
    bytes: Vec<u8>,
}

impl Model for Writer {
    ghost use Rattle.std.specs.Prelude.{ℕ, List};

    ghost Value = { List ℕ };

    ghost view = { λ w. w.bytes.items };
}

impl Writer {
    pub fn new(alloc: Global) -> Writer
        ensures { result ≡ [] }
    {
        Writer {
            bytes: Vec::new(alloc),
        }
    }

    pub fn put_bytes(&mut self, bytes: &[u8]) -> Result<(), NoMemory>
        ensures put { OnOk result (self.new ≡ self.old ++ bytes.now) }
        ensures same { OnErr result (self.new ≡ self.old) }
    {
        self.bytes.extend_from_slice(bytes)?;
        Ok(())
    }

    pub fn put_u8(&mut self, value: u8) -> Result<(), NoMemory>
        ensures put { OnOk result (self.new ≡ self.old ++ value ∷ []) }
        ensures same { OnErr result (self.new ≡ self.old) }
    {
        self.put_bytes(&[value])
    }

    pub fn put_u16(&mut self, value: u16) -> Result<(), NoMemory>
        ensures put { OnOk result (self.new ≡ self.old ++ to_be_bytes w16 value) }
        ensures same { OnErr result (self.new ≡ self.old) }
    {
        self.put_bytes(&value.to_be_bytes())
    }

    pub fn put_u32(&mut self, value: u32) -> Result<(), NoMemory>
        ensures put { OnOk result (self.new ≡ self.old ++ to_be_bytes w32 value) }
        ensures same { OnErr result (self.new ≡ self.old) }
    {
        self.put_bytes(&value.to_be_bytes())
    }

    pub fn put_u64(&mut self, value: u64) -> Result<(), NoMemory>
        ensures put { OnOk result (self.new ≡ self.old ++ to_be_bytes w64 value) }
        ensures same { OnErr result (self.new ≡ self.old) }
    {
        self.put_bytes(&value.to_be_bytes())
    }

    /// What was put, in order.
    pub fn finish(self) -> Vec<u8>
        ensures { result.items ≡ self }
    {
        let Writer { bytes } = self;
        bytes
    }
}

/// Bytes of any number, which contracts see as their list.
#[derive(Drop, Debug)]
pub struct Bytes {
    bytes: Vec<u8>,
}

impl Model for Bytes {
    ghost use Rattle.std.specs.Prelude.{ℕ, List};

    ghost Value = { List ℕ };

    ghost view = { λ b. b.bytes.items };
}

impl Bytes {
    pub fn from_vec(bytes: Vec<u8>) -> Bytes
        ensures { result ≡ bytes.items }
    {
        Bytes { bytes }
    }

    pub fn into_vec(self) -> Vec<u8>
        ensures { result.items ≡ self }
    {
        let Bytes { bytes } = self;
        bytes
    }

    pub fn as_slice(&self) -> &[u8]
        ensures { result.now ≡ self.now }
    {
        self.bytes.as_slice()
    }
}

/// A name: 1 to 32 of the characters a to z, 0 to 9 and `-`. Contracts see the list of its bytes.
#[derive(Drop, Debug)]
pub struct Name {
    bytes: Vec<u8>,
}

impl Model for Name {
    ghost use Rattle.std.specs.Prelude.{ℕ, List, IsTrue};
    ghost use Rattle.fields.specs.Names.{is_name};

    ghost Value = { List ℕ };

    ghost view = { λ n. n.bytes.items };

    ghost invariant = { λ n. IsTrue (is_name n.bytes.items) };
}

impl Name {
    /// Whether these bytes are a name.
    pub fn is_name(bytes: &[u8]) -> bool
        ensures { result ≡ is_name bytes.now }
    {
        1 <= bytes.len() && bytes.len() <= 32 && are_name_bytes(bytes)
    }

    pub fn from_vec(bytes: Vec<u8>) -> Name
        requires { IsTrue (is_name bytes.items) }
        ensures { result ≡ bytes.items }
    {
        Name { bytes }
    }

    pub fn into_vec(self) -> Vec<u8>
        ensures bytes { result.items ≡ self }
        ensures name { IsTrue (is_name self) }
    {
        let Name { bytes } = self;
        bytes
    }

    pub fn as_slice(&self) -> &[u8]
        ensures bytes { result.now ≡ self.now }
        ensures name { IsTrue (is_name self.now) }
    {
        self.bytes.as_slice()
    }
}

fn are_name_bytes(bytes: &[u8]) -> bool
    ensures { result ≡ list_all is_name_byte bytes.now }
{
    bytes.iter().all(|c| is_name_byte(*c))
}

fn is_name_byte(c: u8) -> bool
    ensures { result ≡ is_name_byte c }
{
    matches!(c, b'a'..=b'z' | b'0'..=b'9' | b'-')
}
