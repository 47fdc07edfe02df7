//! Hash chains, each in a buffer of its own that keeps what all its steps begin with.

ghost use Rattle.std.specs.Prelude.{◌≡◌, ◌-◌, ◌≤◌, length, take, drop};
ghost use Rattle.lms_ots.specs.Ots.{chain, hash_prefix, chain_step};

use crate::places::put;
use sha2::{Digest, Sha256};

/// The bytes that the next step of one chain hashes: I, q and i in the first 22, then j, and the value that the chain
/// has come to.
#[derive(Drop)]
pub struct Chain {
    bytes: [u8; 55],
}

impl Chain {
    /// Chain `index` of the key of leaf `q`, at this value.
    #[tactic(auto, unfolding(crate::specs::Ots::hash_prefix))]
    pub fn new(id: &[u8; 16], q: u32, index: u16, value: &[u8]) -> Chain
        requires { length value.now ≡ 32 }
        ensures prefix { take 22 result.bytes ≡ hash_prefix id.now q index }
        ensures value { drop 23 result.bytes ≡ value.now }
    {
        let mut bytes = [0; 55];
        put(&mut bytes, 0, id);
        put(&mut bytes, 16, &q.to_be_bytes());
        put(&mut bytes, 20, &index.to_be_bytes());
        put(&mut bytes, 23, value);
        Chain { bytes }
    }

    /// Makes step `j`. The hash is put right where the next step reads it: each copy would show in the time of a key.
    #[tactic(auto, unfolding(crate::specs::Ots::chain_step))]
    pub fn step(&mut self, j: u8)
        ensures value { drop 23 self.new.bytes
            ≡ chain_step (take 22 self.old.bytes) j (drop 23 self.old.bytes) }
        ensures same { take 22 self.new.bytes ≡ take 22 self.old.bytes }
    {
        self.bytes[22] = j;
        let value = Sha256::digest(&self.bytes);
        put(&mut self.bytes, 23, &value);
    }

    /// Makes the steps from `from` up to, and without, `to`.
    #[tactic(auto, unfolding(crate::specs::Ots::chain))]
    pub fn walk(&mut self, from: u8, to: u8)
        requires { from ≤ to }
        ensures value { drop 23 self.new.bytes
            ≡ chain (take 22 self.old.bytes) from (to - from) (drop 23 self.old.bytes) }
        ensures same { take 22 self.new.bytes ≡ take 22 self.old.bytes }
    {
        for j in from..to {
            self.step(j);
        }
    }

    /// The value that the chain has come to.
    pub fn value(&self) -> [u8; 32]
        ensures { result ≡ drop 23 self.now.bytes }
    {
        let mut value = [0; 32];
        value.copy_from_slice(&self.bytes[23..]);
        value
    }
}
