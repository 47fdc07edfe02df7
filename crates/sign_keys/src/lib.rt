//! Floor: keys. Keys that sign, of one level or of two, with their indexes that are left. `signer` signs records with one,
//! `secrets` makes one from a secret, and worlds sign with those of liars and of their authority.
#![tactic(auto)]

pub use key::SignKey;
pub use kinds::Kinds;

mod key;
mod kinds;
