//! A group, and the key that signs for it.

ghost use Rattle.std.specs.Prelude.{◌≡◌, true, IfOk};
ghost use Rattle.secrets.specs.Secrets.{store_tag};
ghost use Rattle.sign_keys.specs.Keys.{IsNew, secret_of};
ghost use Rattle.sign_keys.specs.Kinds.{is_in_profile};
ghost use Rattle.authority.specs.Settings.{key_of};

use ff_ids::Group;
use fields::NoMemory;
use schedule_texts::Kinds;
use secrets::{make_key, store_tag};
use sign_keys::SignKey;
use std::alloc::Global;

/// A group, and the kinds and the secret of the key that signs for it.
#[derive(Clone, Copy)]
pub struct Setting {
    pub group: Group,
    pub kinds: Kinds,
    pub secret: [u8; 32],
}

impl Setting {
    /// The key that the secret gives, made anew, with no index handed out.
    pub fn make_key(&self, alloc: Global) -> Result<SignKey, NoMemory>
        requires { is_in_profile self.now.kinds ≡ true }
        ensures { IfOk result (λ key. IsNew key (key_of self.now)) }
    {
        make_key(alloc, self.kinds, &self.secret)
    }

    /// What marks a store as that of the key in the group.
    pub fn store_tag(&self, key: &SignKey) -> [u8; 32]
        ensures { result ≡ store_tag self.now.group (secret_of key.now) }
    {
        store_tag(&self.group, key)
    }
}
