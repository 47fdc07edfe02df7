//! Floor: texts. The text that makes a key's store, the text that moves one to another group, the text that asks an
//! authority for certificates, and the text of a member: its group, its own secret, the authority's key, and the
//! certificates that it begins with, each checked as its line is read; and the head of a text that asks for an audit,
//! which has such lines. Only a member's own key and signatures take memory. `authority` and `node_command` call it.
#![tactic(auto)]

mod head;
mod head_line;
mod head_read;
mod kit;
mod kit_cert;
mod kit_line;
mod kit_read;
mod line;
mod migrate;
mod roster;
mod secret;
mod shared;

pub use head::HeadText;
pub use head_line::HeadLine;
pub use kit::{KitText, Owner};
pub use kit_line::KitLine;
pub use line::{RosterLine, SecretLine};
pub use migrate::MigrateText;
pub use roster::RosterText;
pub use secret::SecretText;
pub use shared::{
    read_group, read_kinds, read_one_level, read_secret, take_key, take_lms_key, take_port,
};
pub use sign_keys::Kinds;
