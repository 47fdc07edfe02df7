//! Floor: program. What the texts of an authority set up: its group, the kinds and the secret of its key, and the
//! certificates that are asked of it; the making of a key's store, its move to another group, and the signing of these
//! certificates; and why a command over them stops. Each text is read whole before anything is done. `command_line`
//! calls it.
#![tactic(auto)]

mod enrolling;
mod halt;
mod making;
mod migrating;
mod moving;
mod reading;
mod setting;
mod signing;

pub use enrolling::enroll;
pub use halt::Halt;
pub use making::make_store;
pub use migrating::migrate_store;
pub use moving::{Moving, read_migrate_text};
pub use reading::{Asked, read_roster, read_secret_text};
pub use setting::Setting;
