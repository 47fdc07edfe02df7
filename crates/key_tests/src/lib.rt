//! Floor: checks. Tests of keys, signed records, stores and signers: values of other implementations, each fault beside
//! each later one, each stop, each outcome of a crash and each changed byte. Nothing stands on it.
#![tactic(auto)]

#[cfg(test)]
mod costs;
#[cfg(test)]
mod derived;
#[cfg(test)]
mod faults;
#[cfg(test)]
mod lives;
#[cfg(test)]
mod one_time;
#[cfg(test)]
mod record_forms;
#[cfg(test)]
mod rosters;
#[cfg(test)]
mod stores;
#[cfg(test)]
mod trees;
#[cfg(test)]
mod two_levels;
