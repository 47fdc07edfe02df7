//! Floor: checks. Tests of lines, texts and journals, and of the commands that read a text, over objects in memory.
//! Nothing stands on it.
#![tactic(auto)]

#[cfg(test)]
mod commands;
#[cfg(test)]
mod copying;
#[cfg(test)]
mod direct_lines;
#[cfg(test)]
mod enrolling;
#[cfg(test)]
mod field_bytes;
#[cfg(test)]
mod head_lines;
#[cfg(test)]
mod heal_lines;
#[cfg(test)]
mod journals;
#[cfg(test)]
mod kit_lines;
#[cfg(test)]
mod life_lines;
#[cfg(test)]
mod making;
#[cfg(test)]
mod memory_ports;
#[cfg(test)]
mod migrating;
#[cfg(test)]
mod replaying;
#[cfg(test)]
mod roster_lines;
#[cfg(test)]
mod soaks;
#[cfg(test)]
mod two_levels;
#[cfg(test)]
mod verify_lines;
#[cfg(test)]
mod verifying;
#[cfg(test)]
mod words;
#[cfg(test)]
mod world_lines;
