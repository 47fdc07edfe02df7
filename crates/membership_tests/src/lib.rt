//! Floor: checks. Tests of the membership's rules, of failure detection, of gossip and of datagrams. Nothing stands on
//! it.
#![tactic(auto)]

#[cfg(test)]
mod answering;
#[cfg(test)]
mod datagrams;
#[cfg(test)]
mod detecting;
#[cfg(test)]
mod held_records;
#[cfg(test)]
mod known_records;
#[cfg(test)]
mod monitors;
#[cfg(test)]
mod partners;
#[cfg(test)]
mod places;
#[cfg(test)]
mod timers;
#[cfg(test)]
mod views;
