//! Floor: checks. Tests of worlds: schedules that are played line by line and their traces, and the parts that these
//! stand on. Nothing stands on it.
#![tactic(auto)]

#[cfg(test)]
mod lines;
#[cfg(test)]
mod player;
#[cfg(test)]
mod replaying;
#[cfg(test)]
mod schedules;
#[cfg(test)]
mod signing;
