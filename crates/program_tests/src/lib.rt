//! Floor: checks. Tests of the commands, run over objects in memory: worked texts to the byte, each bad word, and each
//! call that fails; and of the real objects of the outside. Nothing stands on it.
#![tactic(auto)]

#[cfg(test)]
mod first_lines;
#[cfg(test)]
mod members;
#[cfg(test)]
mod moving;
#[cfg(test)]
mod outside;
#[cfg(test)]
mod refusing;
#[cfg(test)]
mod replaying;
#[cfg(test)]
mod runs;
#[cfg(test)]
mod serving;
#[cfg(test)]
mod storing;
#[cfg(test)]
mod two_levels;
#[cfg(test)]
mod verifying;
#[cfg(test)]
mod worlds;
