//! Floor: checks. Tests of nodes: call by call, served over a link and a clock in memory, and run from a text. What
//! they report and send stands beside values that were worked out without them. Nothing stands on it.
#![tactic(auto)]

#[cfg(test)]
mod calls;
#[cfg(test)]
mod carried;
#[cfg(test)]
mod healing;
#[cfg(test)]
mod oddities;
#[cfg(test)]
mod running;
#[cfg(test)]
mod scene;
#[cfg(test)]
mod serving;
