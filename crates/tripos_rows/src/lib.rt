// Tests that cross crates, and nothing else.
#![tactic(auto)]

#[cfg(test)]
mod discs;
#[cfg(test)]
mod kinds;
#[cfg(test)]
mod logs;
#[cfg(test)]
mod modules;
#[cfg(test)]
mod pipes;
#[cfg(test)]
mod programs;
#[cfg(test)]
mod readers;
#[cfg(test)]
mod same;
#[cfg(test)]
mod sessions;
#[cfg(test)]
mod streams;
