//! Tests of the libraries and of whole runs, which nothing stands on: a crate with tests is proved once more with them,
//! so they stand apart from what they try.
#![tactic(auto)]

#[cfg(test)]
mod asking;
#[cfg(test)]
mod base;
#[cfg(test)]
mod cases;
#[cfg(test)]
mod casing;
#[cfg(test)]
mod cycle;
#[cfg(test)]
mod dealer;
#[cfg(test)]
mod drill;
#[cfg(test)]
mod exchange;
#[cfg(test)]
mod firm;
#[cfg(test)]
mod guess;
#[cfg(test)]
mod io;
#[cfg(test)]
mod laminar;
#[cfg(test)]
mod links;
#[cfg(test)]
mod local;
#[cfg(test)]
mod middle;
#[cfg(test)]
mod outcomes;
#[cfg(test)]
mod rows;
#[cfg(test)]
mod runs;
#[cfg(test)]
mod stalls;
#[cfg(test)]
mod standard;
#[cfg(test)]
mod two_stalls;
#[cfg(test)]
mod unit_outcomes;
#[cfg(test)]
mod units;
#[cfg(test)]
mod worked_rows;
