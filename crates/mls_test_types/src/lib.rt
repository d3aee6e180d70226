//! Worked examples of the structures on the wire: tests alone, above the crates that they use. Bytes stand as hex
//! digits.
#![tactic(auto)]

#[cfg(test)]
mod digits;
#[cfg(test)]
mod groups;
#[cfg(test)]
mod leaves;
#[cfg(test)]
mod messages;
#[cfg(test)]
mod saved;
#[cfg(test)]
mod signing;
#[cfg(test)]
mod views;
