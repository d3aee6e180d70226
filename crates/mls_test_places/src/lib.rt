//! Where files that are refused have their faults, what recordings are read as, pages as JSON objects, checks of trees and
//! GroupInfos, and callers that are generic over a suite: tests alone, above the crates that they use. Bytes stand as hex
//! digits.
#![tactic(auto)]

#[cfg(test)]
mod checks;
#[cfg(test)]
mod group_infos;
#[cfg(test)]
mod json_pages;
#[cfg(test)]
mod json_places;
#[cfg(test)]
mod places;
#[cfg(test)]
mod recordings;
#[cfg(test)]
mod rows;
#[cfg(test)]
mod rules;
#[cfg(test)]
mod suites;
