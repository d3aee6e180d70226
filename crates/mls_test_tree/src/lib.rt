//! Worked places, checks of leaves, hashes of nodes, arrays of nodes, public trees by rows, and private keys of small
//! trees: tests alone, above the crates that they use.
#![tactic(auto)]

#[cfg(test)]
mod arrays;
#[cfg(test)]
mod capabilities;
#[cfg(test)]
mod checks;
#[cfg(test)]
mod commits;
#[cfg(test)]
mod hash_counts;
#[cfg(test)]
mod hashes;
#[cfg(test)]
mod joiners;
#[cfg(test)]
mod keys;
#[cfg(test)]
mod openings;
#[cfg(test)]
mod paths;
#[cfg(test)]
mod repeats;
#[cfg(test)]
mod rows;
#[cfg(test)]
mod seals;
#[cfg(test)]
mod shapes;
#[cfg(test)]
mod shared_trees;
#[cfg(test)]
mod small_trees;
#[cfg(test)]
mod tree_checks;
