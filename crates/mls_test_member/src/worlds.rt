//! Worked rows with worlds.

mod numbers;
mod rows;
mod script;
