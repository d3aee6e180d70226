//! Ratchet trees that are looked at before they are owned: those of more nodes than a tree has are refused by their bytes.
#![tactic(auto)]

mod group_info;
mod long_list;

pub use group_info::GroupInfoView;
pub use long_list::{refuse_long, refuse_long_list};
