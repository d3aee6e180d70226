//! The multiples of the base point that `base` adds up.
mod high;
mod low;

use high::{LIST_4, LIST_5, LIST_6, LIST_7};
use low::{LIST_0, LIST_1, LIST_2, LIST_3};

/// Eight lists. List j has, for each k below 16, three numbers of k * 16^(8 j) times the base point:
/// half the sum and half the difference of y and x, and d x y, each in two halves of 128 bits, the
/// lowest first.
pub(crate) static MULTIPLES: [[u128; 96]; 8] = [
    LIST_0, LIST_1, LIST_2, LIST_3, LIST_4, LIST_5, LIST_6, LIST_7,
];
