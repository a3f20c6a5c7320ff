//! The words that answers of rows are made of, the fields of a row, and the loop over the rows of an input.
#![tactic(auto)]

mod comparison;
mod fault;
mod fields;
mod plain;

pub use comparison::{Counts, Judge, compare_input};
pub use fault::RowFault;
pub use fields::{Fields, bytes_of, number_of};
pub use plain::{
    bool_word, given_text, halves, hex_text, ids_text, join_by_space, number_text, three_given,
    three_lists,
};
