// The entries for C, a module for each group of calls. An archive holds the entries of the crate that it is named for and of no other,
// so they are all in this crate, above every crate whose functions they call.
#![tactic(auto)]

pub mod book;
pub mod lists;
pub mod month;
pub mod times;
