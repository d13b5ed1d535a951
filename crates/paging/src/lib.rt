// Paging: the translation of addresses and the page handler.
#![tactic(auto)]

pub mod handler;
pub mod pages;
pub mod table;
