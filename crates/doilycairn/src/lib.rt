// The codec for C and for other languages: every call over numbers, slices and structs by value.
#![tactic(auto)]

mod answers;
pub mod blocks;
pub mod files;
pub mod measuring;
pub mod reading;
pub mod sizes;
pub mod writing;
