// The tests before a call's work.
pub mod check;
