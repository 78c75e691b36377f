// What a filling refuses, and what it does.
pub mod check;
pub mod fill;
