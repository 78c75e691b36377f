// The filling of the ends.
pub mod ends;
