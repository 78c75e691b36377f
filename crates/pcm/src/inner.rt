// What the calls over files are made of.
pub mod samples;
