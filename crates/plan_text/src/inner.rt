// The lines of the report.
pub mod lines;
