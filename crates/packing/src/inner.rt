// Where twiddles stand, and the filling of the stages.
pub mod packing;
pub mod places;
pub mod stages;
