//! Row-major matrices, and windows of two rows.
//!
//! Row `r` of a matrix of width `w` holds the values from `r * w` up to, but not including,
//! `(r + 1) * w`. A window is what a constraint sees of a trace: the current row and the next one.
#![tactic(auto)]

mod dense;
mod row_window;
mod view;
mod window;

pub use dense::RowMajorMatrix;
pub use row_window::RowWindow;
pub use view::ViewPair;
pub use window::WindowAccess;
