// The nodes of a raster, a strip of at most 64 columns at a time. A strip keeps the rounded x sums of the last four lattice rows in a ring, so that a
// lattice row is summed once for all the raster rows that use it, and a node costs one rounding.
#![tactic(auto)]

mod piece;
mod ring;
mod taps;

pub use piece::{Piece, Strip, strip_from};
pub use ring::{advance, node_sum, whole_strip};
pub use taps::{Columns, UNTAPPED, tap};
