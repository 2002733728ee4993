// The stages of a chart one after another: which refusal is given, and where none is, what the song's tables will hold.
#![tactic(auto)]

mod charts;
mod counts;
mod lengths;
mod lyrics;
mod measures;
mod meters;
mod references;
mod rows;
mod singing;
mod stages;
mod sums;
mod walking;

pub use charts::{Chart, judge};
pub use counts::section_counts;
pub use rows::{LONG_ROW, SHORT_CHART, SHORT_ROW, SMALL_CHART, SMALL_ROW};
pub use stages::first_stages;
pub use sums::Totals;
