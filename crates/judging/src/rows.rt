// How long the row is that a chart is laid into: a word for each byte, and some more. A small row is soon cleared, so a chart gets the smallest that does.

// A chart of few bytes, and its row.
pub const SMALL_CHART: usize = 512;

pub const SMALL_ROW: usize = 528;

// A chart as nearly all are, and its row.
pub const SHORT_CHART: usize = 2048;

pub const SHORT_ROW: usize = 2064;

// The row of any chart.
pub const LONG_ROW: usize = 65552;
