// What a cut takes: so many whole measures, and so many beats.
#![tactic(auto)]

// A count of measures; a count of beats. Neither stands for the other.
#[derive(Clone, Copy)]
pub struct Measures(pub usize);

#[derive(Clone, Copy)]
pub struct Beats(pub usize);

#[derive(Clone, Copy)]
pub struct Cut {
    pub measures: Measures,
    pub beats: Beats,
}

// A cut that takes nothing.
pub const NO_CUT: Cut = Cut {
    measures: Measures(0),
    beats: Beats(0),
};
