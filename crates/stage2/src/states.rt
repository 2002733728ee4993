// What the walk over the lines keeps of those before.
use grammar::Check;
use refusals::Complaint;

// Where a section's line stands between its header and the `--`: only keys came before it; a modifier came before the pattern;
// in the pattern's run; past it.
#[derive(Clone, Copy)]
pub enum Part {
    Keys,
    Early,
    Pattern,
    Behind,
}

// Where a line stands: between blocks, in metadata, behind a definition's head, among its pattern lines, in a section, among its lyrics.
#[derive(Clone, Copy)]
pub enum Place {
    Between,
    Metadata,
    Head,
    Definition,
    Body(Part),
    Lyrics,
}

// What goes from block to block: the latest kind, the keys of all metadata, how many definitions there are, counted up to 26.
#[derive(Clone, Copy)]
pub struct Carried {
    pub turn: usize,
    pub metadata: [bool; 8],
    pub count: usize,
}

// What a block's end will complain of: no pattern line, `--` without lyrics, and the pattern's text if the check of it says so.
#[derive(Clone, Copy)]
pub struct Pending {
    pub want: Complaint,
    pub bare: Complaint,
    pub bad: Complaint,
    pub check: Check,
}

#[derive(Clone, Copy)]
pub struct State {
    pub place: Place,
    pub carried: Carried,
    pub keys: [bool; 8],
    pub modifiers: [bool; 8],
    pub pending: Pending,
}

// What a line is complained of, and the state behind it.
#[derive(Clone, Copy)]
pub struct Judged {
    pub note: Complaint,
    pub state: State,
}
