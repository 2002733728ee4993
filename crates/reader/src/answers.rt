// The answer to a chart: a refusal with its line, or the counts.
ghost use Rattle.std.specs.Prelude.{◌≡◌};
ghost use Rattle.refusals.specs.Names.{number_of};
ghost use Rattle.reader.specs.Room.{refused_with, accepted_with, answered_by};

use judging::Totals;
use refusals::Refusal;

// Refusal and line, both 0 where the song is accepted, and how many words of each table are its own.
#[derive(Clone, Copy)]
pub struct Answer {
    pub refusal: usize,
    pub line: usize,
    pub sections: usize,
    pub measures: usize,
    pub beats: usize,
    pub items: usize,
}

// How many words each lent table has.
#[derive(Drop)]
pub struct Room {
    pub keys: usize,
    pub sections: usize,
    pub measures: usize,
    pub beats: usize,
    pub items: usize,
}

fn refused(e: Refusal) -> Answer
    ensures { result ≡ refused_with (number_of e.why) e.line }
{
    Answer {
        refusal: usize::from(e.why),
        line: e.line,
        sections: 0,
        measures: 0,
        beats: 0,
        items: 0,
    }
}

fn accepted(totals: Totals) -> Answer
    ensures { result ≡ accepted_with totals }
{
    Answer {
        refusal: 0,
        line: 0,
        sections: totals.sections,
        measures: totals.measures,
        beats: totals.beats,
        items: totals.items,
    }
}

// The answer by what the stages give.
pub fn answered(judged: Result<Totals, Refusal>) -> Answer
    ensures { result ≡ answered_by judged }
{
    match judged {
        Ok(totals) => accepted(totals),
        Err(refusal) => refused(refusal),
    }
}
