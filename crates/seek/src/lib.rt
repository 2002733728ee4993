// The second call: the record of a measure table that holds a beat, searched for by halving.
#![tactic(auto)]

ghost use Rattle.std.specs.Prelude.{◌≡◌};
ghost use Rattle.songcode.specs.Answer.Finding.{jump_to};
ghost use Rattle.seek.specs.Answers.{found_of, refused};

use refusals::Why;

// "for a table over 65,535 records": more are not searched, so that 16 probes are enough.
const MOST_RECORDS: usize = 65535;

// The record's place, if a record holds the beat; and how many records were read.
#[derive(Clone, Copy, PartialEq, Eq)]
pub struct Found {
    pub place: Option<usize>,
    pub probes: usize,
}

impl Found {
    // What is said where no record holds the beat.
    pub fn refused(&self) -> Option<Why>
        ensures { result ≡ refused self.now.place }
    {
        match self.place {
            Some(_) => None,
            None => Some(Why::BeatNotFound),
        }
    }
}

// For any table and any beat. The promise counts the records that are read, so this is a loop of its own.
pub fn find_measure(measures: &[u32], beat: u32) -> Found
    ensures { result ≡ found_of (jump_to beat measures.now) }
{
    if measures.len() > MOST_RECORDS {
        return Found {
            place: None,
            probes: 0,
        };
    }
    let wanted = beat as usize;
    let mut start = 0;
    let mut end = measures.len();
    let mut probes = 0;
    while start < end {
        let place = (start + end) / 2;
        let record = packing::measure_of(measures[place]);
        probes += 1;
        if wanted < record.first {
            end = place;
        } else if wanted < record.first + record.beats {
            return Found {
                place: Some(place),
                probes,
            };
        } else {
            start = place + 1;
        }
    }
    Found {
        place: None,
        probes,
    }
}
