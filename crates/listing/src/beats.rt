// A beat as the listing shows it.
use super::parts::show_part;
use packing::beat_of;
use std::io;
use tokens::spelling_of;

// The number of the last base chord; silence has a higher one.
const LAST_BASE: usize = 33;

// Up to the zeros at its end.
fn show_name(out: &impl Print, name: [u8; 3]) -> io::Result<()> {
    let length = name
        .iter()
        .position(|byte| *byte == 0)
        .unwrap_or(name.len());
    out.write_all(&name[..length])
}

// `.` goes on with the sound before, `_` is silence.
pub fn show_beat(out: &impl Print, text: &[u8], word: u32) -> io::Result<()> {
    let beat = beat_of(word);
    if !beat.head {
        return out.write_all(b" .");
    }
    if beat.base > LAST_BASE {
        return out.write_all(b" _");
    }
    out.write_all(b" ")?;
    show_name(out, spelling_of(beat.base))?;
    show_part(out, text, beat.extension, beat.length)
}
