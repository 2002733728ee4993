// Reads a chart from standard input and prints the listing of its song, or its refusal.
#![tactic(auto)]

mod beats;
mod listed;
mod parts;

ghost use Rattle.std.specs.Prelude.{◌≤◌, ◌<◌, length, take, IfOk};
ghost use Rattle.std.specs.Io.KnownBytes.{Consumes, IsAtEnd};

use listed::{show_items, show_sections};
use reader::Answer;
use std::io;
use std::io::Read;

fn main(rt: HostRuntime) -> io::Result<()> {
    let mut text = [0u8; 65537];
    let n = read_full(&mut rt.stdin(), &mut text)?;
    list(&rt, &text[..n])
}

// Reads until the text is full or the input ends, and returns how many bytes it put at the start of the text.
fn read_full<R: Read>(input: &mut R, text: &mut [u8]) -> io::Result<usize>
    ensures bound { IfOk result (λ n. n ≤ length text.new) }
    ensures bytes { IfOk result (λ n.
        Consumes (R.remaining input.old) (R.remaining input.new) (take n text.new)) }
    ensures end { IfOk result (λ n. n < length text.new → IsAtEnd (R.remaining input.new)) }
{
    let mut done = 0;
    while done < text.len() {
        let n = input.read(&mut text[done..])?;
        if n == 0 {
            break;
        }
        done += n;
    }
    Ok(done)
}

fn list(out: &impl Print, text: &[u8]) -> io::Result<()> {
    let mut keys = [0u32; 8];
    let mut sections = [0u64; 512];
    let mut measures = [0u32; 2048];
    let mut beats = [0u32; 8192];
    let mut items = [0u64; 1024];
    let a = reader::read(
        text,
        &mut keys,
        &mut sections,
        &mut measures,
        &mut beats,
        &mut items,
    );
    if a.refusal != 0 {
        return show_refusal(out, &a);
    }
    show_counts(out, &a)?;
    show_sections(out, text, a.sections, &sections, &measures, &beats)?;
    show_items(out, text, a.items, &items)
}

fn show_refusal(out: &impl Print, a: &Answer) -> io::Result<()> {
    println!(out; "refused {} line {}", a.refusal, a.line)
}

fn show_counts(out: &impl Print, a: &Answer) -> io::Result<()> {
    println!(out;
        "song {} {} {} {}",
        a.sections, a.measures, a.beats, a.items
    )
}
