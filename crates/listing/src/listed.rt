// Sections with their measures, and items.
use super::beats::show_beat;
use super::parts::show_part;
use packing::{item_of, measure_of, section_of};
use std::io;

fn show_measure(out: &impl Print, text: &[u8], word: u32, beats: &[u32]) -> io::Result<()> {
    let measure = measure_of(word);
    out.write_all(b"measure")?;
    for beat in beats.iter().skip(measure.first).take(measure.beats) {
        show_beat(out, text, *beat)?;
    }
    out.write_all(b"\n")
}

fn show_section(
    out: &impl Print,
    text: &[u8],
    word: u64,
    measures: &[u32],
    beats: &[u32],
) -> io::Result<()> {
    let section = section_of(word);
    println!(out;
        "section {} {} {}",
        section.header, section.measures, section.meter
    )?;
    for measure in measures.iter().skip(section.first).take(section.measures) {
        show_measure(out, text, *measure, beats)?;
    }
    Ok(())
}

pub fn show_sections(
    out: &impl Print,
    text: &[u8],
    count: usize,
    sections: &[u64],
    measures: &[u32],
    beats: &[u32],
) -> io::Result<()> {
    for section in sections.iter().take(count) {
        show_section(out, text, *section, measures, beats)?;
    }
    Ok(())
}

fn style_name(style: usize) -> &'static str {
    match style {
        0 => "plain",
        1 => "info",
        _ => "crew",
    }
}

fn show_item(out: &impl Print, text: &[u8], word: u64) -> io::Result<()> {
    let item = item_of(word);
    print!(out;
        "item {} {} {} ",
        style_name(item.style),
        item.first,
        item.measures
    )?;
    show_part(out, text, item.offset, item.length)?;
    out.write_all(b"\n")
}

pub fn show_items(out: &impl Print, text: &[u8], count: usize, items: &[u64]) -> io::Result<()> {
    for item in items.iter().take(count) {
        show_item(out, text, *item)?;
    }
    Ok(())
}
