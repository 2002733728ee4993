// Parts of the text.
use std::io;

// Prints so many bytes of the text from a place on, as far as there are.
pub fn show_part(out: &impl Print, text: &[u8], at: usize, length: usize) -> io::Result<()> {
    let rest = &text[at.min(text.len())..];
    out.write_all(&rest[..length.min(rest.len())])
}
