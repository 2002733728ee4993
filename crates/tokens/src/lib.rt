// The tokens of pattern text as words; base chords, decimals, words.
#![tactic(auto)]

mod bases;
mod keeping;
mod lexing;
mod numbers;
mod signs;
mod words;

pub use bases::{Base, is_base, longest_base, spelling_of};
pub use keeping::{keep_line, lay_line};
pub use lexing::{Lexed, end_line, lex_line, next_token};
pub use numbers::number_in;
pub use signs::{
    AGAIN, CHORDS, CLOSES, COLON, LINE_END, LOOPS_DEEP, OPENS, REFERENCE, REMOVER, SEMICOLON,
    SILENCE, SILENCE_WORD, WRONG, WRONG_WORD, is_position, is_separator, is_stop, kind, number,
};
pub use words::has_slip;
