// Base chords: seven rows of spellings, and the longest that is taken at the front of a word.
ghost use Rattle.std.specs.Prelude.{◌≡◌, true, ◌-◌, ◌≤◌, get_or, drop};
ghost use Rattle.std.proofs.Math.Option.{none};
ghost use Rattle.songcode.specs.Bytes.{placed};
ghost use Rattle.songcode.specs.Answer.Chords.{bases, spelling_of, is_taken, longest_from, is_base};
ghost use Rattle.tokens.specs.Bases.{base_of, unpadded, first_of, row_of_number, is_letter, has_minor, sign_of, major_length, with_minor};

use text::byte_at;

// What pads a row of less than six.
const NONE: [u8; 3] = *b"\0\0\0";

// The rows by letter; a short spelling ends with zeros.
const ROW_A: [[u8; 3]; 6] = [*b"A\0\0", *b"A#\0", *b"Ab\0", *b"Am\0", *b"A#m", *b"Abm"];

const ROW_B: [[u8; 3]; 6] = [*b"B\0\0", *b"Bb\0", *b"Bm\0", *b"Bbm", NONE, NONE];

const ROW_C: [[u8; 3]; 6] = [*b"C\0\0", *b"C#\0", *b"Cm\0", *b"C#m", NONE, NONE];

const ROW_D: [[u8; 3]; 6] = [*b"D\0\0", *b"Db\0", *b"D#\0", *b"Dm\0", *b"Dbm", *b"D#m"];

const ROW_E: [[u8; 3]; 6] = [*b"E\0\0", *b"Eb\0", *b"Em\0", *b"Ebm", NONE, NONE];

const ROW_F: [[u8; 3]; 6] = [*b"F\0\0", *b"F#\0", *b"Fm\0", *b"F#m", NONE, NONE];

const ROW_G: [[u8; 3]; 6] = [*b"G\0\0", *b"Gb\0", *b"G#\0", *b"Gm\0", *b"Gbm", *b"G#m"];

const ROWS: [[[u8; 3]; 6]; 7] = [ROW_A, ROW_B, ROW_C, ROW_D, ROW_E, ROW_F, ROW_G];

// The number of the first base chord of each row.
const FIRSTS: [usize; 7] = [0, 6, 10, 14, 20, 24, 28];

// The first half of a row is its major chords: so far behind the letter stand those with a sharp and with a flat, 0 where there is none.
const SHARPS: [usize; 7] = [1, 0, 1, 2, 0, 1, 2];

const FLATS: [usize; 7] = [2, 1, 0, 1, 1, 0, 1];

// So far behind each major chord of a row stands its minor one.
const MINORS: [usize; 7] = [3, 2, 2, 3, 2, 2, 3];

// No base chord has this number.
const NO_NUMBER: usize = 34;

// A letter that has a row.
pub fn is_letter(b: u8) -> bool
    ensures { result ≡ is_letter b }
{
    b'A' <= b && b <= b'G'
}

// A base chord: its number and how many bytes spell it; length 0 where there is none.
#[derive(Drop)]
pub struct Base {
    pub number: usize,
    pub length: usize,
}

// An `m` stands at a place of a word that is none of a `maj`.
fn has_minor(w: &[u8], i: usize) -> bool
    requires { i ≤ 2 }
    ensures { result ≡ has_minor (drop i w.now) }
{
    if byte_at(w, i) != b'm' {
        return false;
    }
    if byte_at(w, i + 1) != b'a' {
        return true;
    }
    byte_at(w, i + 2) != b'j'
}

// The number that a letter has of seven; what is returned for any other byte has no meaning.
fn at_letter(numbers: [usize; 7], letter: u8) -> usize
    requires { is_letter letter ≡ true }
    ensures { result ≡ get_or numbers (letter - 65) 0 }
{
    match letter {
        b'A' => numbers[0],
        b'B' => numbers[1],
        b'C' => numbers[2],
        b'D' => numbers[3],
        b'E' => numbers[4],
        b'F' => numbers[5],
        b'G' => numbers[6],
        _ => NO_NUMBER,
    }
}

// The number of the base chord that is a letter alone.
pub fn first_of(letter: u8) -> usize
    requires { is_letter letter ≡ true }
    ensures { (result ≡ first_of (letter - 65)) × (result ≤ 28) }
{
    at_letter(FIRSTS, letter)
}

// How far behind its letter a chord with this sign stands; 0 where there is none.
fn sign_of(letter: u8, b: u8) -> usize
    requires { is_letter letter ≡ true }
    ensures { (result ≡ sign_of (letter - 65) b) × (result ≤ 2) }
{
    if b == b'#' {
        return at_letter(SHARPS, letter);
    }
    if b == b'b' {
        return at_letter(FLATS, letter);
    }
    0
}

// How many bytes spell a letter with its sign, by how far behind the letter it stands.
fn major_len(sign: usize) -> usize
    ensures { (result ≡ major_length sign) × (result ≤ 2) }
{
    if sign == 0 { 1 } else { 2 }
}

// A major chord at the front of a word, or its minor one.
fn with_minor(w: &[u8], letter: u8, number: usize, length: usize) -> Base
    requires { (is_letter letter ≡ true) × (number ≤ 30) × (length ≤ 2) }
    ensures { result ≡ with_minor (letter - 65) number length w.now }
{
    if !has_minor(w, length) {
        return Base { number, length };
    }
    Base {
        number: number + at_letter(MINORS, letter),
        length: length + 1,
    }
}

// The longest base chord at the front of a word that begins with a letter.
pub fn base_of(letter: u8, w: &[u8]) -> Base
    requires { (is_letter letter ≡ true) × (get_or w.now 0 0 ≡ letter) }
    ensures { result ≡ base_of (longest_from is_taken 0 bases w.now none) }
{
    let first = first_of(letter);
    let sign = sign_of(letter, byte_at(w, 1));
    with_minor(w, letter, first + sign, major_len(sign))
}

// The longest base chord at the front of a word.
pub fn longest_base(w: &[u8]) -> Base
    ensures { result ≡ base_of (longest_from is_taken 0 bases w.now none) }
{
    let letter = byte_at(w, 0);
    if !is_letter(letter) {
        return Base {
            number: 0,
            length: 0,
        };
    }
    base_of(letter, w)
}

// The word is a base chord exactly.
pub fn is_base(w: &[u8]) -> bool
    ensures { result ≡ is_base (placed 0 w.now) }
{
    let b = longest_base(w);
    if b.length == 0 {
        return false;
    }
    b.length == w.len()
}

// The row in which a base chord stands; the last for every number past it.
fn row_of(number: usize) -> usize
    ensures { result ≡ row_of_number number }
{
    if number < 6 {
        return 0;
    }
    if number < 10 {
        return 1;
    }
    if number < 14 {
        return 2;
    }
    if number < 20 {
        return 3;
    }
    if number < 24 {
        return 4;
    }
    if number < 28 {
        return 5;
    }
    6
}

// The spelling of a base chord by its number, with zeros behind it; nothing but zeros for every other number.
pub fn spelling_of(number: usize) -> [u8; 3]
    ensures { unpadded result ≡ spelling_of number }
{
    if 33 < number {
        return NONE;
    }
    let row = row_of(number);
    ROWS[row][number - FIRSTS[row]]
}
