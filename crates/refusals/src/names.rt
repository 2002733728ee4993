// What a chart, or a call, is refused for.
ghost use Rattle.std.specs.Prelude.{◌≡◌};
ghost use Rattle.refusals.specs.Names.{number_of, Names};

// Each has the number that the papers give it.
#[derive(Clone, Copy, PartialEq, Eq)]
pub enum Why {
    // Stage 1: "over 65,536 bytes", "bad UTF-8 or zero byte".
    TextTooLong = 1,
    BadText,
    // Stage 2: a block after one of a later kind; a key, a setting, a definition's head, pattern text, another line against the rules; no section at all.
    BlockOrder,
    BadKey,
    BadSetting,
    BadHead,
    BadPattern,
    BadLine,
    NoSection,
    // Stage 3: a reference to what is not defined earlier; one that is too deep, makes a loop in a loop, or leads from a definition to an empty one.
    ReferenceUndefined,
    ReferenceKind,
    // Stage 4: "measure doesn't divide N", "`%` with no chord before".
    Division,
    NoChordBefore,
    // Stage 5: over 65,535 measures; cuts that leave no beat, or a modifier on an empty pattern.
    SongTooLong,
    NothingLeft,
    // Stage 6: a lyric line without a count beside one that has it. Stage 7: counts that do not sum to a section's measures.
    CountMissing,
    CountSum,
    // Stage 8: a table without room.
    TableTooShort,
    // The second call: no record that holds the beat.
    BeatNotFound,
    // The flat copy: a buffer without room.
    CopyTooLong,
    // Concert pitch: a move below -11 or above 20; a word that no beat table has.
    MoveOutOfRange,
    NoBeatWord,
    // Light cues: "tables that don't join up"; "a section with measures whose bpm is 0 or above 400".
    NotJoined = 25,
    NotTimed,
}

impl From<Why> for usize {
    ghost from_gives = { λ why number. number ≡ number_of why };

    fn from(why: Why) -> usize {
        why as usize
    }
}

// A number that names nothing.
#[derive(Clone, Copy, PartialEq, Eq)]
pub struct UnknownNumber(pub usize);

impl TryFrom<usize> for Why {
    type Error = UnknownNumber;

    ghost try_from_gives = { Names };

    fn try_from(number: usize) -> Result<Self, UnknownNumber> {
        match number {
            1 => Ok(Why::TextTooLong),
            2 => Ok(Why::BadText),
            3 => Ok(Why::BlockOrder),
            4 => Ok(Why::BadKey),
            5 => Ok(Why::BadSetting),
            6 => Ok(Why::BadHead),
            7 => Ok(Why::BadPattern),
            8 => Ok(Why::BadLine),
            9 => Ok(Why::NoSection),
            10 => Ok(Why::ReferenceUndefined),
            11 => Ok(Why::ReferenceKind),
            12 => Ok(Why::Division),
            13 => Ok(Why::NoChordBefore),
            14 => Ok(Why::SongTooLong),
            15 => Ok(Why::NothingLeft),
            16 => Ok(Why::CountMissing),
            17 => Ok(Why::CountSum),
            18 => Ok(Why::TableTooShort),
            19 => Ok(Why::BeatNotFound),
            20 => Ok(Why::CopyTooLong),
            21 => Ok(Why::MoveOutOfRange),
            22 => Ok(Why::NoBeatWord),
            25 => Ok(Why::NotJoined),
            26 => Ok(Why::NotTimed),
            _ => Err(UnknownNumber(number)),
        }
    }
}
