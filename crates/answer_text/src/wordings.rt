// What each number of a refusal says.
ghost use Rattle.std.specs.Prelude.{◌≡◌, MatchOption, None, Some};
ghost use Rattle.answer_text.specs.Wordings.{parts_among};

/// A part of the text of a refusal: words, or what the refusal keeps.
#[derive(Clone, Copy, Debug)]
pub enum Part {
    Words(&'static [u8]),
    Place,
    Name,
    Kept,
}

/// The text of a refusal with that number, behind the word ERROR.
#[derive(Clone, Copy, Debug)]
pub struct Wording {
    pub number: u16,
    pub parts: &'static [Part],
}

pub const WORDINGS: [Wording; 25] = [
    Wording {
        number: 10,
        parts: &[Part::Words(b"10 syntax at byte "), Part::Place],
    },
    Wording {
        number: 11,
        parts: &[Part::Words(b"11 statement longer than 65536 bytes")],
    },
    Wording {
        number: 12,
        parts: &[Part::Words(b"12 transaction state")],
    },
    Wording {
        number: 13,
        parts: &[
            Part::Words(b"13 character "),
            Part::Kept,
            Part::Words(b" at byte "),
            Part::Place,
        ],
    },
    Wording {
        number: 14,
        parts: &[Part::Words(b"14 not built")],
    },
    Wording {
        number: 20,
        parts: &[
            Part::Words(b"20 table "),
            Part::Name,
            Part::Words(b" exists"),
        ],
    },
    Wording {
        number: 21,
        parts: &[Part::Words(b"21 no table "), Part::Name],
    },
    Wording {
        number: 22,
        parts: &[Part::Words(b"22 no column "), Part::Name],
    },
    Wording {
        number: 23,
        parts: &[
            Part::Words(b"23 column "),
            Part::Name,
            Part::Words(b" twice"),
        ],
    },
    Wording {
        number: 24,
        parts: &[
            Part::Words(b"24 index "),
            Part::Name,
            Part::Words(b" exists"),
        ],
    },
    Wording {
        number: 25,
        parts: &[Part::Words(b"25 no index "), Part::Name],
    },
    Wording {
        number: 26,
        parts: &[Part::Words(b"26 limit "), Part::Kept],
    },
    Wording {
        number: 27,
        parts: &[
            Part::Words(b"27 column "),
            Part::Name,
            Part::Words(b" not grouped"),
        ],
    },
    Wording {
        number: 30,
        parts: &[Part::Words(b"30 wrong type for "), Part::Name],
    },
    Wording {
        number: 31,
        parts: &[Part::Words(b"31 out of range for "), Part::Name],
    },
    Wording {
        number: 32,
        parts: &[Part::Words(b"32 null in "), Part::Name],
    },
    Wording {
        number: 33,
        parts: &[Part::Words(b"33 text too long for "), Part::Name],
    },
    Wording {
        number: 34,
        parts: &[Part::Words(b"34 no such date for "), Part::Name],
    },
    Wording {
        number: 35,
        parts: &[Part::Words(b"35 wrong number of values")],
    },
    Wording {
        number: 36,
        parts: &[Part::Words(b"36 value for generated "), Part::Name],
    },
    Wording {
        number: 37,
        parts: &[Part::Words(b"37 overflow in "), Part::Name],
    },
    Wording {
        number: 40,
        parts: &[Part::Words(b"40 duplicate key in "), Part::Name],
    },
    Wording {
        number: 41,
        parts: &[
            Part::Words(b"41 expression of "),
            Part::Name,
            Part::Words(b" not accepted"),
        ],
    },
    Wording {
        number: 70,
        parts: &[
            Part::Words(b"70 file full at "),
            Part::Kept,
            Part::Words(b" extents"),
        ],
    },
    Wording {
        number: 71,
        parts: &[Part::Words(b"71 row numbers used up at "), Part::Kept],
    },
];

/// The parts of the wording with that number.
pub fn parts_among(wordings: &[Wording], number: u16) -> Option<&[Part]>
    ensures { MatchOption result
        (parts_among wordings.now number ≡ None)
        (λ parts. parts_among wordings.now number ≡ Some parts.now) }
{
    for wording in wordings {
        if wording.number == number {
            return Some(wording.parts);
        }
    }
    None
}
