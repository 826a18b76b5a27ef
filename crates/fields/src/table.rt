// The tables: how wide each field may be, and which must be filled, by version. Widths are by record and by the field's number: the width
// of field 23 of a 030 is WIDTHS_5[2][23]. No field has the number 0 or one above its record's last, and the width there is 0; no record has
// more than 40 fields.
ghost use Rattle.std.specs.Prelude.{◌≡◌, ℕ, get_or};
ghost use Rattle.fields.specs.Profile.{profile, width_in_table, is_required};

use records::{Record, Version};

// 020 and 030 are the same in both versions.
const SENDER: [u8; 41] = [
    0, 40, 40, 40, 40, 2, 10, 40, 40, 40, 40, 10, 40, 64, 64, 64, 64, 0, 0, 0, 0, 0, 0, 0, 0, 0, 0,
    0, 0, 0, 0, 0, 0, 0, 0, 0, 0, 0, 0, 0, 0,
];

const SHIPMENT: [u8; 41] = [
    0, 40, 10, 40, 40, 40, 40, 2, 10, 40, 40, 40, 40, 10, 40, 64, 40, 40, 40, 40, 2, 10, 40, 40,
    40, 40, 10, 15, 40, 64, 64, 64, 64, 64, 40, 40, 40, 100, 19, 20, 20,
];

// Document 01.
static WIDTHS_5: [[u8; 41]; 6] = [
    // 010
    [
        0, 10, 40, 19, 19, 4, 10, 20, 40, 40, 64, 0, 0, 0, 0, 0, 0, 0, 0, 0, 0, 0, 0, 0, 0, 0, 0,
        0, 0, 0, 0, 0, 0, 0, 0, 0, 0, 0, 0, 0, 0,
    ],
    // 020
    SENDER,
    // 030
    SHIPMENT,
    // 040
    [
        0, 22, 64, 64, 64, 64, 64, 64, 64, 64, 64, 64, 64, 64, 64, 64, 64, 64, 64, 64, 64, 64, 64,
        64, 64, 0, 0, 0, 0, 0, 0, 0, 0, 0, 0, 0, 0, 0, 0, 0, 0,
    ],
    // 050
    [
        0, 20, 64, 64, 64, 64, 64, 64, 64, 64, 64, 64, 64, 64, 64, 64, 64, 64, 64, 64, 64, 64, 64,
        64, 64, 0, 0, 0, 0, 0, 0, 0, 0, 0, 0, 0, 0, 0, 0, 0, 0,
    ],
    // 060
    [
        0, 3, 64, 9, 3, 64, 34, 11, 35, 64, 40, 0, 0, 0, 0, 0, 0, 0, 0, 0, 0, 0, 0, 0, 0, 0, 0, 0,
        0, 0, 0, 0, 0, 0, 0, 0, 0, 0, 0, 0, 0,
    ],
];

// Document 002, and document 01 where that gives none.
static WIDTHS_7: [[u8; 41]; 6] = [
    // 010
    [
        0, 10, 80, 19, 19, 10, 10, 20, 40, 40, 64, 0, 0, 0, 0, 0, 0, 0, 0, 0, 0, 0, 0, 0, 0, 0, 0,
        0, 0, 0, 0, 0, 0, 0, 0, 0, 0, 0, 0, 0, 0,
    ],
    // 020
    SENDER,
    // 030
    SHIPMENT,
    // 040
    [
        0, 24, 11, 40, 1, 40, 40, 9, 3, 100, 2, 1, 100, 64, 64, 64, 64, 64, 64, 64, 64, 64, 64, 64,
        64, 0, 0, 0, 0, 0, 0, 0, 0, 0, 0, 0, 0, 0, 0, 0, 0,
    ],
    // 050
    [
        0, 2, 64, 64, 64, 64, 64, 64, 64, 64, 64, 64, 64, 64, 64, 64, 64, 64, 64, 64, 64, 64, 64,
        64, 64, 0, 0, 0, 0, 0, 0, 0, 0, 0, 0, 0, 0, 0, 0, 0, 0,
    ],
    // 060
    [
        0, 3, 40, 9, 3, 35, 40, 11, 35, 40, 40, 0, 0, 0, 0, 0, 0, 0, 0, 0, 0, 0, 0, 0, 0, 0, 0, 0,
        0, 0, 0, 0, 0, 0, 0, 0, 0, 0, 0, 0, 0,
    ],
];

// How wide the table lets a field be; 0 where there is no such field.
pub fn table_width(version: Version, kind: Record, number: usize) -> usize
    ensures { result ≡ width_in_table (profile version kind) number }
{
    let width = widths_of(version, kind).get(number).copied().unwrap_or(0);
    usize::from(width)
}

// The widths of a record's fields, by number.
fn widths_of(version: Version, kind: Record) -> &'static [u8]
    ensures { (number : ℕ) → get_or result.now number 0 ≡ width_in_table (profile version kind) number }
{
    let row = records::row(kind);
    match version {
        Version::Five => &WIDTHS_5[row],
        Version::Seven => &WIDTHS_7[row],
    }
}

// Whether a field must be filled.
#[tactic(auto, using(crate::proofs::Tables::duties))]
pub fn is_required(version: Version, kind: Record, number: usize) -> bool
    ensures { result ≡ is_required (profile version kind) number }
{
    match (kind, number) {
        (Record::Header, 1 | 3 | 4 | 6) => true,
        (Record::Header, 2 | 5) => version == Version::Five,
        (Record::Sender, 1 | 5 | 6 | 7 | 9 | 11) => true,
        (Record::Shipment, 16 | 20 | 21 | 22 | 24 | 26) => true,
        (Record::Parcel, 1) => true,
        (Record::Parcel, 4) => version == Version::Seven,
        (Record::Product | Record::Feature, 1) => true,
        _ => false,
    }
}
