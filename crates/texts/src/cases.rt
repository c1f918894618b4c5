// The cards for the writer.
use scheme::Pair;
use std::fmt;
use text::FieldName;

// A card for the writer, with the room of its buffer.
#[derive(Clone, Copy)]
pub struct Case<'a> {
    pub name: &'static str,
    pub field: FieldName,
    pub number: u64,
    pub card: &'a [Pair],
    pub room: usize,
}

// What a line about a case begins with.
impl fmt::Display for Case<'_> {
    fn fmt<W: fmt::Write>(&self, f: &mut fmt::Formatter<W>) -> fmt::Result {
        let (name, number, room) = (self.name, self.number, self.room);
        write!(f, "{name}: card={number} room={room}")
    }
}

// The cards of the worked example, from participant 1 on.
pub const DEALT: [Pair; 5] = [
    Pair {
        value: 10,
        tag: 788,
    },
    Pair {
        value: 25,
        tag: 1586,
    },
    Pair {
        value: 64,
        tag: 2456,
    },
    Pair {
        value: 139,
        tag: 3183,
    },
    Pair {
        value: 11,
        tag: 3803,
    },
];

// Two pairs that pass over both fields.
const FINE: &[Pair] = &[
    Pair {
        value: 25,
        tag: 1586,
    },
    Pair { value: 0, tag: 0 },
];

// Largest codes over p251.
const LARGEST_P251: &[Pair] = &[
    Pair {
        value: 25,
        tag: 1586,
    },
    Pair {
        value: 250,
        tag: 63000,
    },
];

// Largest codes over byte.
const LARGEST_BYTE: &[Pair] = &[
    Pair {
        value: 25,
        tag: 1586,
    },
    Pair {
        value: 255,
        tag: 65535,
    },
];

// One pair.
const ONE: &[Pair] = &[Pair {
    value: 25,
    tag: 1586,
}];

// Three pairs, the last with value 251.
const THREE: &[Pair] = &[
    Pair {
        value: 25,
        tag: 1586,
    },
    Pair { value: 0, tag: 0 },
    Pair { value: 251, tag: 0 },
];

const VALUE_251: &[Pair] = &[
    Pair {
        value: 25,
        tag: 1586,
    },
    Pair { value: 251, tag: 0 },
];

const TAG_63001: &[Pair] = &[
    Pair {
        value: 25,
        tag: 1586,
    },
    Pair {
        value: 0,
        tag: 63001,
    },
];

const VALUE_256: &[Pair] = &[Pair { value: 256, tag: 0 }, Pair { value: 0, tag: 0 }];

const TAG_65536: &[Pair] = &[
    Pair {
        value: 0,
        tag: 65536,
    },
    Pair { value: 0, tag: 0 },
];

const VALUE_MOST: &[Pair] = &[
    Pair {
        value: u64::MAX,
        tag: 0,
    },
    Pair { value: 0, tag: 0 },
];

const TAG_MOST: &[Pair] = &[
    Pair {
        value: 0,
        tag: u64::MAX,
    },
    Pair { value: 0, tag: 0 },
];

// A card that is written; the others tell where they differ from it.
const WRITTEN: Case<'static> = Case {
    name: "least room",
    field: FieldName::P251,
    number: 2,
    card: FINE,
    room: 1024,
};

// Cards at the boundary of every question of the writer, for n = 5 and d = 2.
pub const CASES: [Case<'static>; 27] = [
    Case {
        name: "number 0",
        number: 0,
        ..WRITTEN
    },
    Case {
        name: "number 1",
        number: 1,
        ..WRITTEN
    },
    Case {
        name: "number n",
        number: 5,
        ..WRITTEN
    },
    Case {
        name: "number n + 1",
        number: 6,
        ..WRITTEN
    },
    Case {
        name: "the largest number",
        number: u64::MAX,
        ..WRITTEN
    },
    Case {
        name: "number n + 1 over byte",
        field: FieldName::Byte,
        number: 6,
        ..WRITTEN
    },
    Case {
        name: "no pair",
        card: &[],
        ..WRITTEN
    },
    Case {
        name: "a pair too few",
        card: ONE,
        ..WRITTEN
    },
    Case {
        name: "a pair too many",
        card: THREE,
        ..WRITTEN
    },
    Case {
        name: "a pair too few over byte",
        field: FieldName::Byte,
        card: ONE,
        ..WRITTEN
    },
    Case {
        name: "value 250 and tag 63000",
        card: LARGEST_P251,
        ..WRITTEN
    },
    Case {
        name: "value 251",
        card: VALUE_251,
        ..WRITTEN
    },
    Case {
        name: "tag 63001",
        card: TAG_63001,
        ..WRITTEN
    },
    Case {
        name: "codes of byte over p251",
        card: LARGEST_BYTE,
        ..WRITTEN
    },
    Case {
        name: "value 255 and tag 65535 over byte",
        field: FieldName::Byte,
        card: LARGEST_BYTE,
        ..WRITTEN
    },
    Case {
        name: "value 256 over byte",
        field: FieldName::Byte,
        card: VALUE_256,
        ..WRITTEN
    },
    Case {
        name: "tag 65536 over byte",
        field: FieldName::Byte,
        card: TAG_65536,
        ..WRITTEN
    },
    Case {
        name: "the largest value",
        field: FieldName::Byte,
        card: VALUE_MOST,
        ..WRITTEN
    },
    Case {
        name: "the largest tag",
        field: FieldName::Byte,
        card: TAG_MOST,
        ..WRITTEN
    },
    Case {
        name: "no room",
        room: 0,
        ..WRITTEN
    },
    Case {
        name: "room one byte too small",
        room: 1023,
        ..WRITTEN
    },
    Case {
        name: "room one byte too small over byte",
        field: FieldName::Byte,
        room: 1023,
        ..WRITTEN
    },
    WRITTEN,
    Case {
        name: "more room",
        field: FieldName::Byte,
        room: 1100,
        ..WRITTEN
    },
    Case {
        name: "number 0 and no pair",
        number: 0,
        card: &[],
        room: 0,
        ..WRITTEN
    },
    Case {
        name: "no pair and no room",
        card: &[],
        room: 0,
        ..WRITTEN
    },
    Case {
        name: "value 251 and no room",
        card: VALUE_251,
        room: 0,
        ..WRITTEN
    },
];

// The largest text over each field, for n = 32 and d = 64: 64 pairs of the largest codes.
pub const LARGEST: [Case<'static>; 2] = [
    Case {
        name: "largest over byte",
        field: FieldName::Byte,
        number: 32,
        card: &[Pair {
            value: 255,
            tag: 65535,
        }; 64],
        room: 1024,
    },
    Case {
        name: "largest over p251",
        field: FieldName::P251,
        number: 32,
        card: &[Pair {
            value: 250,
            tag: 63000,
        }; 64],
        room: 1024,
    },
];
