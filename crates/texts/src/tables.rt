// The texts for the reader: those that are read, and those that are refused.

// A text with its name, and the refusal that is expected of it, by its number and its line; none where the text is read.
pub type Row = (&'static str, &'static [u8], Option<(u32, u32)>);

// Texts that are read.
pub const READ: [Row; 13] = [
    (
        "the card of participant 2",
        b"field=p251\nn=5\nk=4\nt=1\nd=1\ncard=2\nv=25\ng=1586\n",
        None,
    ),
    (
        "the same over byte",
        b"field=byte\nn=5\nk=4\nt=1\nd=1\ncard=2\nv=25\ng=1586\n",
        None,
    ),
    (
        "card 1",
        b"field=p251\nn=5\nk=4\nt=1\nd=1\ncard=1\nv=25\ng=1586\n",
        None,
    ),
    (
        "card n",
        b"field=p251\nn=5\nk=4\nt=1\nd=1\ncard=5\nv=25\ng=1586\n",
        None,
    ),
    (
        "t is 0",
        b"field=p251\nn=5\nk=4\nt=0\nd=1\ncard=2\nv=25\ng=1586\n",
        None,
    ),
    (
        "codes 0",
        b"field=p251\nn=5\nk=4\nt=1\nd=1\ncard=2\nv=0\ng=0\n",
        None,
    ),
    (
        "largest codes over p251",
        b"field=p251\nn=5\nk=4\nt=1\nd=1\ncard=2\nv=250\ng=63000\n",
        None,
    ),
    (
        "largest codes over byte",
        b"field=byte\nn=5\nk=4\nt=1\nd=1\ncard=2\nv=255\ng=65535\n",
        None,
    ),
    (
        "three pairs over p251",
        b"field=p251\nn=5\nk=4\nt=1\nd=3\ncard=2\nv=25,0,250\ng=63000,1586,0\n",
        None,
    ),
    (
        "two pairs over byte",
        b"field=byte\nn=5\nk=4\nt=1\nd=2\ncard=2\nv=255,9\ng=10,65535\n",
        None,
    ),
    (
        "least figures",
        b"field=p251\nn=1\nk=1\nt=0\nd=1\ncard=1\nv=25\ng=1586\n",
        None,
    ),
    (
        "n and k 32, t 10",
        b"field=p251\nn=32\nk=32\nt=10\nd=1\ncard=32\nv=25\ng=1586\n",
        None,
    ),
    (
        "64 pairs",
        b"field=p251\nn=5\nk=4\nt=1\nd=64\ncard=2\nv=0,0,0,0,0,0,0,0,0,0,0,0,0,0,0,0,0,0,0,0,0,0,0,0,0,0,0,0,0,0,0,0,0,0,0,0,0,0,0,0,0,0,0,0,0,0,0,0,0,0,0,0,0,0,0,0,0,0,0,0,0,0,0,0\ng=0,0,0,0,0,0,0,0,0,0,0,0,0,0,0,0,0,0,0,0,0,0,0,0,0,0,0,0,0,0,0,0,0,0,0,0,0,0,0,0,0,0,0,0,0,0,0,0,0,0,0,0,0,0,0,0,0,0,0,0,0,0,0,0\n",
        None,
    ),
];

// Lines that do not begin with their key.
pub const KEYS: [Row; 19] = [
    ("no byte", b"", Some((52, 1))),
    ("stops in the key of line 1", b"fiel", Some((52, 1))),
    ("stops before the sign of line 1", b"field", Some((52, 1))),
    (
        "a space before line 1",
        b" field=p251\nn=5\nk=4\nt=1\nd=1\ncard=2\nv=25\ng=1586\n",
        Some((52, 1)),
    ),
    (
        "a line end before line 1",
        b"\nfield=p251\nn=5\nk=4\nt=1\nd=1\ncard=2\nv=25\ng=1586\n",
        Some((52, 1)),
    ),
    (
        "a capital in the key of line 1",
        b"Field=p251\nn=5\nk=4\nt=1\nd=1\ncard=2\nv=25\ng=1586\n",
        Some((52, 1)),
    ),
    ("ends behind line 1", b"field=p251\n", Some((52, 2))),
    (
        "stops in the key of line 2",
        b"field=p251\nn",
        Some((52, 2)),
    ),
    (
        "line 3 left out",
        b"field=p251\nn=5\nt=1\nd=1\ncard=2\nv=25\ng=1586\n",
        Some((52, 3)),
    ),
    (
        "lines 3 and 4 exchanged",
        b"field=p251\nn=5\nt=1\nk=4\nd=1\ncard=2\nv=25\ng=1586\n",
        Some((52, 3)),
    ),
    (
        "line 3 twice",
        b"field=p251\nn=5\nk=4\nk=4\nt=1\nd=1\ncard=2\nv=25\ng=1586\n",
        Some((52, 4)),
    ),
    (
        "a space before the sign of line 4",
        b"field=p251\nn=5\nk=4\nt =1\nd=1\ncard=2\nv=25\ng=1586\n",
        Some((52, 4)),
    ),
    (
        "an empty line before line 5",
        b"field=p251\nn=5\nk=4\nt=1\n\nd=1\ncard=2\nv=25\ng=1586\n",
        Some((52, 5)),
    ),
    (
        "stops in the key of line 6",
        b"field=p251\nn=5\nk=4\nt=1\nd=1\ncar",
        Some((52, 6)),
    ),
    (
        "a key too long in line 6",
        b"field=p251\nn=5\nk=4\nt=1\nd=1\ncards=2\nv=25\ng=1586\n",
        Some((52, 6)),
    ),
    (
        "lines 7 and 8 exchanged",
        b"field=p251\nn=5\nk=4\nt=1\nd=1\ncard=2\ng=1586\nv=25\n",
        Some((52, 7)),
    ),
    (
        "line 8 left out",
        b"field=p251\nn=5\nk=4\nt=1\nd=1\ncard=2\nv=25\n",
        Some((52, 8)),
    ),
    (
        "stops in the key of line 8",
        b"field=p251\nn=5\nk=4\nt=1\nd=1\ncard=2\nv=25\ng",
        Some((52, 8)),
    ),
    (
        "no sign in line 8",
        b"field=p251\nn=5\nk=4\nt=1\nd=1\ncard=2\nv=25\ng1586\n",
        Some((52, 8)),
    ),
];

// Lines whose name or number is none.
pub const CONTENTS: [Row; 23] = [
    ("stops behind the sign of line 1", b"field=", Some((53, 1))),
    (
        "stops in the name of the field",
        b"field=p25",
        Some((53, 1)),
    ),
    (
        "no name of a field",
        b"field=\nn=5\nk=4\nt=1\nd=1\ncard=2\nv=25\ng=1586\n",
        Some((53, 1)),
    ),
    (
        "another name of a field",
        b"field=p257\nn=5\nk=4\nt=1\nd=1\ncard=2\nv=25\ng=1586\n",
        Some((53, 1)),
    ),
    (
        "a name in capitals",
        b"field=BYTE\nn=5\nk=4\nt=1\nd=1\ncard=2\nv=25\ng=1586\n",
        Some((53, 1)),
    ),
    (
        "a space behind the name",
        b"field=byte \nn=5\nk=4\nt=1\nd=1\ncard=2\nv=25\ng=1586\n",
        Some((53, 1)),
    ),
    (
        "a byte 13 behind the name",
        b"field=p251\r\nn=5\nk=4\nt=1\nd=1\ncard=2\nv=25\ng=1586\n",
        Some((53, 1)),
    ),
    (
        "two names",
        b"field=p251p251\nn=5\nk=4\nt=1\nd=1\ncard=2\nv=25\ng=1586\n",
        Some((53, 1)),
    ),
    (
        "stops behind the sign of line 2",
        b"field=p251\nn=",
        Some((53, 2)),
    ),
    (
        "no number in line 2",
        b"field=p251\nn=\nk=4\nt=1\nd=1\ncard=2\nv=25\ng=1586\n",
        Some((53, 2)),
    ),
    (
        "a letter in line 2",
        b"field=p251\nn=x\nk=4\nt=1\nd=1\ncard=2\nv=25\ng=1586\n",
        Some((53, 2)),
    ),
    (
        "a leading zero in line 2",
        b"field=p251\nn=05\nk=4\nt=1\nd=1\ncard=2\nv=25\ng=1586\n",
        Some((53, 2)),
    ),
    (
        "11 digits in line 2",
        b"field=p251\nn=10000000000\nk=4\nt=1\nd=1\ncard=2\nv=25\ng=1586\n",
        Some((53, 2)),
    ),
    (
        "a byte 13 before the number of line 2",
        b"field=p251\nn=\r5\nk=4\nt=1\nd=1\ncard=2\nv=25\ng=1586\n",
        Some((53, 2)),
    ),
    (
        "a minus in line 3",
        b"field=p251\nn=5\nk=-4\nt=1\nd=1\ncard=2\nv=25\ng=1586\n",
        Some((53, 3)),
    ),
    (
        "a plus in line 3",
        b"field=p251\nn=5\nk=+4\nt=1\nd=1\ncard=2\nv=25\ng=1586\n",
        Some((53, 3)),
    ),
    (
        "a space before the number of line 3",
        b"field=p251\nn=5\nk= 4\nt=1\nd=1\ncard=2\nv=25\ng=1586\n",
        Some((53, 3)),
    ),
    (
        "two zeros in line 4",
        b"field=p251\nn=5\nk=4\nt=00\nd=1\ncard=2\nv=25\ng=1586\n",
        Some((53, 4)),
    ),
    (
        "a leading zero in line 4",
        b"field=p251\nn=5\nk=4\nt=01\nd=1\ncard=2\nv=25\ng=1586\n",
        Some((53, 4)),
    ),
    (
        "11 digits in line 5",
        b"field=p251\nn=5\nk=4\nt=1\nd=99999999999\ncard=2\nv=25\ng=1586\n",
        Some((53, 5)),
    ),
    (
        "a comma before the number of line 5",
        b"field=p251\nn=5\nk=4\nt=1\nd=,1\ncard=2\nv=25\ng=1586\n",
        Some((53, 5)),
    ),
    (
        "stops behind the sign of line 6",
        b"field=p251\nn=5\nk=4\nt=1\nd=1\ncard=",
        Some((53, 6)),
    ),
    (
        "a leading zero in line 6",
        b"field=p251\nn=5\nk=4\nt=1\nd=1\ncard=02\nv=25\ng=1586\n",
        Some((53, 6)),
    ),
];

// Lines whose list is none.
pub const LISTS: [Row; 16] = [
    (
        "stops behind the sign of line 7",
        b"field=p251\nn=5\nk=4\nt=1\nd=1\ncard=2\nv=",
        Some((53, 7)),
    ),
    (
        "no number in line 7",
        b"field=p251\nn=5\nk=4\nt=1\nd=1\ncard=2\nv=\ng=1586\n",
        Some((53, 7)),
    ),
    (
        "nothing behind the comma of line 7",
        b"field=p251\nn=5\nk=4\nt=1\nd=1\ncard=2\nv=25,\ng=1586\n",
        Some((53, 7)),
    ),
    (
        "nothing before the comma of line 7",
        b"field=p251\nn=5\nk=4\nt=1\nd=1\ncard=2\nv=,25\ng=1586\n",
        Some((53, 7)),
    ),
    (
        "a comma alone in line 7",
        b"field=p251\nn=5\nk=4\nt=1\nd=1\ncard=2\nv=,\ng=1586\n",
        Some((53, 7)),
    ),
    (
        "two commas in line 7",
        b"field=p251\nn=5\nk=4\nt=1\nd=1\ncard=2\nv=25,,25\ng=1586\n",
        Some((53, 7)),
    ),
    (
        "a space behind the comma of line 7",
        b"field=p251\nn=5\nk=4\nt=1\nd=1\ncard=2\nv=25, 25\ng=1586\n",
        Some((53, 7)),
    ),
    (
        "a leading zero at the end of line 7",
        b"field=p251\nn=5\nk=4\nt=1\nd=1\ncard=2\nv=25,07\ng=1586\n",
        Some((53, 7)),
    ),
    (
        "11 digits at the end of line 7",
        b"field=p251\nn=5\nk=4\nt=1\nd=1\ncard=2\nv=25,10000000000\ng=1586\n",
        Some((53, 7)),
    ),
    (
        "stops behind the comma of line 7",
        b"field=p251\nn=5\nk=4\nt=1\nd=1\ncard=2\nv=25,",
        Some((53, 7)),
    ),
    (
        "stops behind the sign of line 8",
        b"field=p251\nn=5\nk=4\nt=1\nd=1\ncard=2\nv=25\ng=",
        Some((53, 8)),
    ),
    (
        "no number in line 8",
        b"field=p251\nn=5\nk=4\nt=1\nd=1\ncard=2\nv=25\ng=\n",
        Some((53, 8)),
    ),
    (
        "nothing behind the comma of line 8",
        b"field=p251\nn=5\nk=4\nt=1\nd=1\ncard=2\nv=25\ng=1586,\n",
        Some((53, 8)),
    ),
    (
        "two commas in line 8",
        b"field=p251\nn=5\nk=4\nt=1\nd=1\ncard=2\nv=25\ng=1586,,1586\n",
        Some((53, 8)),
    ),
    (
        "two zeros in line 8",
        b"field=p251\nn=5\nk=4\nt=1\nd=1\ncard=2\nv=25\ng=00\n",
        Some((53, 8)),
    ),
    (
        "11 digits in line 8",
        b"field=p251\nn=5\nk=4\nt=1\nd=1\ncard=2\nv=25\ng=10000000000\n",
        Some((53, 8)),
    ),
];

// Lines that do not end there, and texts that do not end behind line 8.
pub const ENDS: [Row; 22] = [
    ("stops behind the name", b"field=p251", Some((54, 1))),
    (
        "stops behind the number of line 2",
        b"field=p251\nn=5",
        Some((54, 2)),
    ),
    (
        "a byte 13 behind the number of line 2",
        b"field=p251\nn=5\r\nk=4\nt=1\nd=1\ncard=2\nv=25\ng=1586\n",
        Some((54, 2)),
    ),
    (
        "a letter behind the number of line 2",
        b"field=p251\nn=5x\nk=4\nt=1\nd=1\ncard=2\nv=25\ng=1586\n",
        Some((54, 2)),
    ),
    (
        "a space behind the number of line 3",
        b"field=p251\nn=5\nk=4 \nt=1\nd=1\ncard=2\nv=25\ng=1586\n",
        Some((54, 3)),
    ),
    (
        "a comma behind the number of line 4",
        b"field=p251\nn=5\nk=4\nt=1,\nd=1\ncard=2\nv=25\ng=1586\n",
        Some((54, 4)),
    ),
    (
        "a hexadecimal zero in line 4",
        b"field=p251\nn=5\nk=4\nt=0x1\nd=1\ncard=2\nv=25\ng=1586\n",
        Some((54, 4)),
    ),
    (
        "a point in line 5",
        b"field=p251\nn=5\nk=4\nt=1\nd=1.0\ncard=2\nv=25\ng=1586\n",
        Some((54, 5)),
    ),
    (
        "stops behind the number of line 6",
        b"field=p251\nn=5\nk=4\nt=1\nd=1\ncard=2",
        Some((54, 6)),
    ),
    (
        "a space before the comma of line 7",
        b"field=p251\nn=5\nk=4\nt=1\nd=1\ncard=2\nv=25 ,25\ng=1586\n",
        Some((54, 7)),
    ),
    (
        "a byte 13 behind line 7",
        b"field=p251\nn=5\nk=4\nt=1\nd=1\ncard=2\nv=25\r\ng=1586\n",
        Some((54, 7)),
    ),
    (
        "a semicolon in line 7",
        b"field=p251\nn=5\nk=4\nt=1\nd=1\ncard=2\nv=25;25\ng=1586\n",
        Some((54, 7)),
    ),
    (
        "a byte 13 behind line 8",
        b"field=p251\nn=5\nk=4\nt=1\nd=1\ncard=2\nv=25\ng=1586\r\n",
        Some((54, 8)),
    ),
    (
        "no line end behind line 8",
        b"field=p251\nn=5\nk=4\nt=1\nd=1\ncard=2\nv=25\ng=1586",
        Some((54, 8)),
    ),
    (
        "line 2 ends wrong, and line 3 is none",
        b"field=p251\nn=5\r\nx=4\nt=1\nd=1\ncard=2\nv=25\ng=1586\n",
        Some((54, 2)),
    ),
    (
        "lines 2 and 3 have leading zeros",
        b"field=p251\nn=05\nk=04\nt=1\nd=1\ncard=2\nv=25\ng=1586\n",
        Some((53, 2)),
    ),
    (
        "a line end behind line 8",
        b"field=p251\nn=5\nk=4\nt=1\nd=1\ncard=2\nv=25\ng=1586\n\n",
        Some((55, 9)),
    ),
    (
        "a space behind line 8",
        b"field=p251\nn=5\nk=4\nt=1\nd=1\ncard=2\nv=25\ng=1586\n ",
        Some((55, 9)),
    ),
    (
        "a byte 0 behind line 8",
        b"field=p251\nn=5\nk=4\nt=1\nd=1\ncard=2\nv=25\ng=1586\n\0",
        Some((55, 9)),
    ),
    (
        "a line behind line 8",
        b"field=p251\nn=5\nk=4\nt=1\nd=1\ncard=2\nv=25\ng=1586\ng=1586\n",
        Some((55, 9)),
    ),
    (
        "a text behind the text",
        b"field=p251\nn=5\nk=4\nt=1\nd=1\ncard=2\nv=25\ng=1586\nfield=p251\nn=5\nk=4\nt=1\nd=1\ncard=2\nv=25\ng=1586\n",
        Some((55, 9)),
    ),
    (
        "n is 0, and a byte follows",
        b"field=p251\nn=0\nk=4\nt=1\nd=1\ncard=2\nv=25\ng=1586\n\n",
        Some((55, 9)),
    ),
];

// Eight lines whose figures or whose card's number do not pass.
pub const FIGURES: [Row; 19] = [
    (
        "n is 0",
        b"field=p251\nn=0\nk=4\nt=1\nd=1\ncard=2\nv=25\ng=1586\n",
        Some((56, 5)),
    ),
    (
        "n is 33",
        b"field=p251\nn=33\nk=4\nt=1\nd=1\ncard=2\nv=25\ng=1586\n",
        Some((56, 5)),
    ),
    (
        "k is 0",
        b"field=p251\nn=5\nk=0\nt=1\nd=1\ncard=2\nv=25\ng=1586\n",
        Some((56, 5)),
    ),
    (
        "k is n + 1",
        b"field=p251\nn=5\nk=6\nt=1\nd=1\ncard=2\nv=25\ng=1586\n",
        Some((56, 5)),
    ),
    (
        "t is 2 for k = 5",
        b"field=p251\nn=5\nk=5\nt=2\nd=1\ncard=2\nv=25\ng=1586\n",
        Some((56, 5)),
    ),
    (
        "d is 0",
        b"field=p251\nn=5\nk=4\nt=1\nd=0\ncard=2\nv=25\ng=1586\n",
        Some((56, 5)),
    ),
    (
        "d is 65",
        b"field=p251\nn=5\nk=4\nt=1\nd=65\ncard=2\nv=0,0,0,0,0,0,0,0,0,0,0,0,0,0,0,0,0,0,0,0,0,0,0,0,0,0,0,0,0,0,0,0,0,0,0,0,0,0,0,0,0,0,0,0,0,0,0,0,0,0,0,0,0,0,0,0,0,0,0,0,0,0,0,0,0\ng=0,0,0,0,0,0,0,0,0,0,0,0,0,0,0,0,0,0,0,0,0,0,0,0,0,0,0,0,0,0,0,0,0,0,0,0,0,0,0,0,0,0,0,0,0,0,0,0,0,0,0,0,0,0,0,0,0,0,0,0,0,0,0,0,0\n",
        Some((56, 5)),
    ),
    (
        "n has ten nines",
        b"field=p251\nn=9999999999\nk=4\nt=1\nd=1\ncard=2\nv=25\ng=1586\n",
        Some((56, 5)),
    ),
    (
        "n is 2^32 + 5",
        b"field=p251\nn=4294967301\nk=4\nt=1\nd=1\ncard=2\nv=25\ng=1586\n",
        Some((56, 5)),
    ),
    (
        "k is 2^32 + 4",
        b"field=p251\nn=5\nk=4294967300\nt=1\nd=1\ncard=2\nv=25\ng=1586\n",
        Some((56, 5)),
    ),
    (
        "t has ten nines",
        b"field=p251\nn=5\nk=4\nt=9999999999\nd=1\ncard=2\nv=25\ng=1586\n",
        Some((56, 5)),
    ),
    (
        "t is 2^32",
        b"field=p251\nn=5\nk=4\nt=4294967296\nd=1\ncard=2\nv=25\ng=1586\n",
        Some((56, 5)),
    ),
    (
        "d is 2^32 + 1",
        b"field=p251\nn=5\nk=4\nt=1\nd=4294967297\ncard=2\nv=25\ng=1586\n",
        Some((56, 5)),
    ),
    (
        "n and the card are 0",
        b"field=p251\nn=0\nk=4\nt=1\nd=1\ncard=0\nv=25\ng=1586\n",
        Some((56, 5)),
    ),
    (
        "card 0",
        b"field=p251\nn=5\nk=4\nt=1\nd=1\ncard=0\nv=25\ng=1586\n",
        Some((57, 6)),
    ),
    (
        "card n + 1",
        b"field=p251\nn=5\nk=4\nt=1\nd=1\ncard=6\nv=25\ng=1586\n",
        Some((57, 6)),
    ),
    (
        "card 2^32 + 2",
        b"field=p251\nn=5\nk=4\nt=1\nd=1\ncard=4294967298\nv=25\ng=1586\n",
        Some((57, 6)),
    ),
    (
        "the card has ten nines",
        b"field=p251\nn=5\nk=4\nt=1\nd=1\ncard=9999999999\nv=25\ng=1586\n",
        Some((57, 6)),
    ),
    (
        "card 0, and no list of d",
        b"field=p251\nn=5\nk=4\nt=1\nd=2\ncard=0\nv=25\ng=1586\n",
        Some((57, 6)),
    ),
];

// Eight lines whose lists do not pass.
pub const CARDS: [Row; 18] = [
    (
        "a value too few",
        b"field=p251\nn=5\nk=4\nt=1\nd=2\ncard=2\nv=25\ng=1586,1\n",
        Some((58, 7)),
    ),
    (
        "a value too many",
        b"field=p251\nn=5\nk=4\nt=1\nd=1\ncard=2\nv=25,1\ng=1586\n",
        Some((58, 7)),
    ),
    (
        "a tag too few",
        b"field=p251\nn=5\nk=4\nt=1\nd=2\ncard=2\nv=25,1\ng=1586\n",
        Some((58, 8)),
    ),
    (
        "a tag too many",
        b"field=p251\nn=5\nk=4\nt=1\nd=1\ncard=2\nv=25\ng=1586,1\n",
        Some((58, 8)),
    ),
    (
        "a value and a tag too few",
        b"field=p251\nn=5\nk=4\nt=1\nd=2\ncard=2\nv=25\ng=1586\n",
        Some((58, 7)),
    ),
    (
        "a tag too many, and value 251",
        b"field=p251\nn=5\nk=4\nt=1\nd=1\ncard=2\nv=251\ng=1586,1\n",
        Some((58, 8)),
    ),
    (
        "65 values for d = 64",
        b"field=p251\nn=5\nk=4\nt=1\nd=64\ncard=2\nv=0,0,0,0,0,0,0,0,0,0,0,0,0,0,0,0,0,0,0,0,0,0,0,0,0,0,0,0,0,0,0,0,0,0,0,0,0,0,0,0,0,0,0,0,0,0,0,0,0,0,0,0,0,0,0,0,0,0,0,0,0,0,0,0,0\ng=0,0,0,0,0,0,0,0,0,0,0,0,0,0,0,0,0,0,0,0,0,0,0,0,0,0,0,0,0,0,0,0,0,0,0,0,0,0,0,0,0,0,0,0,0,0,0,0,0,0,0,0,0,0,0,0,0,0,0,0,0,0,0,0\n",
        Some((58, 7)),
    ),
    (
        "65 tags for d = 64",
        b"field=p251\nn=5\nk=4\nt=1\nd=64\ncard=2\nv=0,0,0,0,0,0,0,0,0,0,0,0,0,0,0,0,0,0,0,0,0,0,0,0,0,0,0,0,0,0,0,0,0,0,0,0,0,0,0,0,0,0,0,0,0,0,0,0,0,0,0,0,0,0,0,0,0,0,0,0,0,0,0,0\ng=0,0,0,0,0,0,0,0,0,0,0,0,0,0,0,0,0,0,0,0,0,0,0,0,0,0,0,0,0,0,0,0,0,0,0,0,0,0,0,0,0,0,0,0,0,0,0,0,0,0,0,0,0,0,0,0,0,0,0,0,0,0,0,0,0\n",
        Some((58, 8)),
    ),
    (
        "value 251 over p251",
        b"field=p251\nn=5\nk=4\nt=1\nd=1\ncard=2\nv=251\ng=1586\n",
        Some((59, 7)),
    ),
    (
        "value 255 over p251",
        b"field=p251\nn=5\nk=4\nt=1\nd=1\ncard=2\nv=255\ng=1586\n",
        Some((59, 7)),
    ),
    (
        "the second value is 251",
        b"field=p251\nn=5\nk=4\nt=1\nd=2\ncard=2\nv=250,251\ng=0,0\n",
        Some((59, 7)),
    ),
    (
        "a value has ten nines",
        b"field=p251\nn=5\nk=4\nt=1\nd=1\ncard=2\nv=9999999999\ng=1586\n",
        Some((59, 7)),
    ),
    (
        "a value is 2^32",
        b"field=p251\nn=5\nk=4\nt=1\nd=1\ncard=2\nv=4294967296\ng=1586\n",
        Some((59, 7)),
    ),
    (
        "tag 63001 over p251",
        b"field=p251\nn=5\nk=4\nt=1\nd=1\ncard=2\nv=25\ng=63001\n",
        Some((59, 8)),
    ),
    (
        "tag 65535 over p251",
        b"field=p251\nn=5\nk=4\nt=1\nd=1\ncard=2\nv=25\ng=65535\n",
        Some((59, 8)),
    ),
    (
        "the second tag is 63001",
        b"field=p251\nn=5\nk=4\nt=1\nd=2\ncard=2\nv=0,0\ng=63000,63001\n",
        Some((59, 8)),
    ),
    (
        "a tag has ten nines",
        b"field=p251\nn=5\nk=4\nt=1\nd=1\ncard=2\nv=25\ng=9999999999\n",
        Some((59, 8)),
    ),
    (
        "value 251 and tag 63001",
        b"field=p251\nn=5\nk=4\nt=1\nd=1\ncard=2\nv=251\ng=63001\n",
        Some((59, 7)),
    ),
];

// Refusals over byte.
pub const OVER_BYTE: [Row; 12] = [
    (
        "byte: stops in the key of line 2",
        b"field=byte\nn",
        Some((52, 2)),
    ),
    (
        "byte: a leading zero in line 2",
        b"field=byte\nn=05\nk=4\nt=1\nd=1\ncard=2\nv=25\ng=1586\n",
        Some((53, 2)),
    ),
    (
        "byte: a byte 13 behind line 2",
        b"field=byte\nn=5\r\nk=4\nt=1\nd=1\ncard=2\nv=25\ng=1586\n",
        Some((54, 2)),
    ),
    (
        "byte: a line end behind line 8",
        b"field=byte\nn=5\nk=4\nt=1\nd=1\ncard=2\nv=25\ng=1586\n\n",
        Some((55, 9)),
    ),
    (
        "byte: n is 33",
        b"field=byte\nn=33\nk=4\nt=1\nd=1\ncard=2\nv=25\ng=1586\n",
        Some((56, 5)),
    ),
    (
        "byte: card n + 1",
        b"field=byte\nn=5\nk=4\nt=1\nd=1\ncard=6\nv=25\ng=1586\n",
        Some((57, 6)),
    ),
    (
        "byte: a value too many",
        b"field=byte\nn=5\nk=4\nt=1\nd=1\ncard=2\nv=25,1\ng=1586\n",
        Some((58, 7)),
    ),
    (
        "byte: a tag too many",
        b"field=byte\nn=5\nk=4\nt=1\nd=1\ncard=2\nv=25\ng=1586,1\n",
        Some((58, 8)),
    ),
    (
        "byte: value 256",
        b"field=byte\nn=5\nk=4\nt=1\nd=1\ncard=2\nv=256\ng=1586\n",
        Some((59, 7)),
    ),
    (
        "byte: the second value is 256",
        b"field=byte\nn=5\nk=4\nt=1\nd=2\ncard=2\nv=255,256\ng=0,0\n",
        Some((59, 7)),
    ),
    (
        "byte: tag 65536",
        b"field=byte\nn=5\nk=4\nt=1\nd=1\ncard=2\nv=25\ng=65536\n",
        Some((59, 8)),
    ),
    (
        "byte: value 256 and tag 65536",
        b"field=byte\nn=5\nk=4\nt=1\nd=1\ncard=2\nv=256\ng=65536\n",
        Some((59, 7)),
    ),
];
