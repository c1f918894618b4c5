// The text of a card, line by line.
ghost use Rattle.std.specs.Prelude.{◌≡◌, ◌≤◌, ◌+◌, ℕ, List, [], ◌++◌, length, map};
ghost use Rattle.text.specs.Lines.{written_line};
ghost use Rattle.text.specs.Numbers.{listed};
ghost use Rattle.text.specs.Writing.{picked, scheme_lines};

use crate::types::{FieldName, Half, Key};
use arrayvec::ArrayVec;
use itoa::{Buffer, Integer};
use scheme::{Figures, Pair};
use std::marker::Model;

// The text of a card, or a part of it, while it is written: at most 1,024 bytes. A contract sees the list of them.
#[derive(Drop)]
pub(crate) struct CardText {
    bytes: ArrayVec<u8, 1024>,
}

impl Model for CardText {
    ghost Value = { List ℕ };

    ghost view = { λ text. text.bytes.items };
}

impl Half {
    // this number of a pair (a closure in its place was tried: the check says that an error of its own keeps the answer from
    // counting)
    fn of(self, pair: &Pair) -> u64
        ensures { result ≡ picked self pair.now }
    {
        match self {
            Half::Value => pair.value,
            Half::Tag => pair.tag,
        }
    }
}

impl CardText {
    // a text with no bytes yet
    pub(crate) fn new() -> CardText
        ensures { result ≡ [] }
    {
        CardText {
            bytes: ArrayVec::new(),
        }
    }

    // the bytes so far
    pub(crate) fn as_slice(&self) -> &[u8]
        ensures { result.now ≡ self.now }
    {
        self.bytes.as_slice()
    }

    // appends bytes, for which there must be room
    fn push(&mut self, bytes: &[u8])
        requires { length self.old + length bytes.now ≤ 1024 }
        ensures { self.new ≡ self.old ++ bytes.now }
    {
        self.bytes.try_extend_from_slice(bytes).unwrap();
    }

    // appends the digits of a number
    fn push_number<N: Integer>(&mut self, n: N)
        requires { length self.old + length (N.text n) ≤ 1024 }
        ensures { self.new ≡ self.old ++ N.text n }
    {
        self.push(Buffer::new().format(n).as_bytes());
    }

    // appends the values or the tags of a card, separated by commas
    fn push_list(&mut self, half: Half, card: &[Pair])
        requires { length self.old + length (listed (map (picked half) card.now)) ≤ 1024 }
        ensures { self.new ≡ self.old ++ listed (map (picked half) card.now) }
    {
        if let Some((first, others)) = card.split_first() {
            self.push_number(half.of(first));
            for pair in others {
                self.push(b",");
                self.push_number(half.of(pair));
            }
        }
    }

    // appends a line with this key and content
    pub(crate) fn push_line(&mut self, key: Key, content: &[u8])
        requires { length self.old + length (written_line key content.now) ≤ 1024 }
        ensures { self.new ≡ self.old ++ written_line key content.now }
    {
        self.push(key.word());
        self.push(content);
        self.push(b"\n");
    }

    // appends a line with this key and number
    pub(crate) fn push_number_line<N: Integer>(&mut self, key: Key, n: N)
        requires { length self.old + length (written_line key (N.text n)) ≤ 1024 }
        ensures { self.new ≡ self.old ++ written_line key (N.text n) }
    {
        self.push_line(key, Buffer::new().format(n).as_bytes());
    }

    // appends a line with this key and the values or the tags of a card
    pub(crate) fn push_list_line(&mut self, key: Key, half: Half, card: &[Pair])
        requires { length self.old + length (written_line key (listed (map (picked half) card.now))) ≤ 1024 }
        ensures { self.new ≡ self.old ++ written_line key (listed (map (picked half) card.now)) }
    {
        self.push(key.word());
        self.push_list(half, card);
        self.push(b"\n");
    }

    // appends the five lines that tell of a scheme
    pub(crate) fn push_scheme_lines(&mut self, field: FieldName, figures: &Figures)
        requires { length self.old + length (scheme_lines field figures.now) ≤ 1024 }
        ensures { self.new ≡ self.old ++ scheme_lines field figures.now }
    {
        self.push_line(Key::Field, field.word());
        self.push_number_line(Key::Participants, figures.n());
        self.push_number_line(Key::Threshold, figures.k());
        self.push_number_line(Key::Altered, figures.t());
        self.push_number_line(Key::Symbols, figures.d());
    }
}
