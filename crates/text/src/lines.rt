// The lines of a text, one at a time.
ghost use Rattle.std.specs.Prelude.{◌≡◌, ◌≤◌, length};
ghost use Rattle.std.specs.List.{prefix_len};
ghost use Rattle.text.specs.Lines.{Number, Numbers, field_name, in_content, key_word, keys_with, kind_of, line, lines};
ghost use Rattle.text.specs.Parts.{line_told, lines_told};

use crate::content::Content;
use crate::numbers::NumberList;
use crate::types::{FieldName, Key, Line, Lines, TextFault};

impl FieldName {
    // the name as it stands in a text
    pub fn word(self) -> &'static [u8]
        ensures { result.now ≡ field_name self }
    {
        match self {
            FieldName::Byte => b"byte",
            FieldName::P251 => b"p251",
        }
    }
}

impl Key {
    // the fixed bytes that a line of this key begins with
    pub(crate) fn word(self) -> &'static [u8]
        ensures { result.now ≡ key_word self }
    {
        match self {
            Key::Field => b"field=",
            Key::Participants => b"n=",
            Key::Threshold => b"k=",
            Key::Altered => b"t=",
            Key::Symbols => b"d=",
            Key::Card => b"card=",
            Key::Values => b"v=",
            Key::Tags => b"g=",
            Key::Secret => b"key=",
            Key::ValueCoefficients => b"a=",
            Key::TagCoefficients => b"c=",
        }
    }

    // whether the byte can stand behind the key (as a method of the trait `Content` it was tried: in an impl with a lifetime the
    // check cannot give it the clauses of its trait)
    fn has(self, byte: u8) -> bool
        ensures { result ≡ in_content (kind_of self) byte }
    {
        match self {
            Key::Field => byte != b'\n',
            Key::Values | Key::Tags | Key::Secret | Key::ValueCoefficients | Key::TagCoefficients =>
                byte.is_ascii_digit() || byte == b',',
            _ => byte.is_ascii_digit(),
        }
    }

    // how many such bytes the text begins with
    fn leading(self, text: &[u8]) -> usize
        ensures value { result ≡ prefix_len (in_content (kind_of self)) text.now }
        ensures bound { result ≤ length text.now }
    {
        text.iter().take_while(|b| self.has(**b)).count()
    }
}

// Takes the line of this key, which is line number `at`, from the front of the text.
pub(crate) fn take_line<'a, C: Content<'a>>(
    at: u32,
    key: Key,
    text: &'a [u8],
) -> Result<Line<'a, C>, TextFault>
    requires { kind_of key ≡ C.kind }
    ensures { line_told C.text result ≡ line at key text.now }
{
    let Some(behind) = text.strip_prefix(key.word()) else {
        return Err(TextFault::Key { line: at });
    };
    let (run, ending) = behind.split_at(key.leading(behind));
    let Some(content) = C::read(run) else {
        return Err(TextFault::Content { line: at });
    };
    let Some(rest) = ending.strip_prefix(b"\n") else {
        return Err(TextFault::LineEnd { line: at });
    };
    Ok(Line { content, rest })
}

// Takes the five lines that tell of a scheme, and three more of these keys, from the front of the text. (Each line begins where
// the one before it ended; a cursor would only hide that.)
pub(crate) fn take_lines<'a, S: Content<'a>, V: Content<'a>>(
    sixth: Key,
    seventh: Key,
    eighth: Key,
    text: &'a [u8],
) -> Result<Lines<'a, S, V>, TextFault>
    requires sixth { kind_of sixth ≡ S.kind }
    requires seventh { kind_of seventh ≡ V.kind }
    requires eighth { kind_of eighth ≡ Numbers }
    ensures { lines_told S.text V.text result ≡ lines 1 (keys_with sixth seventh eighth) text.now }
{
    let field = take_line::<FieldName>(1, Key::Field, text)?;
    let n = take_line::<u64>(2, Key::Participants, field.rest)?;
    let k = take_line::<u64>(3, Key::Threshold, n.rest)?;
    let t = take_line::<u64>(4, Key::Altered, k.rest)?;
    let d = take_line::<u64>(5, Key::Symbols, t.rest)?;
    let sixth_line = take_line::<S>(6, sixth, d.rest)?;
    let seventh_line = take_line::<V>(7, seventh, sixth_line.rest)?;
    let eighth_line = take_line::<NumberList>(8, eighth, seventh_line.rest)?;
    Ok(Lines {
        field: field.content,
        n: n.content,
        k: k.content,
        t: t.content,
        d: d.content,
        sixth: sixth_line.content,
        seventh: seventh_line.content,
        eighth: eighth_line.content,
        rest: eighth_line.rest,
    })
}
