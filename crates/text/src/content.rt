// What stands behind the key of a line.
ghost use Rattle.std.specs.Prelude.{◌≡◌, ℕ, List, cond, Some, None, decimal};
ghost use Rattle.std.specs.Option.{option_map};
ghost use Rattle.text.specs.Lines.{Kind, Name, Number, Numbers, OptionalNumbers, field_name, is_content};
ghost use Rattle.text.specs.Parts.{list_text, optional_text};

use crate::numbers::{NumberList, number};
use crate::types::FieldName;

// What a run of bytes behind a key can tell.
pub(crate) trait Content<'a>: Copy {
    // which kind of content it is
    ghost kind: { Kind };

    // the text that it stands for
    ghost text: { Self → List ℕ };

    // The content that the run of bytes is, where it is one.
    fn read(run: &'a [u8]) -> Option<Self>
        ensures { option_map text result ≡ cond (is_content kind run.now) (Some run.now) None };
}

impl<'a> Content<'a> for FieldName {
    ghost kind = { Name };

    ghost text = { field_name };

    fn read(run: &'a [u8]) -> Option<FieldName> {
        [FieldName::Byte, FieldName::P251]
            .into_iter()
            .find(|name| run == name.word())
    }
}

impl<'a> Content<'a> for u64 {
    ghost kind = { Number };

    ghost text = { decimal };

    fn read(run: &'a [u8]) -> Option<u64> {
        number(run)
    }
}

impl<'a> Content<'a> for NumberList<'a> {
    ghost kind = { Numbers };

    ghost text = { list_text };

    fn read(run: &'a [u8]) -> Option<NumberList<'a>> {
        NumberList::new(run)
    }
}

// A list that may be missing.
impl<'a> Content<'a> for Option<NumberList<'a>> {
    ghost kind = { OptionalNumbers };

    ghost text = { optional_text };

    fn read(run: &'a [u8]) -> Option<Option<NumberList<'a>>> {
        if run.is_empty() {
            return Some(None);
        }
        NumberList::new(run).map(Some)
    }
}
