// Numbers, and lists of numbers, as text.
ghost use Rattle.std.specs.Prelude.{◌≡◌, ◌≤◌, true, cond, length, take, Some, None};
ghost use Rattle.std.specs.Option.{option_map};
ghost use Rattle.text.specs.Numbers.{digits_value, is_list, is_number, number_told, numbers_in};

// Whether the text is a number: 1 to 10 digits without a leading zero. (Its length is tested by hand: with `(1..=10).contains(..)` the
// fact was lost where the ways join.)
fn is_number(text: &[u8]) -> bool
    ensures { result ≡ is_number text.now }
{
    if text.is_empty() || text.len() > 10 {
        return false;
    }
    if text[0] == b'0' && text.len() > 1 {
        return false;
    }
    text.iter().all(|b| b.is_ascii_digit())
}

// The number that digits write.
fn value_of(digits: &[u8]) -> u64
    requires { is_number digits.now ≡ true }
    ensures { result ≡ digits_value digits.now }
{
    let mut n = 0u64;
    for b in digits {
        n = n * 10 + u64::from(*b - b'0');
    }
    n
}

// The number that the text is, where it is one. (The text is tested once: to `parse` it would test and read its bytes twice more.)
pub(crate) fn number(text: &[u8]) -> Option<u64>
    ensures { result ≡ number_told text.now }
{
    if is_number(text) {
        Some(value_of(text))
    } else {
        None
    }
}

// Whether the text is a list: numbers that are separated by single commas.
fn is_list(text: &[u8]) -> bool
    ensures { result ≡ is_list text.now }
{
    text.split(|b| *b == b',').all(is_number)
}

// A text that is a list: numbers that are separated by single commas.
#[derive(Clone, Copy)]
pub(crate) struct NumberList<'a> {
    pub(crate) text: &'a [u8],
    ghost list: { is_list text.now ≡ true },
}

impl<'a> NumberList<'a> {
    // The list that the text is, where it is one.
    pub(crate) fn new(text: &'a [u8]) -> Option<NumberList<'a>>
        ensures { option_map (λ list. list.text.now) result ≡ cond (is_list text.now) (Some text.now) None }
    {
        if is_list(text) {
            Some(NumberList { text })
        } else {
            None
        }
    }

    // How many numbers it has: one more than commas. (A `for`: `split` and `count` together take several times as long.)
    pub(crate) fn count(&self) -> usize
        ensures { result ≡ length (numbers_in self.now.text.now) }
    {
        let mut count = 1;
        for b in self.text {
            if *b == b',' {
                count += 1;
            }
        }
        count
    }

    // Copies its numbers to the front of a buffer with a place for each. (It writes by index: of what is written through
    // `iter_mut().zip(..)` a proof knows only how many items there are.)
    pub(crate) fn copy_into(&self, numbers: &mut [u64])
        requires { length (numbers_in self.now.text.now) ≤ length numbers.old }
        ensures { take (length (numbers_in self.now.text.now)) numbers.new ≡ numbers_in self.now.text.now }
    {
        for (i, piece) in self.text.split(|b| *b == b',').enumerate() {
            numbers[i] = value_of(piece);
        }
    }
}
