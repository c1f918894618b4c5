// A key buffer that is blank as soon as the program is done with the key.
ghost use Rattle.std.specs.Prelude.{◌≡◌, length, replicate, Decides};

// Stands over a key buffer while a program uses the key. When it ends, every symbol of the buffer is 0.
pub struct KeyHolder<'a> {
    pub key: &'a mut [u64],
}

impl Drop for KeyHolder<'_> {
    fn drop(self)
        ensures { self.exit.0.now ≡ replicate (length self.entry.key.now) 0 }
    {
        let KeyHolder { key } = self;
        key.fill(0);
    }
}

// Whether a key that was opened is the expected one. Whatever the answer, the buffer of the opened key is blank afterwards.
// It has two exits on purpose: the holder blanks the key on each.
pub fn confirm_key(opened: &mut [u64], expected: &[u64]) -> bool
    ensures answer { Decides result (opened.old ≡ expected.now) }
    ensures blank { opened.new ≡ replicate (length opened.old) 0 }
{
    let held = KeyHolder { key: opened };
    if held.key.len() != expected.len() {
        return false;
    }
    held.key
        .iter()
        .zip(expected)
        .all(|(symbol, other)| symbol == other)
}
