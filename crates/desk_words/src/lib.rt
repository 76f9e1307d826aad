// Words and decimal numbers, stored in a text from a place on. Each function gives the place after what it stores; bytes for which the text has no
// place are counted and not stored.
#![tactic(auto)]

ghost use Rattle.std.specs.Prelude.{◌≡◌, ◌+◌, ◌^◌, ◌<◌, ◌≤◌, length, set, ◌++◌};
ghost use Rattle.desk_words.specs.Words.{decimal};
ghost use Rattle.desk_words.specs.Stored.{Stored};

// One byte.
fn put(text: &mut [u8], at: usize, byte: u8)
    ensures { text.new ≡ set text.old at byte }
{
    if at < text.len() {
        text[at] = byte;
    }
}

// A word.
pub fn put_word(text: &mut [u8], at: usize, word: &[u8]) -> usize
    requires { at + length word.now < 2 ^ 64 }
    ensures { Stored word.now at result text.old text.new }
{
    for (i, byte) in word.iter().enumerate() {
        put(text, at + i, *byte);
    }
    at + word.len()
}

// A number, in decimal.
fn put_number(text: &mut [u8], at: usize, value: u64) -> usize
    requires { at + 20 < 2 ^ 64 }
    ensures stored { Stored (decimal value) at result text.old text.new }
    ensures upper_bound { result ≤ at + 20 }
{
    let mut digits = [0u8; 20];
    let count = io::decimal(value, &mut digits);
    put_word(text, at, &digits[..count])
}

// A word and the number after it.
pub fn put_field(text: &mut [u8], at: usize, word: &[u8], value: u64) -> usize
    requires { at + length word.now + 20 < 2 ^ 64 }
    ensures stored { Stored (word.now ++ decimal value) at result text.old text.new }
    ensures upper_bound { result ≤ at + length word.now + 20 }
{
    let next = put_word(text, at, word);
    put_number(text, next, value)
}
