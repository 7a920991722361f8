//! The names of a broker's files as text, both ways. The module Name of specs/ has the grammar.

ghost use Rattle.std.specs.Prelude.{◌≡◌, ◌+◌, ◌<◌, ◌≤◌, ◌^◌, ◌++◌, ◌↔◌, ℕ, codes, length, IsTrue};
ghost use Rattle.std.specs.Prelude.{string_bytes, string_len, string_capacity};
ghost use Rattle.folder_yard.specs.Name.{digits_of, base_text, file_text, ReadsBase};
ghost use Rattle.folder_yard.specs.Name.{ReadsLogName, ReadsFixed, ReadsName};

use tier_base::FileName;

/// How many digits a base offset has: those of the greatest number of 64 bits.
const BASE_DIGITS: usize = 20;

/// Writes the last digits of a number after a text that has the room.
fn push_digits(text: &mut String, width: usize, number: u64)
    requires { string_len text.old + width ≤ string_capacity text.old }
    ensures bytes { string_bytes text.new ≡ string_bytes text.old ++ digits_of width number }
    ensures len { string_len text.new ≡ string_len text.old + width }
    ensures capacity { string_capacity text.old ≤ string_capacity text.new }
{
    if width > 0 {
        push_digits(text, width - 1, number / 10);
        let _ = text.push(char::from(b'0' + (number % 10) as u8));
    }
}

/// Writes the digits of a base offset after a text that has the room.
#[tactic(auto, unfolding(crate::specs::Name::base_text))]
fn push_base(text: &mut String, base: u64)
    requires { string_len text.old + 20 ≤ string_capacity text.old }
    ensures bytes { string_bytes text.new ≡ string_bytes text.old ++ base_text base }
    ensures len { string_len text.new ≡ string_len text.old + 20 }
    ensures capacity { string_capacity text.old ≤ string_capacity text.new }
{
    push_digits(text, BASE_DIGITS, base);
}

/// Writes a file's name after a text that has the room, without memory.
pub fn push_name(text: &mut String, name: FileName)
    requires { string_len text.old + 24 ≤ string_capacity text.old }
    ensures bytes { string_bytes text.new ≡ string_bytes text.old ++ file_text name }
    ensures len { string_len text.new ≤ string_len text.old + 24 }
    ensures capacity { string_capacity text.old ≤ string_capacity text.new }
{
    let end = match name {
        FileName::Manifest => "manifest",
        FileName::Log(base) => {
            push_base(text, base);
            ".log"
        }
        FileName::Notes => "notes",
        FileName::Gate => "gate",
        FileName::Registry => "registry",
    };
    let _ = text.push_str(end);
}

/// The number that these are the digits of, if they are such.
fn value(digits: &[u8]) -> u64
    ensures { (n : ℕ) → n < 2 ^ 64 → n < 10 ^ length digits.now
        → digits.now ≡ digits_of (length digits.now) n → result ≡ n }
{
    match digits.split_last() {
        None => 0,
        Some((last, front)) => value(front)
            .saturating_mul(10)
            .saturating_add(u64::from(last.saturating_sub(b'0'))),
    }
}

/// Whether these are the last digits of a number.
fn are_digits_of(digits: &[u8], number: u64) -> bool
    ensures { IsTrue result ↔ (digits.now ≡ digits_of (length digits.now) number) }
{
    match digits.split_last() {
        None => true,
        Some((last, front)) => {
            *last == b'0' + (number % 10) as u8 && are_digits_of(front, number / 10)
        }
    }
}

/// The base offset with these digits.
#[tactic(auto, unfolding(crate::specs::Name::base_text))]
fn read_base(digits: &[u8]) -> Option<u64>
    requires { length digits.now ≡ 20 }
    ensures { ReadsBase digits.now result }
{
    let base = value(digits);
    if are_digits_of(digits, base) {
        Some(base)
    } else {
        None
    }
}

/// Whether log segments' names end so.
fn is_log(end: &[u8]) -> bool
    ensures { IsTrue result ↔ (end.now ≡ codes ".log") }
{
    end == b".log".as_slice()
}

/// The base offset of the log segment with this name.
fn read_log(text: &[u8]) -> Option<u64>
    ensures { ReadsLogName text.now result }
{
    if text.len() != 24 {
        return None;
    }
    let (digits, end) = text.split_at(BASE_DIGITS);
    if !is_log(end) {
        return None;
    }
    read_base(digits)
}

/// The file with this name, if it is none of a log segment.
fn read_fixed(text: &[u8]) -> Option<FileName>
    ensures { ReadsFixed text.now result }
{
    if text == b"manifest".as_slice() {
        return Some(FileName::Manifest);
    }
    if text == b"notes".as_slice() {
        return Some(FileName::Notes);
    }
    if text == b"gate".as_slice() {
        return Some(FileName::Gate);
    }
    if text == b"registry".as_slice() {
        return Some(FileName::Registry);
    }
    None
}

/// The file with this name. Other names are no files of a log.
pub fn read_name(text: &[u8]) -> Option<FileName>
    ensures { ReadsName text.now result }
{
    if let Some(base) = read_log(text) {
        return Some(FileName::Log(base));
    }
    read_fixed(text)
}
