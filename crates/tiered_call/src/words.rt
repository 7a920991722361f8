//! The words after the program's name, and which form they have.

ghost use Rattle.std.specs.Prelude.{◌≡◌, ◌∷◌, []};
ghost use Rattle.std.specs.List.{list_all};
ghost use Rattle.std.specs.Char.{is_ascii_digit};
ghost use Rattle.tiered_call.specs.Words.{form_in, form_of as form_is, folder_of};
ghost use Rattle.tiered_call.specs.Words.{number_of as number_is, is_shortest as shortest};

/// What the words ask for.
#[derive(Clone, Copy, Debug, PartialEq, Eq)]
pub enum Form {
    /// `sim`: a script is read and run, and its trace is written.
    Sim,
    /// `sim --threads`: the same, but that each actor of each partition has a thread of its own.
    Threads,
    /// `run DIR`: a script is read and run over the devices of a folder, and its trace is written.
    Run,
    /// `gen N`: the script of a number is run, and its summary is written.
    Gen(u32),
    /// `audit DIR`: the remote tier of each partition in a folder is audited, and what was found is written.
    Audit,
    /// `sweep DIR`: the remote tier of each partition in a folder is swept, and how much went is written.
    Sweep,
}

/// Whether each byte is a digit.
fn are_digits(word: &[u8]) -> bool
    ensures { result ≡ list_all is_ascii_digit word.now }
{
    word.iter().all(|byte| byte.is_ascii_digit())
}

/// Whether no digit in front of these could be left out.
fn is_shortest(word: &[u8]) -> bool
    ensures { result ≡ shortest word.now }
{
    match word {
        [] => false,
        [_] => true,
        [first, ..] => *first != b'0',
    }
}

/// The number that a word spells.
fn number_of(word: &str) -> Option<u32>
    ensures { result ≡ number_is word.now }
{
    let digits = word.as_bytes();
    if !are_digits(digits) || !is_shortest(digits) {
        return None;
    }
    word.parse::<u32>().ok()
}

/// The form of a single word, if it has one.
fn form_of_one(word: &str) -> Option<Form>
    ensures { result ≡ form_in (word.now ∷ []) }
{
    if word == "sim" { Some(Form::Sim) } else { None }
}

/// The form of two words, if they have one.
fn form_of_two(word: &str, second: &str) -> Option<Form>
    ensures { result ≡ form_in (word.now ∷ second.now ∷ []) }
{
    if word == "sim" && second == "--threads" {
        Some(Form::Threads)
    } else if word == "run" {
        Some(Form::Run)
    } else if word == "audit" {
        Some(Form::Audit)
    } else if word == "sweep" {
        Some(Form::Sweep)
    } else if word == "gen" {
        Some(Form::Gen(number_of(second)?))
    } else {
        None
    }
}

/// The form that the words have, if any.
pub fn form_of(words: &[String]) -> Option<Form>
    ensures { result ≡ form_is words.now }
{
    match words {
        [word] => form_of_one(word.as_str()),
        [word, second] => form_of_two(word.as_str(), second.as_str()),
        _ => None,
    }
}

/// The folder that the words of `run`, `audit` and `sweep` name. Other words are asked for it too, and nothing of it
/// is touched then.
pub fn folder(words: &[String]) -> &str
    ensures { result.now ≡ folder_of words.now }
{
    match words.get(1) {
        Some(word) => word.as_str(),
        None => ".",
    }
}
