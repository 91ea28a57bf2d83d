//! The commands that the words of the command line name.

ghost use Rattle.std.specs.Prelude.{◌≡◌, map, option_map, string_bytes};
ghost use Rattle.krb_text.specs.Decimals.{is_decimal, u32_of};
ghost use Rattle.std.specs.Char.{is_ascii_digit};
ghost use Rattle.std.specs.List.{list_all};
ghost use Rattle.krb_keys.specs.Commands.{KeyLines, command_view, word_of, command_of};

/// A command of the program.
#[derive(Clone, Copy)]
pub enum Command<'a> {
    Help,
    Version,
    Listing,
    KeyLines { realm: &'a str, acceptor: u32 },
}

fn are_digits(text: &[u8]) -> bool
    ensures { result ≡ list_all is_ascii_digit text.now }
{
    text.iter().all(|octet| octet.is_ascii_digit())
}

fn is_decimal(text: &[u8]) -> bool
    ensures { result ≡ is_decimal text.now }
{
    match text {
        [] => false,
        [b'0', rest @ ..] => rest.is_empty(),
        [first, rest @ ..] => first.is_ascii_digit() && are_digits(rest),
    }
}

/// Returns a decimal number of 32 bits, without sign or leading zeros.
fn number(text: &[u8]) -> Option<u32>
    ensures { result ≡ u32_of text.now }
{
    if !is_decimal(text) {
        return None;
    }
    let mut value = 0u64;
    for digit in text {
        value = value * 10 + u64::from(*digit - b'0');
        if value > u64::from(u32::MAX) {
            return None;
        }
    }
    Some(value as u32)
}

fn word(word: &str) -> Option<Command<'static>>
    ensures { option_map command_view result ≡ word_of word.now }
{
    match word {
        "--help" | "-h" => Some(Command::Help),
        "--version" | "-V" => Some(Command::Version),
        "list" => Some(Command::Listing),
        _ => None,
    }
}

fn key_lines<'a>(realm: &'a str, acceptor: &str) -> Option<Command<'a>>
    ensures { option_map command_view result ≡ option_map (λ number. KeyLines realm.now number) (u32_of acceptor.now) }
{
    let acceptor = number(acceptor.as_bytes())?;
    Some(Command::KeyLines { realm, acceptor })
}

/// Returns the command that the words name, which are those of the command line without the program's own name.
pub fn read_command(words: &[String]) -> Option<Command<'_>>
    ensures { option_map command_view result ≡ command_of (map string_bytes words.now) }
{
    match words {
        [only] => word(only.as_str()),
        [first, realm, acceptor] if first.as_str() == "lines" => {
            key_lines(realm.as_str(), acceptor.as_str())
        }
        _ => None,
    }
}
