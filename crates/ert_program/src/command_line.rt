ghost use Rattle.std.specs.Prelude.{◌≡◌, map, IfOk};
ghost use Rattle.std.specs.{String.string_bytes, List.list_all};
ghost use Rattle.clap.specs.Words.{found_of, rows_of, subcommand_rows_of};
ghost use Rattle.ert_program.specs.{Commands.{is_plain_byte, is_plain_word, command_of}, Matches.{command_in, number_at}};

use crate::command::Command;
use crate::parser::parser;
use clap::ArgMatches;
use clap::error::ErrorKind;
use ert_defs::NoMemory;
use std::alloc::Global;

/// The command that the words of the command line are, without the program's name; None where they are none.
///
/// The commands are `run`, `race`, `live N` with N from 1 to 1,000, and `stress SEED N` with SEED from 0 to
/// 999,999,999 and N from 1 to 100,000. A number is one or more digits.
pub fn command_of(alloc: Global, words: &[String]) -> Result<Option<Command>, NoMemory>
    ensures { IfOk result (λ found. found ≡ command_of (map string_bytes words.now)) }
{
    if !are_plain(words) {
        return Ok(None);
    }
    match parser(alloc)?.try_get_matches_from(words) {
        Ok(matches) => Ok(command_in(&matches)),
        Err(error) => match error.kind() {
            ErrorKind::OutOfMemory => Err(NoMemory),
            _ => Ok(None),
        },
    }
}

/// Whether each word is plain.
fn are_plain(words: &[String]) -> bool
    ensures { result ≡ list_all (λ word. is_plain_word (string_bytes word)) words.now }
{
    words.iter().all(|word| is_plain_word(word.as_bytes()))
}

/// Whether a word has a character, and none but a to z and 0 to 9.
fn is_plain_word(word: &[u8]) -> bool
    ensures { result ≡ is_plain_word word.now }
{
    !word.is_empty() && has_plain_bytes(word)
}

fn has_plain_bytes(word: &[u8]) -> bool
    ensures { result ≡ list_all is_plain_byte word.now }
{
    word.iter().all(|byte| is_plain_byte(*byte))
}

fn is_plain_byte(byte: u8) -> bool
    ensures { result ≡ is_plain_byte byte }
{
    matches!(byte, b'a'..=b'z' | b'0'..=b'9')
}

/// The command that the matches say.
fn command_in(matches: &ArgMatches) -> Option<Command>
    ensures { result ≡ command_in (subcommand_rows_of matches.now) }
{
    let (name, inner) = matches.subcommand()?;
    match name {
        "run" => Some(Command::Run),
        "race" => Some(Command::Race),
        "live" => Some(Command::Live(number_at(inner, "n")?)),
        "stress" => Some(Command::Stress {
            seed: number_at(inner, "seed")?,
            n: number_at(inner, "n")?,
        }),
        _ => None,
    }
}

/// The number of an argument.
fn number_at(matches: &ArgMatches, id: &str) -> Option<u64>
    ensures { result ≡ number_at id.now (rows_of (found_of matches.now)) }
{
    matches.get_one::<u64>(id)
}
