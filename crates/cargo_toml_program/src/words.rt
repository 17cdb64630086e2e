//! What the words of the command line ask for.
ghost use Rattle.std.specs.Prelude.{IfSome, IfNone, map, ℕ, string_bytes};
ghost use Rattle.cargo_toml_program.specs.Words.{AskFor, HasLimit, IsLimit};
ghost use Rattle.cargo_toml_program.specs.declared.arguments.Command.{Command};

use crate::arguments::Command;
use cargo_toml_features::admit::MAX_ITEMS;

/// What the words, without the program's own name, ask for; `None` where they are no command.
///
/// These are `features FILE`, `features --max N FILE` and `complete FILE`, where N is one to five
/// ASCII digits that write a number from 1 to 65535.
pub fn command(words: &[String]) -> Option<Command<'_>>
    ensures some { IfSome result (AskFor (map string_bytes words.now)) }
    ensures none { IfNone result ((c : Command) → ¬ AskFor (map string_bytes words.now) c) }
    ensures limit { IfSome result HasLimit }
{
    match words {
        [verb, file] => match verb.as_str() {
            "features" => Some(Command::Features(file.as_str(), MAX_ITEMS)),
            "complete" => Some(Command::Complete(file.as_str())),
            _ => None,
        },
        [verb, option, limit, file] => match (verb.as_str(), option.as_str()) {
            ("features", "--max") => {
                let max_items = limit_of(limit.as_str())?;
                Some(Command::Features(file.as_str(), max_items))
            }
            _ => None,
        },
        _ => None,
    }
}

/// The limit that a word spells.
fn limit_of(word: &str) -> Option<usize>
    ensures some { IfSome result (IsLimit word.now) }
    ensures none { IfNone result ((n : ℕ) → ¬ IsLimit word.now n) }
{
    // A number may have a sign in front, and any number of zeros.
    if word.starts_with('+') || word.len() > 5 {
        return None;
    }
    match word.parse::<u16>() {
        Ok(0) | Err(_) => None,
        Ok(number) => Some(usize::from(number)),
    }
}
