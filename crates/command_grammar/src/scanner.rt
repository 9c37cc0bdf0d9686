//! Reading a command line.

ghost use Rattle.std.specs.Prelude.{◌≡◌, ◌≤◌, ◌<◌, ◌+◌, ◌&&◌, ◌∷◌, [], List, length, not, take, true, IsTrue, Contains, MatchOption, MatchResult};
ghost use Rattle.std.specs.Option.{option_map};
ghost use Rattle.std.specs.List.{list_any, list_all};
ghost use Rattle.std.specs.Str.{bytes_eq};
ghost use Rattle.command_grammar.specs.Forms.{fits};
ghost use Rattle.command_grammar.specs.Grammar.{Breaks, Command as Row, GivesOnce, HasOneReading, IsCommandOf, Usage, texts, has};
ghost use Rattle.command_grammar.specs.Scanning.{HasOperands, command_named, fitting, option_of, operands_in, options_in, means, slots_in, slots_or_none, is_free};
ghost use Rattle.command_grammar.specs.Sound.{is_sound, is_sound_command};
ghost use Rattle.command_grammar.specs.Views.{command_option_of, command_options_of, command_of, commands_of};

use crate::form::{WordForm, fits};
use crate::table::{Command, CommandOption};

/// Whether an option has this name, and its form this value.
fn means(option: &CommandOption, name: &str, value: &str) -> bool
    ensures { result ≡ means name.now value.now (command_option_of option.now) }
{
    option.name == name && fits(option.form, value)
}

/// Whether one of some slots is this.
fn has(slots: &[u16], slot: u16) -> bool
    ensures { result ≡ has slots.now slot }
{
    slots.iter().any(|p| *p == slot)
}

/// Whether the option that a name and a value mean takes this slot.
fn takes(options: &[CommandOption], name: &str, value: &str, slot: u16) -> bool
    ensures { result ≡ has (slots_or_none (option_of (command_options_of options.now) name.now value.now)) slot }
{
    for option in options {
        if means(option, name, value) {
            return has(option.slots, slot);
        }
    }
    false
}

/// Whether an option of these pairs of a name and a value takes this slot.
fn is_taken(options: &[CommandOption], pairs: &[String], slot: u16) -> bool
    ensures { result ≡ has (slots_in (command_options_of options.now) (texts pairs.now)) slot }
{
    let count = pairs.len();
    let mut at = 0;
    while at + 1 < count {
        if takes(options, pairs[at].as_str(), pairs[at + 1].as_str(), slot) {
            return true;
        }
        at += 2;
    }
    false
}

/// Whether no slot of an option is taken.
fn is_free(options: &[CommandOption], pairs: &[String], option: &CommandOption) -> bool
    ensures { result ≡ is_free (slots_in (command_options_of options.now) (texts pairs.now)) (command_option_of option.now) }
{
    option.slots.iter().all(|p| !is_taken(options, pairs, *p))
}

/// Whether an option of this name is free.
fn can_name(options: &[CommandOption], pairs: &[String], name: &str) -> bool
    ensures { result ≡ list_any (λ o. bytes_eq o.name.now name.now && is_free (slots_in (command_options_of options.now) (texts pairs.now)) (command_option_of o)) options.now }
{
    options
        .iter()
        .any(|o| o.name == name && is_free(options, pairs, o))
}

/// Whether an option of this name, whose form the value has, is free.
fn can_take(options: &[CommandOption], pairs: &[String], name: &str, value: &str) -> bool
    ensures { result ≡ list_any (λ o. means name.now value.now (command_option_of o) && is_free (slots_in (command_options_of options.now) (texts pairs.now)) (command_option_of o)) options.now }
{
    options
        .iter()
        .any(|o| means(o, name, value) && is_free(options, pairs, o))
}

/// Whether all required slots are taken.
fn are_taken(options: &[CommandOption], pairs: &[String], required: &[u16]) -> bool
    ensures { result ≡ list_all (λ p. has (slots_in (command_options_of options.now) (texts pairs.now)) p) required.now }
{
    required.iter().all(|p| is_taken(options, pairs, *p))
}

/// The command of this name.
fn command_named<'t, K>(table: &'t [Command<K>], name: &str) -> Option<&'t Command<K>>
    ensures { option_map (λ c. command_of c.now) result ≡ command_named (commands_of table.now) name.now }
{
    for command in table {
        if command.name == name {
            return Some(command);
        }
    }
    None
}

/// How many operands stand in front that have their forms.
fn fitting(operands: &[WordForm], words: &[String]) -> usize
    ensures value { result ≡ fitting operands.now (texts words.now) }
    ensures within { result ≤ length words.now }
{
    let mut count = 0;
    while count < operands.len() && count < words.len() {
        if !fits(operands[count], words[count].as_str()) {
            return count;
        }
        count += 1;
    }
    count
}

/// The first word after the operands that makes the words none of the command, or their number where more
/// are required.
fn option_fault<K>(command: &Command<K>, words: &[String]) -> Option<usize>
    requires sound { is_sound_command (command_of command.now) ≡ true }
    requires operands { HasOperands (command_of command.now) (texts words.now) }
    ensures { (table : List (Row K)) → IsTrue (is_sound table) → Contains table (command_of command.now) →
        MatchOption result (IsCommandOf (command_of command.now) (texts words.now) (operands_in (command_of command.now) (texts words.now)) (options_in (command_of command.now) (texts words.now)))
        (λ k. Usage table (texts words.now) k) }
{
    let count = words.len();
    let start = 1 + command.operands.len();
    let mut at = start;
    while at < count {
        let name = words[at].as_str();
        let pairs = &words[start..at];
        if !can_name(command.options, pairs, name) {
            return Some(at);
        }
        if at + 1 == count {
            return Some(count);
        }
        if !can_take(command.options, pairs, name, words[at + 1].as_str()) {
            return Some(at + 1);
        }
        at += 2;
    }
    if are_taken(command.options, &words[start..], command.required) {
        None
    } else {
        Some(count)
    }
}

/// Which command of the table the words are, or the first word that makes them none, or their number where
/// more are required.
pub fn scan<'t, K>(table: &'t [Command<K>], words: &[String]) -> Result<&'t Command<K>, usize>
    requires { IsTrue (is_sound (commands_of table.now)) }
    ensures { MatchResult result
        (λ c. Contains (commands_of table.now) (command_of c.now) × IsCommandOf (command_of c.now) (texts words.now) (operands_in (command_of c.now) (texts words.now)) (options_in (command_of c.now) (texts words.now)))
        (λ k. Usage (commands_of table.now) (texts words.now) k) }
{
    if words.is_empty() {
        return Err(0);
    }
    let command = match command_named(table, words[0].as_str()) {
        Some(command) => command,
        None => return Err(0),
    };
    let required = command.operands.len();
    let count = fitting(command.operands, &words[1..]);
    if count < required {
        return Err(count + 1);
    }
    match option_fault(command, words) {
        None => Ok(command),
        Some(k) => Err(k),
    }
}

/// The first word that begins no command with those before it, where the word after them isn't text.
pub fn find_break<K>(table: &[Command<K>], words: &[String]) -> usize
    requires { IsTrue (is_sound (commands_of table.now)) }
    ensures { Breaks (commands_of table.now) (texts words.now) result }
{
    match scan(table, words) {
        Ok(_) => words.len(),
        Err(k) => k,
    }
}

/// The law that words have at most one reading.
pub fn have_one_reading<K>(table: &[Command<K>])
    requires { IsTrue (is_sound (commands_of table.now)) }
    ensures { HasOneReading (commands_of table.now) }
{}

/// The law that a command gives each option at most once.
pub fn give_options_once<K>(table: &[Command<K>])
    requires { IsTrue (is_sound (commands_of table.now)) }
    ensures { GivesOnce (commands_of table.now) }
{}
