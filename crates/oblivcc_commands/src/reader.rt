//! Reading a command line by the table.

ghost use Rattle.std.specs.Prelude.{Contains, MatchResult};
ghost use Rattle.command_grammar.specs.Grammar.{Breaks, IsCommandOf, Usage, texts};
ghost use Rattle.command_grammar.specs.Scanning.{operands_in, options_in};
ghost use Rattle.command_grammar.specs.Views.{command_of};
ghost use Rattle.oblivcc_commands.specs.Table.{commands};

use crate::table::{CommandKind, commands};
use command_grammar::{Command, scan};

/// Which command the words are, or the first word that makes them none, or their number where more are wanted.
pub fn read_words(words: &[String]) -> Result<&'static Command<CommandKind>, usize>
    ensures { MatchResult result
        (λ c. Contains commands (command_of c.now) × IsCommandOf (command_of c.now) (texts words.now) (operands_in (command_of c.now) (texts words.now)) (options_in (command_of c.now) (texts words.now)))
        (λ k. Usage commands (texts words.now) k) }
{
    scan(commands(), words)
}

/// The first word that begins no command with those before it, where the word after them isn't text.
pub fn find_break(words: &[String]) -> usize
    ensures { Breaks commands (texts words.now) result }
{
    command_grammar::find_break(commands(), words)
}
