//! What each command asks for, with the values of its options read.

ghost use Rattle.std.specs.Prelude.{◌≡◌, ◌≤◌};
ghost use Rattle.command_grammar.specs.Grammar.{IsCommandOf, texts};
ghost use Rattle.command_grammar.specs.Scanning.{operands_in, options_in};
ghost use Rattle.oblivcc_commands.specs.Table.{check_command, clear_command, deal_command};
ghost use Rattle.oblivcc_commands.specs.Asked.{IsCheck, IsClear, IsDeal};
ghost use Rattle.oblivcc_commands.specs.Asks.{Asks, HaveOneMeaning};
ghost use Rattle.oblivcc_commands.specs.Views.{check_of, clear_of, deal_of};

use crate::reader::read_words;
use crate::table::{CommandKind, MOST_DEALT, MOST_STEPS};
use command_grammar::{key_or_zeros, number_or, text_or_empty, value, word_at, words_from};

/// What `check` is asked for.
#[derive(Clone, Copy)]
pub struct CheckWords<'w> {
    /// The source's name.
    pub file: &'w str,
}

/// What `clear` is asked for.
#[derive(Clone, Copy)]
pub struct ClearWords<'w> {
    /// The source's name.
    pub file: &'w str,
    /// The name of the first party's input, where one is given.
    pub first: Option<&'w str>,
    /// The name of the second party's input, where one is given.
    pub second: Option<&'w str>,
    /// The list of public words, where one is given: `list_or_none` reads it.
    pub public: Option<&'w str>,
    /// How many steps the run may take.
    pub steps: u64,
    /// How many dealt transfers the run may use.
    pub dealt: u32,
}

/// What `deal` is asked for.
#[derive(Clone, Copy)]
pub struct DealWords<'w> {
    pub key: [u8; 32],
    /// How many transfers are dealt.
    pub count: u32,
    /// The name of the sender's file.
    pub first: &'w str,
    /// The name of the receiver's file.
    pub second: &'w str,
}

/// What a command line asks for.
#[derive(Clone, Copy)]
pub enum Asked<'w> {
    Check(CheckWords<'w>),
    Clear(ClearWords<'w>),
    Deal(DealWords<'w>),
}

/// What the words of `check` ask for.
fn read_check(words: &[String]) -> CheckWords<'_>
    requires { IsCommandOf check_command (texts words.now) (operands_in check_command (texts words.now)) (options_in check_command (texts words.now)) }
    ensures { IsCheck (texts words.now) (check_of result) }
{
    CheckWords {
        file: word_at(words, 1),
    }
}

/// What the words of `clear` ask for.
fn read_clear(words: &[String]) -> ClearWords<'_>
    requires { IsCommandOf clear_command (texts words.now) (operands_in clear_command (texts words.now)) (options_in clear_command (texts words.now)) }
    ensures { IsClear (texts words.now) (clear_of result) }
{
    let options = words_from(words, 2);
    ClearWords {
        file: word_at(words, 1),
        first: value(options, "--input1"),
        second: value(options, "--input2"),
        public: value(options, "--public"),
        steps: number_or(value(options, "--steps"), MOST_STEPS, MOST_STEPS),
        dealt: number_or(value(options, "--dealt"), MOST_DEALT, MOST_DEALT) as u32,
    }
}

/// What the words of `deal` ask for.
fn read_deal(words: &[String]) -> DealWords<'_>
    requires { IsCommandOf deal_command (texts words.now) (operands_in deal_command (texts words.now)) (options_in deal_command (texts words.now)) }
    ensures { IsDeal (texts words.now) (deal_of result) }
{
    let options = words_from(words, 1);
    DealWords {
        key: key_or_zeros(value(options, "--key")),
        count: number_or(value(options, "--count"), MOST_DEALT, 0) as u32,
        first: text_or_empty(value(options, "--out1")),
        second: text_or_empty(value(options, "--out2")),
    }
}

/// What a command line asks for, or the first word that makes it no command, or the number of words where more
/// are wanted.
pub fn read_command(words: &[String]) -> Result<Asked<'_>, usize>
    ensures { Asks (texts words.now) result }
{
    let command = match read_words(words) {
        Ok(command) => command,
        Err(k) => return Err(k),
    };
    match command.kind {
        CommandKind::Check => Ok(Asked::Check(read_check(words))),
        CommandKind::Clear => Ok(Asked::Clear(read_clear(words))),
        CommandKind::Deal => Ok(Asked::Deal(read_deal(words))),
    }
}

/// The law that words ask for one thing at most.
pub fn have_one_meaning()
    ensures { HaveOneMeaning }
{}
