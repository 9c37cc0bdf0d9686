//! The table of commands.

ghost use Rattle.std.specs.Prelude.{◌≡◌};
ghost use Rattle.command_grammar.specs.Views.{commands_of};
ghost use Rattle.oblivcc_commands.specs.Table.{commands};

use command_grammar::{Command, CommandOption, WordForm};

/// How many transfers are dealt at most.
pub const MOST_DEALT: u64 = 1_048_576;

/// How many steps a run takes at most.
pub const MOST_STEPS: u64 = 1_000_000_000;

/// Which command it is.
#[derive(Clone, Copy, Debug, PartialEq, Eq)]
pub enum CommandKind {
    Check,
    Clear,
    Deal,
}

const COMMANDS: [Command<CommandKind>; 3] = [
    Command {
        kind: CommandKind::Check,
        name: "check",
        operands: &[WordForm::Any],
        options: &[],
        required: &[],
    },
    Command {
        kind: CommandKind::Clear,
        name: "clear",
        operands: &[WordForm::Any],
        options: &[
            CommandOption {
                name: "--input1",
                form: WordForm::Any,
                slots: &[0],
            },
            CommandOption {
                name: "--input2",
                form: WordForm::Any,
                slots: &[1],
            },
            CommandOption {
                name: "--public",
                form: WordForm::IntegerList,
                slots: &[2],
            },
            CommandOption {
                name: "--steps",
                form: WordForm::Number {
                    least: 1,
                    most: MOST_STEPS,
                },
                slots: &[3],
            },
            CommandOption {
                name: "--dealt",
                form: WordForm::Number {
                    least: 0,
                    most: MOST_DEALT,
                },
                slots: &[4],
            },
        ],
        required: &[],
    },
    Command {
        kind: CommandKind::Deal,
        name: "deal",
        operands: &[],
        options: &[
            CommandOption {
                name: "--key",
                form: WordForm::Key,
                slots: &[0],
            },
            CommandOption {
                name: "--count",
                form: WordForm::Number {
                    least: 0,
                    most: MOST_DEALT,
                },
                slots: &[1],
            },
            CommandOption {
                name: "--out1",
                form: WordForm::Any,
                slots: &[2],
            },
            CommandOption {
                name: "--out2",
                form: WordForm::Any,
                slots: &[3],
            },
        ],
        required: &[0, 1, 2, 3],
    },
];

/// The table.
pub fn commands() -> &'static [Command<CommandKind>]
    ensures { commands_of result.now ≡ commands }
{
    &COMMANDS
}
