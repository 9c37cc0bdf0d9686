//! Tables of commands.

use crate::form::WordForm;

/// An option.
#[derive(Clone, Copy)]
pub struct CommandOption {
    pub name: &'static str,
    /// The form of its value.
    pub form: WordForm,
    /// The slots that it takes. No two options of a command line take one slot.
    pub slots: &'static [u16],
}

/// A command.
#[derive(Clone, Copy)]
pub struct Command<K> {
    /// Which command it is to whoever made the table.
    pub kind: K,
    pub name: &'static str,
    pub operands: &'static [WordForm],
    pub options: &'static [CommandOption],
    /// The slots that have to be taken.
    pub required: &'static [u16],
}
