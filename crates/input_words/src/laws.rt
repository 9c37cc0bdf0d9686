//! What is so of every file.

ghost use Rattle.input_words.specs.Telling.{LongInputsAreWrong};

/// The law that a file of `MAX_BYTES` or more is wrong, at the same line as its first `MAX_BYTES` bytes.
pub fn long_inputs_are_wrong()
    ensures { LongInputsAreWrong }
{}
