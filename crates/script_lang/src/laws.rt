//! Laws of the language. Each is the contract of a function without a body: a proof uses the law by calling it.

ghost use Rattle.script_lang.specs.Spelling.{LinesAreReadBack};

/// Reading the shortest spelling of a command returns that command.
pub fn lines_are_read_back()
    ensures { LinesAreReadBack }
{}
