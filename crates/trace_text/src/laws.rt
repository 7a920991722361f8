//! Laws of traces. Each is the contract of a function without a body: a proof uses the law by calling it.

ghost use Rattle.trace_text.specs.Laws.{PrintIsRead, OneTextOneTrace};

/// Reading what `print` wrote returns the journals that were written.
pub fn print_is_read()
    ensures { PrintIsRead }
{}

/// Two traces with the same text are equal.
pub fn one_text_one_trace()
    ensures { OneTextOneTrace }
{}
