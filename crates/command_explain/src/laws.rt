//! What holds of what is said of a trace. Each law is a function that does nothing: its contract is
//! the law.

ghost use Rattle.command_explain.specs.Laws.{SomeMeanings, TracesExplained};

/// There is what each text of a deployment means, and what each line of a trace.
pub fn some_meanings()
    ensures { SomeMeanings }
{}

/// Of a trace that is legal up to its first forged item the causes are said, and how it ended; of
/// another one the causes before the first item that the source refuses, and that this is illegal.
pub fn traces_explained()
    ensures { TracesExplained }
{}
