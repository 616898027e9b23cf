//! What holds of every text. Each law is a function that does nothing: its contract is the law.

ghost use Rattle.spec_grammar.specs.Laws.{Decided, OneModule, ModuleOrFault, NoFault, OneFault};
ghost use Rattle.spec_grammar.specs.Laws.{OneModuleOfText, SpelledWords};

/// No tokens are two modules'.
pub fn one_module()
    ensures { OneModule }
{}

/// All tokens are a module's or have a first fault.
pub fn decided()
    ensures { Decided }
{}

/// No text is two modules'.
pub fn one_module_of_text()
    ensures { OneModuleOfText }
{}

/// No text has two first faults.
pub fn one_fault()
    ensures { OneFault }
{}

/// No text that spells a module has a fault.
pub fn no_fault()
    ensures { NoFault }
{}

/// Each text spells a module or has a first fault.
pub fn module_or_fault()
    ensures { ModuleOrFault }
{}

/// The numbers of the module that a text spells are 16-bit words.
pub fn spelled_words()
    ensures { SpelledWords }
{}
