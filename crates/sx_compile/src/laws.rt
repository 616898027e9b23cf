//! What holds of compiled modules. Each law is a function that does nothing: its contract is the
//! law.

ghost use Rattle.sx_compile.specs.Laws.{CompiledRealizes, CompiledShowsNoKey};
ghost use Rattle.sx_compile.specs.Laws.{FewPieces, ZerosInitial};

/// The image of a module realizes it.
pub fn compiled_realizes()
    ensures { CompiledRealizes }
{}

/// No step of an invocation of it shows a key of the module's ends.
pub fn compiled_shows_no_key()
    ensures { CompiledShowsNoKey }
{}

/// An invocation of a module makes at most 16 pieces.
pub fn few_pieces()
    ensures { FewPieces }
{}

/// A private section of zeros represents the initial state.
pub fn zeros_initial()
    ensures { ZerosInitial }
{}
