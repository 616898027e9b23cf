//! What holds of applications and of what handlers do. Each law is a function that does nothing:
//! its contract is the law.

ghost use Rattle.sx_mean.specs.Acts.{ActsGrow};
ghost use Rattle.sx_mean.specs.EndLaws.{EndsCounted, EndsHold};
ghost use Rattle.sx_mean.specs.Handlers.{HandlersNumbered};
ghost use Rattle.sx_mean.specs.Scope.{LocalsIndexed, ScopesKept};
ghost use Rattle.sx_mean.specs.Valid.{ValidApplications};
ghost use Rattle.sx_mean.specs.Words.{CellsBegin, ReactionsKeepWords, ValuesAreWords};

/// What is valid keeps each limit, and each device, part and connection of it is as it has to be.
pub fn valid_applications()
    ensures { ValidApplications }
{}

/// A part holds as many ends as its connections have, and for each output as many sending ends as
/// connections leave it.
pub fn ends_counted()
    ensures { EndsCounted }
{}

/// The ends of each part of a valid application are at most 16, in connection order with the
/// sending end first, none twice, of connections below 64, and at ports of the part's module.
pub fn ends_hold()
    ensures { EndsHold }
{}

/// An event's handler is that of its number among the module's handlers.
pub fn handlers_numbered()
    ensures { HandlersNumbered }
{}

/// A local is found by the index of its name among the names in scope.
pub fn locals_indexed()
    ensures { LocalsIndexed }
{}

/// A statement adds the names that it defines itself to the scope, and a block's end takes those of
/// the block from it.
pub fn scopes_kept()
    ensures { ScopesKept }
{}

/// A block keeps the acts so far, and adds its own after them.
pub fn acts_grow()
    ensures { ActsGrow }
{}

/// An expression whose numbers are words is worth a word, where the locals and cells are words.
pub fn values_are_words()
    ensures { ValuesAreWords }
{}

/// A module begins with as many cells as it declares, each a word.
pub fn cells_begin()
    ensures { CellsBegin }
{}

/// A reaction leaves as many cells, each a word, and its acts are on words.
pub fn reactions_keep_words()
    ensures { ReactionsKeepWords }
{}
