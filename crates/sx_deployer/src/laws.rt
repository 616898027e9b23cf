//! What holds of every deployer. Each law is a function that does nothing: its contract is the law.

ghost use Rattle.sx_deployer.specs.Laws.{LampIsRenewed};

/// A worked renewal gives keys to both ends of the connection.
pub fn lamp_is_renewed()
    ensures { LampIsRenewed }
{}
