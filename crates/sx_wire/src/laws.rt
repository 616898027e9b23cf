//! Each packet has one spelling. Each law is a function that does nothing: its contract is the law.

ghost use Rattle.sx_wire.specs.Laws.{AskSpelledOnce, EventSpelledOnce, SetKeySpelledOnce};

/// Two event packets with the same bytes are the same.
pub fn event_spelled_once()
    ensures { EventSpelledOnce }
{}

/// Two set-key packets with the same bytes are the same.
pub fn set_key_spelled_once()
    ensures { SetKeySpelledOnce }
{}

/// Two challenges with the same ask packet are the same.
pub fn ask_spelled_once()
    ensures { AskSpelledOnce }
{}
