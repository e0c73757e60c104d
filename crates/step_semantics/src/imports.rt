ghost use Rattle.step_semantics.specs.OutsideLaws.{CallsAreSeen, FittingIsGiven, MissingEnds, NoReplyIsWanted, UnfitEnds};

/// The outside sees each call of an import, whatever comes of it, and no more than that call.
pub fn an_import_call_is_seen<S>()
    ensures { CallsAreSeen S }
{}

/// An import that gives nothing back takes no reply and no step.
pub fn no_reply_is_wanted<S>()
    ensures { NoReplyIsWanted S }
{}

/// Any other takes the next reply: none ends the run, and so does one that does not fit; else its values are given on.
pub fn a_reply_is_taken<S>()
    ensures missing { MissingEnds S }
    ensures unfit { UnfitEnds S }
    ensures given { FittingIsGiven S }
{}
