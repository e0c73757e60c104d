ghost use Rattle.module_text.specs.Verdicts.{EachTextHasOneVerdict};

/// Of every text one verdict holds, and no other.
pub fn each_text_has_one_verdict()
    ensures { EachTextHasOneVerdict }
{}
