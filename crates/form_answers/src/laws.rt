ghost use Rattle.form_answers.specs.FormLaws.{OperatorsAnswer, TruthsCompare, NegationsAnswer, CastsAnswer, IndicesAnswer, WrapsAnswer, FieldsAnswer, SetsAnswer};

/// What the guards and the values of operators and of conversions with a check come to.
pub fn operators_answer()
    ensures operators { OperatorsAnswer }
    ensures truths { TruthsCompare }
    ensures negations { NegationsAnswer }
    ensures casts { CastsAnswer }
    ensures indices { IndicesAnswer }
{}

/// What `wrapix`, a field of bit data and `set` come to, and when the guard of `set` holds.
pub fn fields_and_indices_answer()
    ensures wraps { WrapsAnswer }
    ensures fields { FieldsAnswer }
    ensures sets { SetsAnswer }
{}
