//! Laws of bit data, for the layers above: a call of one brings its clauses.

ghost use Rattle.bit_data.specs.Laws.{FaultsAreFirst, FaultlessFieldsAreSound, FieldsStandInARow, FieldsAreInTheWord, FieldsHoldNumbers, ChangedFieldsHold, OtherFieldsStay, ChangedWordsFit};

/// The fault that is answered is that of the first field that has the name of one before it or no bits.
pub fn faults_of_fields()
    ensures first { FaultsAreFirst }
    ensures none { FaultlessFieldsAreSound }
{}

/// The fields of a layout stand in a row in its word, and a field of a word holds a number of the field's bits.
pub fn fields_of_words()
    ensures row { FieldsStandInARow }
    ensures inside { FieldsAreInTheWord }
    ensures numbers { FieldsHoldNumbers }
{}

/// A word with another number in a field holds that number there, has its other fields as they were, and is one of its kind.
pub fn changed_words()
    ensures field { ChangedFieldsHold }
    ensures others { OtherFieldsStay }
    ensures word { ChangedWordsFit }
{}
