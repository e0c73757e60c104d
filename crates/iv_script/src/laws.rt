//! Examples of what texts say and of reports, for the reader of the definitions.

ghost use Rattle.iv_script.specs.Examples.{ReadExamples, FitExamples, ReportExamples};

/// Texts and the scripts that they say, calls that fit or not, and reports.
pub fn examples()
    ensures read { ReadExamples }
    ensures fit { FitExamples }
    ensures report { ReportExamples }
{}
