//! What holds of all reports.
ghost use Rattle.std.specs.Prelude.{◌≡◌, ◌++◌, [], ℕ, List};
ghost use Rattle.report_text.specs.Ranges.{IsReport};
ghost use Rattle.report_text.specs.Report.{ReportOf, report_text};
ghost use Rattle.report_text.specs.Told.{IsTold, as_told};

/// Law: no report's text begins another's, and each report has one text.
pub fn texts_are_unique()
    ensures { (a b : ReportOf) → IsReport a → IsReport b → (rest : List ℕ) → report_text b ≡ report_text a ++ rest → (a ≡ b) × (rest ≡ []) }
{}

/// Law: a report's text tells of a note the host and the id alone. Where the report as told keeps to the ranges of reports,
/// that text is read back as the report as told.
pub fn told_reports_read_back()
    ensures { (report : ReportOf) → IsReport (as_told report) → IsTold report }
{}
