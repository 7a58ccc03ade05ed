//! What follows from the definitions, for the proofs of callers.

ghost use Rattle.correlation_run.specs.ReportLaws.{ReadsBack};
ghost use Rattle.correlation_run.specs.Laws.{EachFollowed, OneFollowed};

/// A report's line is a JSON text that has all of the report.
pub fn line_reads_back()
    ensures { ReadsBack }
{}

/// Each line is answered in one way behind each history.
pub fn one_follower()
    ensures each { EachFollowed }
    ensures one { OneFollowed }
{
    detection_eval::matches_or_not();
}
