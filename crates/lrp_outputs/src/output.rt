// What a command writes.
use crate::answer::WholeAnswer;
use crate::leasts::LeastAnswers;
use crate::page::Page;
use crate::plan::WritablePlan;
use crate::ranges::RangeLines;
use crate::report::Report;
use crate::witness::Witness;
use lrp_database::Database;
use lrp_lint::LintReport;

/// What a command writes.
pub enum Output {
    /// The relations of a database, in order.
    Relations(Database),
    /// The plan of a query.
    Plan(WritablePlan),
    /// All answers of a query.
    Answer(WholeAnswer),
    /// The least answer of a query.
    Witness(Witness),
    /// A page of answers of a query.
    Page(Page),
    /// How many answers of a query lie in a window.
    Count(u128),
    /// The answers of a query in a window, as ranges.
    Ranges(RangeLines),
    /// The least answers of a query while rows are added and taken out.
    LeastAnswers(LeastAnswers),
    /// What is silently wrong in a database, and in a query over it.
    Lint(LintReport),
    /// What is told of the sample.
    Sample(Report),
}

// It is let go by one call: a derived drop would be proved anew, part by part, wherever an output goes.
impl Drop for Output {
    fn drop(self) {
        match self {
            Output::Relations(relations) => drop(relations),
            Output::Plan(plan) => drop(plan),
            Output::Answer(answer) => drop(answer),
            Output::Witness(witness) => drop(witness),
            Output::Page(page) => drop(page),
            Output::Count(_) => {}
            Output::Ranges(lines) => drop(lines),
            Output::LeastAnswers(leasts) => drop(leasts),
            Output::Lint(lint) => drop(lint),
            Output::Sample(report) => drop(report),
        }
    }
}
