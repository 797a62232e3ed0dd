// Laws of the definitions.
ghost use Rattle.std.specs.Prelude.{◌≡◌, ℕ, ◌*◌, ◌^◌, ◌≤◌, Bool, List, None, Some, Result, length};
ghost use Rattle.assign_core.specs.declared.sense.Sense.{Sense};
ghost use Rattle.assign_core.specs.declared.outcome.Outcome.{Outcome};
ghost use Rattle.assign_core.specs.Rows.{Listing, IsProblem};
ghost use Rattle.report.specs.declared.fault.ReportFault.{ReportFault};
ghost use Rattle.report.specs.Answers.{Answers, BeginsReport, SpeaksOfText};
ghost use Rattle.report.specs.Lines.{Line, report_lines, report_text};
ghost use Rattle.report.specs.Order.{Draft, finish, said_by};
ghost use Rattle.report.specs.Outcomes.{IsOutcome, outcome_report};
ghost use Rattle.report.specs.Reports.{Report, IsReport, cost_limit, price_end, total_limit};

use crate::limits::TEXT_LIMIT;

/// The limits as numbers: of any text, of version 1, which names no sense, and of version 2, which
/// names one.
pub fn report_limits()
    ensures text { TEXT_LIMIT ≡ 2 ^ 20 }
    ensures first_costs { cost_limit None ≡ 10 ^ 6 }
    ensures first_totals { total_limit None ≡ 8192 * 10 ^ 6 }
    ensures first_prices { price_end None ≡ 10 ^ 16 }
    ensures costs { (sense : Sense) → cost_limit (Some sense) ≡ 10 ^ 12 }
    ensures totals { (sense : Sense) → total_limit (Some sense) ≡ 8192 * 10 ^ 12 }
    ensures prices { (sense : Sense) → price_end (Some sense) ≡ 10 ^ 22 }
{}

/// No two reports have the same text.
pub fn one_text()
    ensures { (first second : Report) → IsReport first → IsReport second
        → report_text first ≡ report_text second → first ≡ second }
{}

/// Each text has only one answer that speaks of the text, not of memory or the reader. A fault is
/// the answer exactly where its definition holds.
pub fn one_answer()
    ensures some { (bytes : List ℕ) → (answer : Result Report ReportFault)
        × SpeaksOfText answer × Answers bytes answer }
    ensures one { (bytes : List ℕ) (first second : Result Report ReportFault)
        → SpeaksOfText first → SpeaksOfText second
        → Answers bytes first → Answers bytes second → first ≡ second }
{}

/// Lines may stand at the start of a text exactly where some report begins with them. If they are
/// all lines of a report, the text may end after them.
pub fn lines_begin_reports()
    ensures some { (lines : List Line) (draft : Draft)
        → said_by lines ≡ Some draft → BeginsReport lines }
    ensures none { (lines : List Line) → said_by lines ≡ None → BeginsReport lines → ⊥ }
    ensures end { (lines : List Line) (draft : Draft) → said_by lines ≡ Some draft
        → finish draft ≡ None
        → (report : Report) → IsReport report → report_lines report ≡ lines → ⊥ }
{}

/// Each report's text is within the limit of texts.
pub fn short_text()
    ensures { (report : Report) → IsReport report → length (report_text report) ≤ TEXT_LIMIT }
{}

/// A text that is written is that of a report, so it can be read.
pub fn written_is_report()
    ensures { (rows : List Listing) (sense : Sense) (outcome : Outcome) (prices : Bool)
        → IsProblem rows → IsOutcome rows outcome
        → IsReport (outcome_report rows sense outcome prices) }
{}
