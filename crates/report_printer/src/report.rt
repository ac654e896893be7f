//! The output for a report of circular chains.
ghost use Rattle.std.specs.Prelude.{◌≡◌, IfOk};
ghost use Rattle.abs_program.specs.NamedViews.{program_tree};
ghost use Rattle.report_printer.specs.ReportTexts.{report_lines};

use crate::output::Output;
use crate::printer::Printer;
use crate::source_lines::SourceLines;
use abs_tree::Text;
use circularity_test::Report;
use contract_terms::Contracted;
use std::alloc::{AllocError, Global};

/// The lines of a report on a program, of which these bytes are the source.
///
/// # Errors
/// [`AllocError`] where memory runs out.
pub fn report_text(
    alloc: Global,
    program: &Contracted<'_>,
    source: &[u8],
    report: &Report,
) -> Result<Text, AllocError>
    ensures { IfOk result (λ text. text
        ≡ report_lines source.now (program_tree program.now.checked.named) report.now) }
{
    let lines = SourceLines::new(alloc, source)?;
    let printer = Printer {
        program,
        lines: &lines,
    };
    let mut out = Output::new(alloc);
    printer.report(&mut out, report);
    out.finish(alloc)
}
