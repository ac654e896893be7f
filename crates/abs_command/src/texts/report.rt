//! The output for a program before it runs: its report, with a heading where the program is a generated one.
ghost use Rattle.std.specs.Prelude.{◌≡◌, ◌++◌, IfOk};
ghost use Rattle.abs_program.specs.NamedViews.{program_tree};
ghost use Rattle.abs_command.specs.Texts.{heading};
ghost use Rattle.abs_command.specs.Words.{made_in};
ghost use Rattle.report_printer.specs.ReportTexts.{report_lines};

use crate::analysis::Analysis;
use abs_options::Wanted;
use abs_tree::Text;
use contract_terms::Contracted;
use report_printer::report_text;
use std::alloc::{AllocError, Global};

/// The output for a program before it runs. `source` is its text, and `input` says where that comes from.
///
/// # Errors
/// [`AllocError`] where memory runs out.
pub fn analysis_text(
    alloc: Global,
    input: &Wanted,
    program: &Contracted<'_>,
    source: &[u8],
    analysis: &Analysis,
) -> Result<Text, AllocError>
    ensures { IfOk result (λ text. text ≡ heading (made_in input.now) analysis.now.facts analysis.now.pairs
        ++ report_lines source.now (program_tree program.now.checked.named) analysis.now.report) }
{
    let report = report_text(alloc, program, source, &analysis.report)?;
    match input {
        Wanted::File(_) => Ok(report),
        Wanted::Make(count) => {
            let heading = format!(in alloc;
                "made: {count} classes\nfacts: {}\npairs: {}\n",
                analysis.facts, analysis.pairs
            )?;
            let mut out = heading.into_bytes();
            out.extend_from_slice(report.as_bytes())?;
            Text::new(alloc, out)
        }
    }
}
