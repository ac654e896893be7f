//! The output for a refusal.
ghost use Rattle.std.specs.Prelude.{◌≡◌, IfOk};
ghost use Rattle.report_printer.specs.RefusalTexts.{refusal_line};

use abs_tree::{Refusal, Text};
use std::alloc::{AllocError, Global};

/// The line of a refusal.
///
/// # Errors
/// [`AllocError`] where memory runs out.
pub fn refusal_text(alloc: Global, refusal: &Refusal) -> Result<Text, AllocError>
    ensures { IfOk result (λ text. text ≡ refusal_line refusal.now) }
{
    let Refusal { code, line, column } = *refusal;
    let words = code.words();
    let text = format!(in alloc; "refused: {code} at {line}:{column}: {words}\n")?;
    Text::new(alloc, text.into_bytes())
}
