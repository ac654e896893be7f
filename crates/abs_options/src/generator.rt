//! The text of a generated program.
ghost use Rattle.std.specs.Prelude.{◌≡◌, ◌<◌, ◌++◌, suc, IfOk, OnOk, string_bytes};
ghost use Rattle.abs_options.specs.Generated.{class_line, class_lines, made_text, stage_line, stage_lines};

use abs_tree::Text;
use std::alloc::{AllocError, Global};

/// Bytes that a class and the line that makes its stage take at most, where its number has four digits.
const CLASS_ROOM: usize = 200;

/// Bytes that the other lines take at most.
const FRAME_ROOM: usize = 140;

/// The text of the generated program with this many classes. There is to be one at least, or main calls a stage that is
/// not there.
///
/// # Errors
/// [`AllocError`] where memory runs out.
#[tactic(auto, unfolding(crate::specs::Generated::made_text))]
pub fn made(alloc: Global, count: u32) -> Result<Text, AllocError>
    ensures { IfOk result (λ text. text ≡ made_text count) }
{
    let mut text = String::with_capacity(alloc, FRAME_ROOM + CLASS_ROOM * count as usize)?;
    write!(text, "interface Stage {{ Int go(Int x); }}\n")?;
    push_classes(&mut text, count)?;
    write!(text, "{{\n")?;
    push_stages(&mut text, count)?;
    write!(
        text,
        "  Fut<Int> f = s{count}!go(0);\n  await f?;\n  Int x = f.get;\n  println(toString(x));\n}}\n"
    )?;
    Text::new(alloc, text.into_bytes())
}

/// Appends the classes.
fn push_classes(text: &mut String, count: u32) -> Result<(), AllocError>
    ensures { OnOk result (string_bytes text.new ≡ string_bytes text.old ++ class_lines count) }
{
    for before in 0..count {
        push_class(text, before)?;
    }
    Ok(())
}

/// Appends the class that follows `before` others.
fn push_class(text: &mut String, before: u32) -> Result<(), AllocError>
    requires room { before < 4294967295 }
    ensures { OnOk result (string_bytes text.new ≡ string_bytes text.old ++ class_line (suc before)) }
{
    let number = before + 1;
    write!(
        text,
        "class C{number}(Stage next) implements Stage {{ Int go(Int x) {{ Int r = x + 1; if (next != null) {{ \
        Fut<Int> f = next!go(r); await f?; r = f.get; }} return r; }} }}\n"
    )
}

/// Appends the lines of main that make the stages.
fn push_stages(text: &mut String, count: u32) -> Result<(), AllocError>
    ensures { OnOk result (string_bytes text.new ≡ string_bytes text.old ++ stage_lines count) }
{
    for before in 0..count {
        push_stage(text, before)?;
    }
    Ok(())
}

/// Appends the line that makes the stage after `before` others.
fn push_stage(text: &mut String, before: u32) -> Result<(), AllocError>
    requires room { before < 4294967295 }
    ensures { OnOk result (string_bytes text.new ≡ string_bytes text.old ++ stage_line before) }
{
    let number = before + 1;
    match before {
        0 => write!(text, "  Stage s{number} = new cog C{number}(null);\n"),
        _ => write!(text, "  Stage s{number} = new cog C{number}(s{before});\n"),
    }
}
