//! The parts of which a report is made.
ghost use Rattle.std.specs.Prelude.{◌≡◌};
ghost use Rattle.abs_program.specs.NamedViews.{program_tree};
ghost use Rattle.abs_tree.specs.Names.{name_of};
ghost use Rattle.contract_terms.specs.Made.{classes_made};
ghost use Rattle.report_printer.specs.Output.{Writes};
ghost use Rattle.report_printer.specs.ReportTexts.{place_text, first_name, cog_text, method_text, kind_text, mode_word, link_words, wait_text, pair_lines, chain_lines, numbered_lines, report_lines, steps_lines};

use crate::output::Output;
use crate::source_lines::SourceLines;
use abs_tree::Symbol;
use circularity_test::{Report, linked};
use contract_terms::{Contracted, Mode, Pair};
use name_bounding::{Kind, Sign};

/// What a report is printed from: a program, and the lines of its source. Each method writes one part.
#[derive(Drop)]
pub(crate) struct Printer<'p, 'a> {
    pub(crate) program: &'p Contracted<'a>,
    pub(crate) lines: &'p SourceLines<'p>,
}

impl Printer<'_, '_> {
    /// The lines of a report.
    pub(crate) fn report(&self, out: &mut Output, report: &Report)
        ensures { Writes out.old (report_lines self.now.lines.now.source.now
            (program_tree self.now.program.now.checked.named) report.now) out.new }
    {
        if report.is_empty() {
            out.push(b"no circular chain\n");
        } else {
            out.push(b"circular chains: ");
            out.number(report.len());
            out.push(b"\n");
            self.chains(out, report);
        }
    }

    /// The lines of the chains of a report.
    fn chains(&self, out: &mut Output, report: &Report)
        ensures { Writes out.old (numbered_lines self.now.lines.now.source.now
            (program_tree self.now.program.now.checked.named) 1 report.now) out.new }
    {
        for index in 0..report.len() {
            self.chain(out, index + 1, report.at(index));
        }
    }

    /// The lines of a chain with a number.
    fn chain(&self, out: &mut Output, number: usize, chain: &[Pair])
        ensures { Writes out.old (chain_lines self.now.lines.now.source.now
            (program_tree self.now.program.now.checked.named) number chain.now) out.new }
    {
        out.push(b"chain ");
        out.number(number);
        out.push(b": ");
        out.number(chain.len());
        out.push(b" pairs\n");
        self.steps(out, chain);
    }

    /// The lines of the pairs of a chain.
    fn steps(&self, out: &mut Output, chain: &[Pair])
        ensures { Writes out.old (steps_lines self.now.lines.now.source.now
            (program_tree self.now.program.now.checked.named) chain.now) out.new }
    {
        let Some((first, others)) = chain.split_first() else {
            return;
        };
        let mut pair = first;
        for next in others {
            self.pair(out, pair, next);
            pair = next;
        }
        self.pair(out, pair, first);
    }

    /// The lines of a pair, which another one follows.
    fn pair(&self, out: &mut Output, pair: &Pair, next: &Pair)
        ensures { Writes out.old (pair_lines self.now.lines.now.source.now
            (program_tree self.now.program.now.checked.named) pair.now next.now) out.new }
    {
        out.push(b"  ");
        self.wait(out, pair);
        out.push(b" (");
        out.push(self.link(pair, next));
        out.push(b")\n    | ");
        out.push(self.lines.quoted(pair.place));
        out.push(b"\n");
    }

    /// What waits for what.
    fn wait(&self, out: &mut Output, pair: &Pair)
        ensures { Writes out.old (wait_text self.now.lines.now.source.now
            (program_tree self.now.program.now.checked.named) pair.now) out.new }
    {
        out.push(mode(pair.mode));
        out.push(b" at ");
        self.place(out, pair.place);
        out.push(b": ");
        self.kind(out, &pair.source);
        out.push(b" waits for ");
        self.kind(out, &pair.target);
        out.push(b", called at ");
        self.place(out, pair.call);
    }

    /// A kind of tasks.
    fn kind(&self, out: &mut Output, kind: &Kind)
        ensures { Writes out.old (kind_text self.now.lines.now.source.now
            (program_tree self.now.program.now.checked.named) kind.now) out.new }
    {
        match kind {
            Kind::Main => out.push(b"main"),
            Kind::Method(sign, method) => self.method(out, sign, *method),
        }
    }

    /// A kind of tasks of a method.
    fn method(&self, out: &mut Output, sign: &Sign, method: Symbol)
        ensures { Writes out.old (method_text self.now.lines.now.source.now
            (program_tree self.now.program.now.checked.named) sign.now method) out.new }
    {
        out.push(self.class(sign.place));
        out.push(b".");
        out.push(self.name(method));
        out.push(b" of ");
        self.place(out, sign.place);
        out.push(b" in [");
        self.cog(out, sign.cog.places());
        out.push(b"]");
    }

    /// The places of the name of a cog.
    fn cog(&self, out: &mut Output, places: &[u32])
        ensures { Writes out.old (cog_text self.now.lines.now.source.now places.now) out.new }
    {
        let Some((first, others)) = places.split_first() else {
            return;
        };
        self.place(out, *first);
        for place in others {
            out.push(b" ");
            self.place(out, *place);
        }
    }

    /// A place, by the number of bytes before it.
    fn place(&self, out: &mut Output, offset: u32)
        ensures { Writes out.old (place_text self.now.lines.now.source.now offset) out.new }
    {
        let place = self.lines.place(offset);
        out.number(place.line);
        out.push(b":");
        out.number(place.column);
    }

    /// The words for the link from one pair to another.
    fn link(&self, pair: &Pair, next: &Pair) -> &'static [u8]
        ensures { result.now ≡ link_words pair.now next.now }
    {
        if linked(self.program, pair, next).held {
            b"cog held"
        } else {
            b"goes on"
        }
    }

    /// The name of the first class that is made at a place; no bytes if none is.
    fn class(&self, place: u32) -> &[u8]
        ensures { result.now ≡ first_name (classes_made
            (program_tree self.now.program.now.checked.named).source place) }
    {
        match self.program.terms().classes_made(place).first() {
            Some(class) => self.name(*class),
            None => &[],
        }
    }

    /// A name of the program.
    fn name(&self, symbol: Symbol) -> &[u8]
        ensures { result.now ≡ name_of (program_tree self.now.program.now.checked.named).names symbol }
    {
        self.program.checked().named().symbols.name(symbol)
    }
}

/// The word for how a statement waits.
fn mode(mode: Mode) -> &'static [u8]
    ensures { result.now ≡ mode_word mode }
{
    match mode {
        Mode::Get => b"get",
        Mode::Await => b"await",
    }
}
