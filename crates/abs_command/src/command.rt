//! The command: from its words and a source to what is written and to a status.
ghost use Rattle.std.specs.Prelude.{◌≡◌, ◌≢◌, ◌≤◌, Option, ℕ, List, [], None, Some, length, IfOk, OnOk, OnErr, IsErrOf};
ghost use Rattle.std.specs.Io.KnownBytes.{Appends};
ghost use Rattle.abs_options.specs.CommandLine.{AreCommandWords, AreInRange, file_of, made_of, spelled};
ghost use Rattle.abs_outside.specs.Counts.{Rose};
ghost use Rattle.abs_program.specs.NamedViews.{program_tree};
ghost use Rattle.abs_tree.specs.Limits.{source_limit};
ghost use Rattle.abs_tree.specs.Syntax.{Name};
ghost use Rattle.config_state.specs.ConfigViews.{configuration};
ghost use Rattle.abs_command.specs.Promises.{Promises, Answer, IsSame, WrittenBefore};
ghost use Rattle.abs_command.specs.Views.{SourceView, source_view, sink_view};
ghost use Rattle.abs_command.specs.Ways.{CameTo, IsAccepted};
ghost use Rattle.abs_command.specs.Sources.{IsProgramOf, FirstOffence};
ghost use Rattle.abs_command.specs.Machine.{IsAnalysis};
ghost use Rattle.abs_command.specs.Statuses.{has_chain, status_of as status_for, status_of_report, main_failed as main_failed_in, WasRead};
ghost use Rattle.abs_command.specs.Taking.{Delivers, TookWhole, TookSome, SourceFailed};
ghost use Rattle.abs_command.specs.Words.{AskFor, Names};

use crate::analysis::{Analysis, analyse, findings_are_exact};
use crate::edge::read::{ReadError, read_rest};
use crate::edge::write::write_all;
use crate::run::{Ran, run};
use crate::source::program_of;
use crate::texts::outcome::outcome_text;
use crate::texts::report::analysis_text;
use abs_options::{Options, OptionsError, Wanted, made, options};
use abs_outside::{Sink, Source};
use abs_tree::limits::SOURCE_LIMIT;
use abs_tree::{Refusal, SourceError};
use abs_values::Evaluated;
use circularity_test::Report;
use config_state::Config;
use contract_terms::Contracted;
use report_printer::refusal_text;
use run_history::History;
use saturation::SaturateError;
use std::alloc::{AllocError, Global};
use step_rules::End;

/// How a call of the command ended. Its number is the exit status of the process.
#[derive(Clone, Copy, Debug, PartialEq, Eq)]
pub enum Status {
    /// 0: there is no circular chain; and the words ask for the analysis alone, or each task has a result, that of the
    /// main block without a fault.
    Clean,
    /// 1: there is a circular chain; and the words ask for the analysis alone, or each task has a result.
    Chains,
    /// 2: the run stalled.
    Stalled,
    /// 3: the run had as many events as the words permit, and a task is unfinished.
    Spent,
    /// 4: the source has an offence.
    Refused,
    /// 5: the words are not of the command.
    Usage,
    /// 6: the source has too many bytes, or more facts are derived of its program than the words permit.
    TooLarge,
    /// 7: the source failed, or does not have the file.
    ReadFault,
    /// 8: the sink failed.
    WriteFault,
    /// 9: memory ran out.
    Memory,
    /// 10: there is no circular chain, and each task has a result, that of the main block a fault.
    Failed,
}

/// What a call of the command came to.
#[derive(Drop)]
pub struct Ended {
    pub status: Status,
    /// The first offence of a refused source.
    pub refusal: Option<Refusal>,
    /// How many facts are derived of the program.
    pub facts: u64,
    /// How many pairs of dependencies there are.
    pub pairs: u64,
    /// The circular chains that are listed.
    pub report: Report,
    /// The task of each event of the run.
    pub history: History,
    /// How the run ended, where there was one.
    pub end: Option<End>,
}

impl Ended {
    ghost use Rattle.abs_command.specs.Ways.{HoldsOnly};

    /// A call that came to this status before any analysis.
    fn before_analysis(alloc: Global, status: Status, refusal: Option<Refusal>) -> Ended
        ensures status { result.status ≡ status }
        ensures fields { HoldsOnly result refusal }
    {
        Ended {
            status,
            refusal,
            facts: 0,
            pairs: 0,
            report: Report::new(alloc),
            history: History::new(alloc, 0).unwrap(),
            end: None,
        }
    }

    /// A call that came to this status, and whose program was analysed and not run.
    fn analysed(alloc: Global, status: Status, analysis: Analysis) -> Ended
        ensures status { result.status ≡ status }
        ensures refusal { result.refusal ≡ None }
        ensures facts { result.facts ≡ analysis.facts }
        ensures pairs { result.pairs ≡ analysis.pairs }
        ensures report { result.report ≡ analysis.report }
        ensures history { result.history.tasks ≡ [] }
        ensures end { result.end ≡ None }
    {
        Ended {
            status,
            refusal: None,
            facts: analysis.facts,
            pairs: analysis.pairs,
            report: analysis.report,
            history: History::new(alloc, 0).unwrap(),
            end: None,
        }
    }

    /// A call whose program was analysed and run.
    fn ran(analysis: Analysis, ran: Ran) -> Ended
        ensures status { (names : List Name)
            → result.status ≡ status_for analysis.report ran.end (configuration names ran.config) }
        ensures refusal { result.refusal ≡ None }
        ensures facts { result.facts ≡ analysis.facts }
        ensures pairs { result.pairs ≡ analysis.pairs }
        ensures report { result.report ≡ analysis.report }
        ensures history { result.history ≡ ran.history }
        ensures end { result.end ≡ Some ran.end }
    {
        Ended {
            status: status_of(&analysis.report, ran.end, &ran.config),
            refusal: None,
            facts: analysis.facts,
            pairs: analysis.pairs,
            report: analysis.report,
            history: ran.history,
            end: Some(ran.end),
        }
    }
}

/// The line for words that are not of the command.
const USAGE: &str =
    "usage: abs [--check] [--trace] [--workers N] [--depth N] [--steps N] [--facts N] (FILE | --make N)\n";

/// The line for a source that is too large.
const TOO_LARGE: &str = "too large: source\n";

/// The line for a program of which too many facts are derived.
const TOO_MANY: &str = "too large: facts\n";

/// Two calls with the same words and the same bytes come to the same, where each wrote its whole output and neither
/// gave up: what they write, and what they hand back.
pub fn calls_agree()
    ensures { (words : List (List ℕ)) (bytes : List ℕ) (source source' : SourceView) (ended : Ended)
        (output : List ℕ) (other other' : SourceView) (ended' : Ended) (output' : List ℕ)
        → CameTo words bytes source source' ended (Some ended.status) output
        → CameTo words bytes other other' ended' (Some ended'.status) output'
        → WasRead ended.status → WasRead ended'.status → IsSame ended output ended' output' }
{
    findings_are_exact();
}

/// Does what the words ask for: takes a program from the source or makes one, analyses it, runs it unless the words ask
/// for the analysis alone, and writes what came of it to the sink. The first word is the program's name.
pub fn abs_run<S: Source, K: Sink>(
    alloc: Global,
    words: &Vec<String>,
    source: &mut S,
    sink: &mut K,
) -> Ended
    ensures promises { Promises (spelled words.now)
        (source_view (S.under source.old) (S.left source.old) (S.missing source.old) (S.faults source.old))
        (source_view (S.under source.new) (S.left source.new) (S.missing source.new) (S.faults source.new))
        (sink_view (K.written sink.old) (K.faults sink.old))
        (sink_view (K.written sink.new) (K.faults sink.new)) result }
    ensures untouched { ((file : List ℕ) → Names (spelled words.now) file → ⊥) → source.new ≡ source.old }
{
    match respond(alloc, words, source, sink) {
        Ok(ended) => ended,
        Err(AllocError) => Ended::before_analysis(alloc, Status::Memory, None),
    }
}

/// Does what [`abs_run`] does, but gives an error where memory runs out, on whatever way.
fn respond<S: Source, K: Sink>(
    alloc: Global,
    words: &Vec<String>,
    source: &mut S,
    sink: &mut K,
) -> Result<Ended, AllocError>
    ensures promises { IfOk result (Promises (spelled words.now)
        (source_view (S.under source.old) (S.left source.old) (S.missing source.old) (S.faults source.old))
        (source_view (S.under source.new) (S.left source.new) (S.missing source.new) (S.faults source.new))
        (sink_view (K.written sink.old) (K.faults sink.old))
        (sink_view (K.written sink.new) (K.faults sink.new))) }
    ensures exhausted { OnErr result ((ended : Ended) → ended.status ≡ Status.Memory → Promises (spelled words.now)
        (source_view (S.under source.old) (S.left source.old) (S.missing source.old) (S.faults source.old))
        (source_view (S.under source.new) (S.left source.new) (S.missing source.new) (S.faults source.new))
        (sink_view (K.written sink.old) (K.faults sink.old))
        (sink_view (K.written sink.new) (K.faults sink.new)) ended) }
    ensures untouched { ((file : List ℕ) → Names (spelled words.now) file → ⊥) → source.new ≡ source.old }
{
    let options = match options(alloc, words) {
        Ok(options) => options,
        Err(OptionsError::Usage) => {
            let ended = Ended::before_analysis(alloc, Status::Usage, None);
            return Ok(deliver(sink, USAGE.as_bytes(), ended));
        }
        Err(OptionsError::Memory) => return Err(AllocError),
    };
    match &options.input {
        Wanted::File(file) => answer_file(alloc, &options, file.as_str(), source, sink),
        Wanted::Make(count) => answer_made(alloc, &options, *count, sink),
    }
}

/// Answers for the file that the words name.
fn answer_file<S: Source, K: Sink>(
    alloc: Global,
    options: &Options,
    file: &str,
    source: &mut S,
    sink: &mut K,
) -> Result<Ended, AllocError>
    requires in_range { AreInRange options.now }
    ensures promises { IfOk result (λ ended. (words : List (List ℕ)) → AskFor words options.now
        → file_of words ≡ Some file.now → Promises words
        (source_view (S.under source.old) (S.left source.old) (S.missing source.old) (S.faults source.old))
        (source_view (S.under source.new) (S.left source.new) (S.missing source.new) (S.faults source.new))
        (sink_view (K.written sink.old) (K.faults sink.old))
        (sink_view (K.written sink.new) (K.faults sink.new)) ended) }
    ensures exhausted { OnErr result ((words : List (List ℕ)) → AskFor words options.now
        → file_of words ≡ Some file.now → (ended : Ended) → ended.status ≡ Status.Memory → Promises words
        (source_view (S.under source.old) (S.left source.old) (S.missing source.old) (S.faults source.old))
        (source_view (S.under source.new) (S.left source.new) (S.missing source.new) (S.faults source.new))
        (sink_view (K.written sink.old) (K.faults sink.old))
        (sink_view (K.written sink.new) (K.faults sink.new)) ended) }
{
    match take(alloc, source, file) {
        Ok(bytes) => answer(alloc, options, bytes.as_slice(), sink),
        Err(ReadError::Failed) => Ok(Ended::before_analysis(alloc, Status::ReadFault, None)),
        Err(ReadError::Memory) => Err(AllocError),
    }
}

/// Answers for the generated program of this many classes. The source is not called.
fn answer_made<K: Sink>(
    alloc: Global,
    options: &Options,
    count: u32,
    sink: &mut K,
) -> Result<Ended, AllocError>
    requires in_range { AreInRange options.now }
    ensures promises { IfOk result (λ ended. (words : List (List ℕ)) (source : SourceView) → AskFor words options.now
        → made_of words ≡ Some count → Promises words source source
        (sink_view (K.written sink.old) (K.faults sink.old))
        (sink_view (K.written sink.new) (K.faults sink.new)) ended) }
    ensures exhausted { OnErr result ((words : List (List ℕ)) (source : SourceView) → AskFor words options.now
        → made_of words ≡ Some count → (ended : Ended) → ended.status ≡ Status.Memory → Promises words source source
        (sink_view (K.written sink.old) (K.faults sink.old))
        (sink_view (K.written sink.new) (K.faults sink.new)) ended) }
{
    let text = made(alloc, count)?;
    answer(alloc, options, text.as_bytes(), sink)
}

/// The bytes under a name; of too many, as many as show that.
fn take<S: Source>(alloc: Global, source: &mut S, file: &str) -> Result<Vec<u8>, ReadError>
    ensures took { IfOk result (λ bytes. TookWhole (S.under source.old file.now) (S.left source.new) bytes.items) }
    ensures missing { OnOk result (S.missing source.new ≡ S.missing source.old) }
    ensures failed { IsErrOf result ReadError.Failed
        → SourceFailed (S.under source.old file.now) (S.missing source.old) (S.missing source.new)
        (S.faults source.old) (S.faults source.new) }
    ensures some { OnErr result (TookSome (S.under source.old file.now) (S.left source.old) (S.left source.new)) }
    ensures same_names { (name : List ℕ) → S.under source.new name ≡ S.under source.old name }
{
    if source.select(file).is_err() {
        return Err(ReadError::Failed);
    }
    read_rest(alloc, source)
}

/// Answers for these bytes.
fn answer<K: Sink>(
    alloc: Global,
    options: &Options,
    bytes: &[u8],
    sink: &mut K,
) -> Result<Ended, AllocError>
    requires in_range { AreInRange options.now }
    ensures answered { IfOk result (λ ended. (words : List (List ℕ)) (source source' : SourceView)
        → AskFor words options.now → Answer words bytes.now source source'
        (sink_view (K.written sink.old) (K.faults sink.old))
        (sink_view (K.written sink.new) (K.faults sink.new)) ended) }
    ensures exhausted { OnErr result ((words : List (List ℕ)) → AskFor words options.now
        → WrittenBefore words bytes.now (K.written sink.old) (K.written sink.new)) }
{
    if bytes.len() > SOURCE_LIMIT {
        let ended = Ended::before_analysis(alloc, Status::TooLarge, None);
        return Ok(deliver(sink, TOO_LARGE.as_bytes(), ended));
    }
    match program_of(alloc, bytes) {
        Ok(program) => answer_program(alloc, options, &program, bytes, sink),
        Err(SourceError::Refused(refusal)) => refuse(alloc, refusal, sink),
        Err(SourceError::Memory) => Err(AllocError),
    }
}

/// Answers with a refusal.
fn refuse<K: Sink>(alloc: Global, refusal: Refusal, sink: &mut K) -> Result<Ended, AllocError>
    ensures answered { IfOk result (λ ended. (words : List (List ℕ)) (bytes : List ℕ) (source source' : SourceView)
        → AreCommandWords words
        → length bytes ≤ source_limit → FirstOffence bytes refusal → Answer words bytes source source'
        (sink_view (K.written sink.old) (K.faults sink.old))
        (sink_view (K.written sink.new) (K.faults sink.new)) ended) }
    ensures unwritten { OnErr result (Appends (K.written sink.old) (K.written sink.new) []) }
{
    let text = refusal_text(alloc, &refusal)?;
    let ended = Ended::before_analysis(alloc, Status::Refused, Some(refusal));
    Ok(deliver(sink, text.as_bytes(), ended))
}

/// Answers for the program of a text: analyses it first.
fn answer_program<K: Sink>(
    alloc: Global,
    options: &Options,
    program: &Contracted<'_>,
    source: &[u8],
    sink: &mut K,
) -> Result<Ended, AllocError>
    requires in_range { AreInRange options.now }
    ensures answered { IfOk result (λ ended. (words : List (List ℕ)) (before after : SourceView)
        → AskFor words options.now
        → IsAccepted source.now (program_tree program.now.checked.named) → Answer words source.now before after
        (sink_view (K.written sink.old) (K.faults sink.old))
        (sink_view (K.written sink.new) (K.faults sink.new)) ended) }
    ensures exhausted { OnErr result ((words : List (List ℕ)) → AskFor words options.now
        → IsAccepted source.now (program_tree program.now.checked.named)
        → WrittenBefore words source.now (K.written sink.old) (K.written sink.new)) }
{
    match analyse(alloc, program, options.depth, options.facts) {
        Ok(analysis) => answer_analysed(alloc, options, program, source, analysis, sink),
        Err(SaturateError::TooMany) => {
            let ended = Ended::before_analysis(alloc, Status::TooLarge, None);
            Ok(deliver(sink, TOO_MANY.as_bytes(), ended))
        }
        Err(SaturateError::Memory) => Err(AllocError),
    }
}

/// Writes the report of a program, and if the words do not ask for that alone, runs it and writes what came of that.
fn answer_analysed<K: Sink>(
    alloc: Global,
    options: &Options,
    program: &Contracted<'_>,
    source: &[u8],
    analysis: Analysis,
    sink: &mut K,
) -> Result<Ended, AllocError>
    ensures answered { IfOk result (λ ended. (words : List (List ℕ)) (before after : SourceView)
        → AskFor words options.now
        → IsAnalysis source.now (program_tree program.now.checked.named) options.now.depth options.now.facts analysis
        → Answer words source.now before after
        (sink_view (K.written sink.old) (K.faults sink.old))
        (sink_view (K.written sink.new) (K.faults sink.new)) ended) }
    ensures exhausted { OnErr result ((words : List (List ℕ)) → AskFor words options.now
        → IsAnalysis source.now (program_tree program.now.checked.named) options.now.depth options.now.facts analysis
        → WrittenBefore words source.now (K.written sink.old) (K.written sink.new)) }
{
    findings_are_exact();
    let text = analysis_text(alloc, &options.input, program, source, &analysis)?;
    if options.check {
        let status = status_of_analysis(&analysis.report);
        return Ok(deliver(
            sink,
            text.as_bytes(),
            Ended::analysed(alloc, status, analysis),
        ));
    }
    let Ok(()) = write_all(sink, text.as_bytes()) else {
        return Ok(Ended::analysed(alloc, Status::WriteFault, analysis));
    };
    let ran = run(alloc, program.checked().named(), options.steps)?;
    let text = outcome_text(alloc, &ran, options.trace)?;
    Ok(deliver(sink, text.as_bytes(), Ended::ran(analysis, ran)))
}

/// The status of an analysis alone, with this report.
fn status_of_analysis(report: &Report) -> Status
    ensures { result ≡ status_of_report report.now }
{
    if lists_chain(report) {
        Status::Chains
    } else {
        Status::Clean
    }
}

/// The status of a run that ended so, of a program with this report.
fn status_of(report: &Report, end: End, config: &Config) -> Status
    ensures { (names : List Name) → result ≡ status_for report.now end (configuration names config.now) }
{
    match end {
        End::Done if lists_chain(report) => Status::Chains,
        End::Done if main_failed(config) => Status::Failed,
        End::Done => Status::Clean,
        End::Stalled => Status::Stalled,
        End::Spent => Status::Spent,
    }
}

/// Whether a report lists a circular chain.
fn lists_chain(report: &Report) -> bool
    ensures { result ≡ has_chain report.now }
{
    !report.is_empty()
}

/// Whether the main block's task ended by a fault.
fn main_failed(config: &Config) -> bool
    ensures { (names : List Name) → result ≡ main_failed_in (configuration names config.now) }
{
    match config.tasks.items.first() {
        Some(task) => matches!(task.outcome, Some(Evaluated::Bad(_))),
        None => false,
    }
}

/// Writes the output, and hands back what the call came to; with a fault of the sink, as that.
fn deliver<K: Sink>(sink: &mut K, output: &[u8], mut ended: Ended) -> Ended
    ensures delivered { Delivers output.now ended (K.written sink.old) (K.written sink.new) (K.faults sink.old)
        (K.faults sink.new) result }
    ensures never_falls { K.faults sink.old ≤ K.faults sink.new }
{
    if write_all(sink, output).is_err() {
        ended.status = Status::WriteFault;
    }
    ended
}
