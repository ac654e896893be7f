//! What a caller concludes from the promises of the command by the status alone, over its public definitions.
ghost use Rattle.std.specs.Prelude.{◌≡◌, ◌<◌, ◌⊎◌, ℕ, List, length, Some};
ghost use Rattle.abs_tree.specs.Limits.{source_limit};
ghost use Rattle.abs_tree.specs.Syntax.{ProgramTree};
ghost use Rattle.abs_options.specs.CommandLine.{depth_of, facts_of};
ghost use Rattle.abs_command.specs.Analysis.{HasTooMany};
ghost use Rattle.abs_command.specs.Causes.{HasChain, HasNoChain, IsThrough};
ghost use Rattle.abs_command.specs.Promises.{Promises};
ghost use Rattle.abs_command.specs.Views.{SinkView, SourceView};
ghost use Rattle.abs_command.specs.Ways.{IsAccepted};
ghost use Rattle.abs_command.specs.declared.command.Ended.{Ended};
ghost use Rattle.abs_command.specs.declared.command.Status.TheVariants as status;
ghost use Rattle.abs_sound.specs.Waits.{NeverGets};
ghost use Rattle.step_rules.specs.declared.kind.End.TheVariants as ends;

/// With status 1 the pairs of the program have a circular chain, and the call is through. With status 2 the run
/// stalled, and the program has a `get`. With status 10 there is no circular chain. With status 6 the
/// source has too many bytes, or it has a program of which too many facts are derived.
pub fn statuses_tell()
    ensures chains { (words : List (List ℕ)) (source source' : SourceView) (sink sink' : SinkView) (ended : Ended)
        → (promises : Promises words source source' sink sink' ended) → ended.status ≡ status.Chains
        → HasChain words promises.bytes ended × IsThrough words ended }
    ensures stalled { (words : List (List ℕ)) (source source' : SourceView) (sink sink' : SinkView) (ended : Ended)
        → (promises : Promises words source source' sink sink' ended) → ended.status ≡ status.Stalled
        → (ended.end ≡ Some ends.Stalled) × ((program : ProgramTree) → IsAccepted promises.bytes program
        → NeverGets program → ⊥) }
    ensures failed { (words : List (List ℕ)) (source source' : SourceView) (sink sink' : SinkView) (ended : Ended)
        → (promises : Promises words source source' sink sink' ended) → ended.status ≡ status.Failed
        → HasNoChain words promises.bytes ended }
    ensures too_large { (words : List (List ℕ)) (source source' : SourceView) (sink sink' : SinkView) (ended : Ended)
        → (promises : Promises words source source' sink sink' ended) → ended.status ≡ status.TooLarge
        → (source_limit < length promises.bytes)
        ⊎ ((program : ProgramTree) × IsAccepted promises.bytes program
        × HasTooMany program (depth_of words) (facts_of words)) }
{}
