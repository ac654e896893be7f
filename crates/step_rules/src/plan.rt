//! What an event is going to change. A plan is made from the configuration as it is, and then put in place.
ghost use Rattle.std.specs.Prelude.{◌≡◌, List, None, Some};
ghost use Rattle.abs_values.specs.Results.{Fails};
ghost use Rattle.abs_tree.specs.Syntax.{Name};
ghost use Rattle.config_state.specs.Configurations.{Configuration};
ghost use Rattle.step_rules.specs.Changes.{ended_change};
ghost use Rattle.step_rules.specs.Lookups.{Runner};
ghost use Rattle.step_rules.specs.Plans.{planned};

use crate::Did;
use abs_tree::Text;
use abs_values::{Evaluated, Fault, Value};
use config_state::{Cog, Frame, ObjectCell, Target, TaskCell};

/// What becomes of the task that moves.
#[derive(Drop)]
pub(crate) enum Turn {
    /// It takes its cog.
    Takes,
    /// A value goes to a target of its innermost frame, which goes on with a statement.
    GoesOn {
        target: Target,
        value: Value,
        next: Option<u32>,
    },
    /// A frame is pushed. The one below it goes on with a statement, later.
    Enters {
        frame: Frame,
        next: Option<u32>,
    },
    /// Its innermost frame is popped, and this value goes to the target of that in the frame below.
    Leaves(Value),
    /// It releases its cog, and waits for the futures of its next statement.
    Waits,
    /// It releases its cog, and goes on with a statement, later.
    Yields(Option<u32>),
    /// It ends with this result.
    Ends(Evaluated),
}

/// All that an event is going to change.
#[derive(Drop)]
pub(crate) struct Plan {
    pub turn: Turn,
    /// The cog, the object and the task that are made.
    pub cog: Option<Cog>,
    pub object: Option<ObjectCell>,
    pub task: Option<TaskCell>,
    /// The line that is printed.
    pub line: Option<Text>,
    pub did: Did,
}

impl Plan {
    /// A plan that makes and prints nothing.
    pub fn of(turn: Turn, did: Did) -> Plan
        ensures { result ≡ record { turn = turn; cog = None; object = None; task = None; line = None; did = did } }
    {
        Plan {
            turn,
            cog: None,
            object: None,
            task: None,
            line: None,
            did,
        }
    }

    /// The task ends with a fault.
    pub fn fault(fault: Fault) -> Plan
        ensures { (names : List Name) (config : Configuration) (at : Runner) → planned names config at result
            ≡ Some (ended_change at.task (Fails fault)) }
    {
        Plan::of(Turn::Ends(Evaluated::Bad(fault)), Did::Finished)
    }
}
