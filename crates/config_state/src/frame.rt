//! Frames: the bodies that a task executes.
ghost use Rattle.std.specs.Prelude.{◌≡◌, ◌<◌, ◌==◌, length, slice_get, Some};

use abs_tree::Symbol;
use abs_values::Values;
use std::marker::Model;

/// Where a value goes in a frame.
#[derive(Clone, Copy, Debug, PartialEq, Eq)]
pub enum Target {
    /// Nowhere.
    Nothing,
    /// To the slot with an index.
    Local(u32),
    /// To the field with an index, of the frame's object.
    Field(u32),
}

/// A body that a task executes: that of a method, or of the main block.
#[derive(Drop)]
pub struct Frame {
    /// The method; none for the main block.
    pub method: Option<Symbol>,
    /// The object that `this` is; none for the main block.
    pub object: Option<u32>,
    /// The values of its parameters and locals, by their slots.
    pub slots: Values,
    /// The index of the next statement, or `None` if no statement is left.
    pub next: Option<u32>,
    /// Where its result goes in the frame below.
    pub target: Target,
}

/// The frames of a task, of which the innermost is the last. Contracts see their list.
#[derive(Drop)]
pub struct Frames {
    pub items: Vec<Frame>,
}

impl Model for Frames {
    ghost use Rattle.std.specs.Coded.{coded_list};
    ghost use Rattle.std.specs.Prelude.{List};
    ghost use Rattle.config_state.specs.Codes.{frame_code};
    ghost use Rattle.config_state.specs.declared.frame.Frame.{Frame};

    ghost Value = { List Frame };

    ghost coded = { coded_list frame_code };

    ghost view = { λ f. f.items.items };
}

impl Frames {
    /// The number of frames.
    pub fn len(&self) -> usize
        ensures { result ≡ length self.now }
    {
        self.items.len()
    }

    /// Whether there is no frame.
    pub fn is_empty(&self) -> bool
        ensures { result ≡ (length self.now == 0) }
    {
        self.items.is_empty()
    }

    /// The frame with an index. Index 0 is that of the outermost one.
    pub fn at(&self, index: usize) -> &Frame
        requires { index < length self.now }
        ensures { slice_get self.now index ≡ Some result.now }
    {
        &self.items[index]
    }
}
