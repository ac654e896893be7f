//! Prints a configuration and what was printed so far. Each cog, object, task and printed line has a line of its own.
//! The frames of a task follow it, the innermost one last. In order:
//!
//! - `cog 1: place 98 parent 0 holder 1`
//! - `object 0: class A cog 1 place 98 fields 6, "b"`
//! - `task 1: Running cog 1 object 0 method m call 117`
//! - `frame: object 0 method m next 2 target slot 0 slots 5, null`
//! - `line "x"`
//!
//! A part that is not there is left out. A task that has ended has a `result` or a `fault`, and no frame. A place and
//! a call are the offset of a statement, and `next` is the index of one. Strings are in quotes.
use crate::sink::Sink;
use abs_tree::{Symbol, Symbols, Text};
use abs_values::{Evaluated, Value, Values, value_text};
use config_state::{Cogs, Config, Frame, Lines, Objects, Target, TaskCell, Tasks};
use std::alloc::{AllocError, Global};
use step_rules::Did;

/// The lines of a configuration, and of the strings that were printed.
///
/// # Errors
/// [`AllocError`] if memory runs out.
pub(crate) fn configuration_lines(
    alloc: Global,
    symbols: &Symbols<'_>,
    config: &Config,
    lines: &Lines,
) -> Result<String, AllocError> {
    let mut printer = Printer::new(alloc, symbols);
    printer.configuration(config, lines);
    printer.finish()
}

/// What was printed so far, and what the rest is printed with. Each method prints one part. Where memory runs out, the
/// sink notes it.
#[derive(Drop)]
pub(crate) struct Printer<'s, 'a> {
    alloc: Global,
    symbols: &'s Symbols<'a>,
    sink: Sink,
}

impl<'s, 'a> Printer<'s, 'a> {
    /// A printer that has printed nothing, for the run of a program with these names.
    pub(crate) fn new(alloc: Global, symbols: &'s Symbols<'a>) -> Printer<'s, 'a> {
        Printer {
            alloc,
            symbols,
            sink: Sink::new(alloc),
        }
    }

    /// All that was printed.
    ///
    /// # Errors
    /// [`AllocError`] if memory ran out for a part.
    pub(crate) fn finish(self) -> Result<String, AllocError> {
        self.sink.finish()
    }

    /// A piece as it is.
    pub(crate) fn push(&mut self, piece: &str) {
        self.sink.push(piece);
    }

    /// The line of an event: its index, its task, and what it did.
    pub(crate) fn event(&mut self, index: u64, task: u32, did: Did) {
        self.push("event ");
        self.sink.print(&index);
        self.number("of task", task);
        self.push(": ");
        self.sink.debug(&did);
        self.push("\n");
    }

    /// A task that has an event.
    pub(crate) fn choice(&mut self, task: u32) {
        self.push(" ");
        self.sink.print(&task);
    }

    /// The lines of a configuration, and of the strings that were printed.
    fn configuration(&mut self, config: &Config, lines: &Lines) {
        self.cogs(&config.cogs);
        self.objects(&config.objects);
        self.tasks(&config.tasks);
        for line in lines.items.iter() {
            self.push("  line ");
            self.string(line);
            self.push("\n");
        }
    }

    /// A line for each cog.
    fn cogs(&mut self, cogs: &Cogs) {
        for (index, cog) in cogs.items.iter().enumerate() {
            self.begin("cog", index);
            self.number("place", cog.place);
            self.part("parent", cog.parent);
            self.part("holder", cog.holder);
            self.push("\n");
        }
    }

    /// A line for each object.
    fn objects(&mut self, objects: &Objects) {
        for (index, object) in objects.items.iter().enumerate() {
            self.begin("object", index);
            self.name("class", object.class);
            self.number("cog", object.cog);
            self.number("place", object.place);
            self.values("fields", &object.fields);
            self.push("\n");
        }
    }

    /// The lines of each task.
    fn tasks(&mut self, tasks: &Tasks) {
        for (index, task) in tasks.items.iter().enumerate() {
            self.begin("task", index);
            self.task(task);
            for frame in task.frames.items.iter() {
                self.frame(frame);
            }
        }
    }

    /// The rest of the line of a task.
    fn task(&mut self, task: &TaskCell) {
        self.push(" ");
        self.sink.debug(&task.state);
        self.number("cog", task.cog);
        self.part("object", task.object);
        self.method(task.method);
        self.part("call", task.call);
        self.outcome(&task.outcome);
        self.push("\n");
    }

    /// The line of a frame.
    fn frame(&mut self, frame: &Frame) {
        self.push("    frame:");
        self.part("object", frame.object);
        self.method(frame.method);
        self.part("next", frame.next);
        match frame.target {
            Target::Nothing => {}
            Target::Local(slot) => self.number("target slot", slot),
            Target::Field(field) => self.number("target field", field),
        }
        self.values("slots", &frame.slots);
        self.push("\n");
    }

    /// The result of a task, if it has ended.
    fn outcome(&mut self, outcome: &Option<Evaluated>) {
        match outcome {
            Some(Evaluated::Good(value)) => {
                self.push(" result ");
                self.value(value);
            }
            Some(Evaluated::Bad(fault)) => {
                self.push(" fault ");
                self.sink.print(fault);
            }
            None => {}
        }
    }

    /// What a line begins with: what it is of, and the index of that.
    fn begin(&mut self, word: &str, index: usize) {
        self.push("  ");
        self.push(word);
        self.push(" ");
        self.sink.print(&index);
        self.push(":");
    }

    /// A word and a number, each after a space.
    fn number(&mut self, word: &str, number: u32) {
        self.push(" ");
        self.push(word);
        self.push(" ");
        self.sink.print(&number);
    }

    /// A word and an index, if there is one.
    fn part(&mut self, word: &str, index: Option<u32>) {
        if let Some(index) = index {
            self.number(word, index);
        }
    }

    /// The name of a method, if there is one.
    fn method(&mut self, method: Option<Symbol>) {
        if let Some(method) = method {
            self.name("method", method);
        }
    }

    /// A word and a name, each after a space.
    fn name(&mut self, word: &str, symbol: Symbol) {
        self.push(" ");
        self.push(word);
        self.push(" ");
        self.sink.bytes(self.symbols.name(symbol));
    }

    /// A word and some values, if there are any.
    fn values(&mut self, word: &str, values: &Values) {
        for (index, value) in values.as_slice().iter().enumerate() {
            if index == 0 {
                self.push(" ");
                self.push(word);
                self.push(" ");
            } else {
                self.push(", ");
            }
            self.value(value);
        }
    }

    /// A value.
    fn value(&mut self, value: &Value) {
        if let Value::Text(string) = value {
            return self.string(string);
        }
        match value_text(self.alloc, self.symbols, value) {
            Ok(form) => self.sink.bytes(form.as_bytes()),
            Err(_) => self.sink.fail(),
        }
    }

    /// A string in quotes, with its escapes.
    fn string(&mut self, string: &Text) {
        let string = str::from_utf8(string.as_bytes()).unwrap_or("?");
        self.sink.debug(&string);
    }
}
