//! Lists of lines that are compared one after another.
use crate::words::Line;
use cf_rows::Memory;
use std::alloc::Global;

/// Lines, and how many of them were compared.
#[derive(Drop)]
pub struct Lines {
    lines: Vec<String>,
    next: usize,
}

impl Lines {
    /// No lines.
    pub fn new(alloc: Global) -> Lines {
        Lines {
            lines: Vec::new(alloc),
            next: 0,
        }
    }

    /// Adds a line.
    pub fn push(&mut self, memory: &mut Memory, line: String) {
        memory.note(self.lines.push(line).is_err());
    }

    /// Adds the lines of a text.
    pub fn push_all(&mut self, memory: &mut Memory, text: &str) {
        for line in text.lines() {
            let line = memory.copy(line);
            self.push(memory, line);
        }
    }

    /// The next line, which counts as compared then; `none` behind the last one.
    pub fn take(&mut self) -> &str {
        let at = self.next;
        self.next = at.saturating_add(1);
        match self.lines.get(at) {
            Some(line) => line.as_str(),
            None => "none",
        }
    }

    /// The first line that was not compared, where some line was.
    pub fn left_over(&self) -> Option<&String> {
        if self.next == 0 {
            None
        } else {
            self.lines.get(self.next)
        }
    }

    /// How many lines there are.
    pub fn len(&self) -> usize {
        self.lines.len()
    }

    /// Whether these lines are the first ones of others.
    pub fn begin(&self, whole: &Lines) -> bool {
        whole.lines.as_slice().starts_with(self.lines.as_slice())
    }

    /// Adds the lines to one, with ` | ` between them.
    pub fn join(&self, line: &mut Line) {
        for (at, one) in self.lines.iter().enumerate() {
            if at > 0 {
                line.put(" | ");
            }
            line.put(one.as_str());
        }
    }
}
