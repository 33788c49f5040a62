//! The tree of a job's tasks, in the language DOT.

use crate::tree::{Tree, parent_of};
use reference::{EndedTask, FinishedTask};
use std::fmt;

/// Numbers, each behind a slash.
#[derive(Clone, Copy)]
struct SlashedNumbers<'a>(&'a [u64]);

impl<'a> fmt::Display for SlashedNumbers<'a> {
    ghost use Rattle.std.specs.Prelude.{Some};
    ghost use Rattle.run_trace.specs.TreeTexts.{numbers_text};

    ghost output = { λ numbers. Some (numbers_text numbers.0.now) };

    fn fmt<W: fmt::Write>(&self, f: &mut fmt::Formatter<W>) -> fmt::Result {
        for number in self.0 {
            write!(f, "/{number}")?;
        }
        Ok(())
    }
}

/// A task's place: a slash, and the numbers on the way there, with a slash between two.
#[derive(Clone, Copy)]
struct PlaceName<'a>(&'a [u64]);

impl<'a> fmt::Display for PlaceName<'a> {
    ghost use Rattle.std.specs.Prelude.{Some};
    ghost use Rattle.run_trace.specs.TreeTexts.{place_name};

    ghost output = { λ name. Some (place_name name.0.now) };

    fn fmt<W: fmt::Write>(&self, f: &mut fmt::Formatter<W>) -> fmt::Result {
        if self.0.is_empty() {
            write!(f, "/")
        } else {
            write!(f, "{}", SlashedNumbers(self.0))
        }
    }
}

/// What a task was given and came to.
#[derive(Clone, Copy)]
struct EndedTaskLines<'a>(&'a EndedTask);

impl<'a> fmt::Display for EndedTaskLines<'a> {
    ghost use Rattle.std.specs.Prelude.{Some};
    ghost use Rattle.run_trace.specs.TreeTexts.{end_text};

    ghost output = { λ end. Some (end_text end.0.now) };

    fn fmt<W: fmt::Write>(&self, f: &mut fmt::Formatter<W>) -> fmt::Result {
        let task = self.0;
        write!(
            f,
            "\\lspent {}, returned {}\\lr0 {}\\lbytes {} from {}\\l",
            task.spent, task.rest, task.r0, task.size, task.base
        )
    }
}

/// A task's box.
#[derive(Clone, Copy)]
struct TaskBox<'a>(&'a EndedTask);

impl<'a> fmt::Display for TaskBox<'a> {
    ghost use Rattle.std.specs.Prelude.{Some};
    ghost use Rattle.run_trace.specs.TreeTexts.{box_text};

    ghost output = { λ task_box. Some (box_text task_box.0.now) };

    fn fmt<W: fmt::Write>(&self, f: &mut fmt::Formatter<W>) -> fmt::Result {
        let task = self.0;
        let place = PlaceName(&task.place);
        write!(
            f,
            "  \"{place}\" [label=\"{place}\\lprogram {}, argument {}\\lgiven {}{}\"];\n",
            task.program,
            task.arg,
            task.given,
            EndedTaskLines(task)
        )
    }
}

/// The edge to a task from its parent.
#[derive(Clone, Copy)]
struct Edge<'a>(&'a [u64]);

impl<'a> fmt::Display for Edge<'a> {
    ghost use Rattle.std.specs.Prelude.{Some};
    ghost use Rattle.run_trace.specs.TreeTexts.{edge_text};

    ghost output = { λ edge. Some (edge_text edge.0.now) };

    fn fmt<W: fmt::Write>(&self, f: &mut fmt::Formatter<W>) -> fmt::Result {
        match parent_of(self.0) {
            Some(parent) => {
                write!(
                    f,
                    "  \"{}\" -> \"{}\";\n",
                    PlaceName(parent),
                    PlaceName(self.0)
                )
            }
            None => Ok(()),
        }
    }
}

/// A task's box, and the edge to it.
#[derive(Clone, Copy)]
struct Node<'a>(&'a FinishedTask);

impl<'a> fmt::Display for Node<'a> {
    ghost use Rattle.std.specs.Prelude.{Some};
    ghost use Rattle.run_trace.specs.TreeTexts.{node_text};

    ghost output = { λ node. Some (node_text node.0.now) };

    #[tactic(auto, unfolding(crate::specs::TreeTexts::node_text))]
    fn fmt<W: fmt::Write>(&self, f: &mut fmt::Formatter<W>) -> fmt::Result {
        let task = &self.0.ending;
        write!(f, "{}{}", TaskBox(task), Edge(&task.place))
    }
}

/// A box for each task, and an edge to it.
#[derive(Clone, Copy)]
struct Nodes<'a>(&'a [FinishedTask]);

impl<'a> fmt::Display for Nodes<'a> {
    ghost use Rattle.std.specs.Prelude.{Some};
    ghost use Rattle.run_trace.specs.TreeTexts.{nodes_text};

    ghost output = { λ nodes. Some (nodes_text nodes.0.now) };

    fn fmt<W: fmt::Write>(&self, f: &mut fmt::Formatter<W>) -> fmt::Result {
        for finished in self.0 {
            write!(f, "{}", Node(finished))?;
        }
        Ok(())
    }
}

/// The tree as a graph in the language DOT: a box a task, with its program and its argument, the
/// credit that it was given, what it spent and returned, R0, and the bytes of the buffer that it
/// left, and an edge to each from its parent.
#[derive(Clone, Copy)]
pub struct TreeDrawing<'a>(pub &'a Tree);

impl<'a> fmt::Display for TreeDrawing<'a> {
    ghost use Rattle.std.specs.Prelude.{Some};
    ghost use Rattle.run_trace.specs.TreeTexts.{tree_text};

    ghost output = { λ drawing. Some (tree_text drawing.0.now.tasks.items) };

    fn fmt<W: fmt::Write>(&self, f: &mut fmt::Formatter<W>) -> fmt::Result {
        let tree = self.0;
        let nodes = Nodes(&tree.tasks);
        write!(
            f,
            "digraph job {{\n  node [shape=box, fontname=\"monospace\"];\n{nodes}}}\n"
        )
    }
}
