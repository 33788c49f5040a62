//! A gate is told of the tasks that run.

use std::marker::Brand;
use task_register::JobId;
use virtual_machine::RunObserver;

/// Is told of each task ahead of its first step and past its last one, by the worker that runs it.
pub trait Gate {
    ghost use Rattle.std.specs.Prelude.{ℕ};

    // The gate was told that the task of this number is about to run; that it has ended.
    ghost begins: { Self → ℕ → Type 0 };

    ghost ends: { Self → ℕ → Type 0 };

    /// The task of this number is about to run.
    fn before(&self, number: u32)
        ensures { begins self.now number };

    /// The task of this number has ended.
    fn after(&self, number: u32)
        ensures { ends self.now number };
}

/// A gate that lets all tasks pass.
#[derive(Clone, Copy, Debug, PartialEq, Eq)]
pub struct OpenGate;

impl Gate for OpenGate {
    ghost begins = { λ _ _. Unit {0} };

    ghost ends = { λ _ _. Unit {0} };

    fn before(&self, _number: u32) {}

    fn after(&self, _number: u32) {}
}

/// Names a job whose gate was told of each task that ran. Each call of a program picks it.
pub(crate) trait GatedJob: JobId {
    ghost use Rattle.std.specs.Prelude.{ℕ};

    ghost heard: { ℕ → Type 0 };
}

impl GatedJob for Brand {
    ghost heard = { λ _. Unit {0} };
}

/// A gate, beside the listener that is told how the tasks go on.
#[derive(Drop)]
pub(crate) struct GateAndObserver<'a, 'b, G, L> {
    pub gate: &'a G,
    pub observer: &'b L,
}

impl<G: Gate, L> Gate for GateAndObserver<'_, '_, G, L> {
    ghost begins = { λ h n. G.begins h.gate.now n };

    ghost ends = { λ h n. G.ends h.gate.now n };

    fn before(&self, number: u32) {
        self.gate.before(number);
    }

    fn after(&self, number: u32) {
        self.gate.after(number);
    }
}

impl<G, L: RunObserver> RunObserver for GateAndObserver<'_, '_, G, L> {
    fn pause(&self) {
        self.observer.pause();
    }
}
