//! A function of the caller's.

ghost use Rattle.std.specs.Prelude.{◌≡◌};

/// A function of the caller's, which takes five numbers and answers one.
pub type Function = fn(u64, u64, u64, u64, u64) -> u64;

/// A function that may be called on any five numbers.
#[derive(Drop)]
pub struct Registered {
    function: Function,
    ghost callable: { Function.IsAlwaysCallable function },
}

impl Registered {
    ghost use Rattle.virtual_machine.specs.Functions.{answers};

    /// The function, ready to be called.
    pub fn of(function: Function) -> Registered
        requires { Function.IsAlwaysCallable function }
        ensures { result.function ≡ function }
    {
        Registered { function }
    }

    /// What it answers to five arguments.
    pub fn answer(&self, arguments: [u64; 5]) -> u64
        ensures { answers self.now arguments result }
    {
        let [a, b, c, d, e] = arguments;
        (self.function)(a, b, c, d, e)
    }
}
