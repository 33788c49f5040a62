//! What is known of the registers ahead of a slot.

ghost use Rattle.std.specs.Prelude.{◌≡◌, ◌≤◌, IsTrue, length};
ghost use Rattle.value_ranges.specs.Joins.{joined};
ghost use Rattle.instruction_rules.specs.Covers.{abs_at};
ghost use Rattle.instruction_rules.specs.Joining.{joined_to};
ghost use Rattle.instruction_rules.specs.States.{entry_state, joined_state, operand_at, refined_state, with_abs, called_state};
ghost use Rattle.machine_model.specs.Limits.{max_part};

use insn_codec::{Operand, Register};
use value_ranges::{Abs, entry, immediate, join_into};

/// What is known of each register ahead of a slot, by its number.
#[derive(Clone, Copy, Debug, PartialEq, Eq)]
pub struct AbsState {
    pub(crate) registers: [Abs; 11],
}

impl AbsState {
    /// What is known at a task's start, in a program that needs so many bytes.
    pub fn entry(need: u32) -> AbsState
        requires { need ≤ max_part }
        ensures { result ≡ entry_state need }
    {
        AbsState {
            registers: [
                entry(need, Register::new(0)),
                entry(need, Register::new(1)),
                entry(need, Register::new(2)),
                entry(need, Register::new(3)),
                entry(need, Register::new(4)),
                entry(need, Register::new(5)),
                entry(need, Register::new(6)),
                entry(need, Register::new(7)),
                entry(need, Register::new(8)),
                entry(need, Register::new(9)),
                entry(need, Register::new(10)),
            ],
        }
    }

    /// What is known of the register.
    pub fn at(&self, register: Register) -> Abs
        ensures value { result ≡ abs_at self.now register }
        ensures range { register ≤ 10 }
    {
        self.registers[usize::from(register.number())]
    }

    /// It has all eleven registers.
    fn is_whole(&self) -> bool
        ensures result { IsTrue result }
        ensures count { length self.now.registers ≡ 11 }
    {
        let _first = self.registers[0];
        true
    }

    /// What is known of the operand: an imm is one number.
    pub fn operand(&self, operand: &Operand) -> Abs
        ensures { result ≡ operand_at self.now operand.now }
    {
        match *operand {
            Operand::Imm(value) => immediate(value),
            Operand::Reg(register) => self.at(register),
        }
    }

    /// One register changes.
    pub fn set(&mut self, register: Register, abs: Abs)
        ensures { self.new ≡ with_abs self.old register abs }
    {
        self.registers[register.number() as usize] = abs;
    }

    /// The operands of a conditional jump change, where they are registers.
    pub fn set_operands(&mut self, dst: Register, src: &Operand, left: Abs, right: Abs)
        ensures { self.new ≡ refined_state self.old dst src.now (left, right) }
    {
        self.set(dst, left);
        if let Operand::Reg(register) = *src {
            self.set(register, right);
        }
    }

    /// A call leaves its answer, and the arguments unset.
    #[tactic(auto, using(crate::proofs::StateLemmas::called))]
    pub fn set_answer(&mut self, answer: Abs)
        ensures { self.new ≡ called_state self.old answer }
    {
        self.registers[0] = answer;
        self.registers[1] = Abs::Unset;
        self.registers[2] = Abs::Unset;
        self.registers[3] = Abs::Unset;
        self.registers[4] = Abs::Unset;
        self.registers[5] = Abs::Unset;
    }

    /// What is known of one register where another way leads here.
    fn join_at(&mut self, other: &AbsState, register: Register)
        ensures { self.new ≡ joined_to self.old other.now register }
    {
        let place = usize::from(register.number());
        join_into(&mut self.registers[place], &other.registers[place]);
    }

    /// Another way leads here.
    pub fn join(&mut self, other: &AbsState)
        ensures { self.new ≡ joined_state self.old other.now }
    {
        for number in 0u8..11 {
            self.join_at(other, Register::new(number));
        }
    }
}
