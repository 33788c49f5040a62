//! The parts of a change: programs, tasks and reports.

use crate::bytes::{Blob, write_bytes};
use crate::encoded::{Encoded, ReadFault};
use crate::lists::write_list;
use credit_book::{Report, TaskEnd};
use job_core::ProgramBytes;
use std::alloc::{AllocError, Global};

impl Encoded for ProgramBytes {
    ghost use Rattle.std.specs.Int.{w32, to_le_bytes};
    ghost use Rattle.desk_journal.specs.Changes.{program_bytes};
    ghost use Rattle.desk_journal.specs.Encodings.{counted_bytes};
    ghost use Rattle.desk_journal.specs.PartLemmas.{program_there, program_rest};

    ghost bytes = { program_bytes };

    fn write(&self, out: &mut Vec<u8>) -> Result<(), AllocError> {
        self.need.write(out)?;
        write_bytes(&self.code, out)
    }

    fn read(alloc: Global, input: &[u8]) -> Result<(ProgramBytes, usize), ReadFault> {
        let ((need, code), length) = <(u32, Blob)>::read(alloc, input)?;
        let code = code.bytes;
        Ok((ProgramBytes { need, code }, length))
    }

    ghost is_there = { program_there };

    ghost one_rest = { program_rest };
}

// The numbers of a task, one behind the other.
type TaskNumbers = (u32, (u16, (u64, (u32, (u32, (u32, (u64, bool)))))));

impl Encoded for TaskEnd {
    ghost use Rattle.desk_journal.specs.Changes.{task_bytes};
    ghost use Rattle.desk_journal.specs.PartLemmas.{task_there, task_rest};

    ghost bytes = { task_bytes };

    fn write(&self, out: &mut Vec<u8>) -> Result<(), AllocError> {
        let TaskEnd {
            number,
            program,
            arg,
            given,
            spent,
            rest,
            r0,
            ran,
        } = *self;
        (
            number,
            (program, (arg, (given, (spent, (rest, (r0, ran)))))),
        )
            .write(out)
    }

    fn read(alloc: Global, input: &[u8]) -> Result<(TaskEnd, usize), ReadFault> {
        let ((number, (program, (arg, (given, (spent, (rest, (r0, ran))))))), length) =
            TaskNumbers::read(alloc, input)?;
        let task = TaskEnd {
            number,
            program,
            arg,
            given,
            spent,
            rest,
            r0,
            ran,
        };
        Ok((task, length))
    }

    ghost is_there = { task_there };

    ghost one_rest = { task_rest };
}

impl Encoded for Report {
    ghost use Rattle.desk_journal.specs.Changes.{report_bytes};
    ghost use Rattle.desk_journal.specs.PartLemmas.{report_is_there, report_rest};

    ghost bytes = { report_bytes };

    #[tactic(auto, using(std::proofs::lemmas::List::append_assoc))]
    fn write(&self, out: &mut Vec<u8>) -> Result<(), AllocError> {
        self.spent.write(out)?;
        self.returned.write(out)?;
        write_bytes(&self.buffer, out)?;
        write_list(&self.tasks, out)?;
        Ok(())
    }

    fn read(alloc: Global, input: &[u8]) -> Result<(Report, usize), ReadFault> {
        let ((spent, (returned, (buffer, tasks))), length) = <(
            u32,
            (u32, (Blob, Vec<TaskEnd>)),
        )>::read(alloc, input)?;
        let report = Report {
            spent,
            returned,
            buffer: buffer.bytes,
            tasks,
        };
        Ok((report, length))
    }

    ghost is_there = { report_is_there };

    ghost one_rest = { report_rest };
}
