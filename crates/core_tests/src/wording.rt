//! What is told of refusals that no built program prints.

use crate::scenarios::Findings;
use assembler::{TextFault, nothing_refused, one_program, one_refusal, read_back};
use disassembler::one_line;
use flow_graph::FlowFault;
use insn_codec::CodecFault;
use std::alloc::Global;
use verifier::Refusal;
use virtual_machine::VmFault;

const WITHOUT_MEMORY: &str = "99: out of memory";

fn verdicts_and_runs_without_memory(alloc: Global, findings: &mut Findings) -> anyhow::Result<()> {
    let told = format!(in alloc; "{}", Refusal::NoMemory)?;
    let codes = (Refusal::NoMemory.code(), Refusal::NoMemory.slot());
    let is_told = told.as_str() == WITHOUT_MEMORY && codes == (99, None);
    findings.holds(is_told, "a verdict");
    let told = format!(in alloc; "{}", VmFault::NoMemory)?;
    let is_told = told.as_str() == WITHOUT_MEMORY && VmFault::NoMemory.code() == 99;
    findings.holds(is_told, "a run");
    let told = format!(in alloc; "{}", VmFault::NoProgram)?;
    let is_told = told.as_str() == "41: no program is set" && VmFault::NoProgram.code() == 41;
    findings.holds(is_told, "no program");
    Ok(())
}

fn texts_and_graphs_without_memory(alloc: Global, findings: &mut Findings) -> anyhow::Result<()> {
    let told = format!(in alloc; "{}", CodecFault::NoMemory)?;
    let is_told = told.as_str() == WITHOUT_MEMORY && CodecFault::NoMemory.code() == 99;
    findings.holds(is_told, "bytes");
    let told = format!(in alloc; "{}", TextFault::NoMemory)?;
    let is_told = told.as_str() == WITHOUT_MEMORY && TextFault::NoMemory.code() == 99;
    findings.holds(is_told, "a text");
    let told = format!(in alloc; "{}", FlowFault::NoMemory)?;
    let is_told = told.as_str() == WITHOUT_MEMORY && FlowFault::NoMemory.code() == 99;
    findings.holds(is_told, "a graph");
    Ok(())
}

fn refusals_of_single_programs(alloc: Global, findings: &mut Findings) -> anyhow::Result<()> {
    let fault = VmFault::CreditLow {
        wanted: 9,
        given: 8,
    };
    let told = format!(in alloc; "{fault}")?;
    let text = "42: a credit of 8, under the program's cost of 9";
    findings.holds(told.as_str() == text && fault.code() == 42, "a credit");
    let fault = VmFault::MemoryShort {
        wanted: 7,
        given: 6,
    };
    let told = format!(in alloc; "{fault}")?;
    let text = "43: a memory of 6 bytes, under the program's need of 7";
    findings.holds(told.as_str() == text && fault.code() == 43, "a memory");
    Ok(())
}

/// A refusal that isn't of this text quotes nothing of it.
fn quotes_of_other_texts(_alloc: Global, findings: &mut Findings) -> anyhow::Result<()> {
    let quotes_none = TextFault::UnknownWord(2).quoted("exit").is_none()
        && TextFault::UnknownWord(2)
            .quoted("exit\n; nothing\n")
            .is_none();
    findings.holds(quotes_none, "a line that isn't there is quoted");
    Ok(())
}

/// Goes through all of it, and calls the laws of texts.
pub fn go_through(alloc: Global, findings: &mut Findings) -> anyhow::Result<()> {
    one_line();
    one_program();
    nothing_refused();
    one_refusal();
    read_back();
    verdicts_and_runs_without_memory(alloc, findings)?;
    texts_and_graphs_without_memory(alloc, findings)?;
    refusals_of_single_programs(alloc, findings)?;
    quotes_of_other_texts(alloc, findings)
}
