//! What `--help` tells.

pub(crate) const BPFRUN: &str =
    "Verifies an eBPF program, runs it by itself, and prints what it comes to";

pub(crate) const BPFRUN_MORE: &str =
    "Writes R0, what the run spent of the credit, and, where a memory is given, that memory behind
the run, in hexadecimal. A program that is refused is told on standard error: the number of the
refusal, what is wrong, where it is text its line, what is known there, and what helps. On a terminal
what is wrong is red, unless NO_COLOR is set.
Status: 0 ran, or drawn and accepted; 1 refused; 2 wrong words; 3 where input or output fails, or there is no memory.

Example:
  $ bpfrun examples/byte_at.bpf --need 16 --arg 3
  r0 0
  spent 4
  $ bpfrun examples/byte_at.bpf --need 15
  error[33]: this load may leave the 15 bytes that the program may count on
   --> examples/byte_at.bpf:5
    |
  5 | ldxb r0, [r1+0]
    |          ^^^^^^
    = at: slot 2
    = known: r1 part+0 to +15
    = help: --need 16";

pub(crate) const FILE: &str =
    "The program: source text (.bpf), hexadecimal (.hex), or its bytes (any other name)";

pub(crate) const NEED: &str =
    "Bytes of its part that the program may count on, 0 to 65536; if not given, all of its memory, or 0";

pub(crate) const CREDIT: &str = "Credit that the run may spend, 0 to 2147483647";

pub(crate) const ARG: &str = "The argument, which R3 has at the start";

pub(crate) const MEMORY: &str =
    "Bytes that are its part, at most 65536; if not given, as many zeros as it needs";

pub(crate) const TRACE: &str =
    "Prints each instruction that runs, what it changes, and the credit used";

pub(crate) const TRACE_JSON: &str = "Writes the same into a file, a JSON object a line";

pub(crate) const EXPLAIN: &str =
    "Tells of a refusal of the verifier each register, and a way there";

pub(crate) const EXPLAIN_ALL: &str =
    "Explains each instruction that isn't allowed, but for those behind another one";

pub(crate) const GRAPH: &str =
    "Writes the program's graph in place of a run, in the language DOT; red is why it is refused";

pub(crate) const VERSION: &str = "0.1.0";
