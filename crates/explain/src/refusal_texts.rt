//! The refusals: of each what is wrong, and what to do. Made by docs/refusals.py.

ghost use Rattle.std.specs.Prelude.{◌≡◌, option_map};
ghost use Rattle.explain.specs.RefusalTexts.{refusal_help, refusal_text};

/// What is wrong, where there is a refusal of this number.
pub fn refusal_text(number: u8) -> Option<&'static str>
    ensures { option_map (λ text. text.now) result ≡ refusal_text number }
{
    match number {
        1 => Some("there is no instruction"),
        2 => Some("the length in bytes is no multiple of 8"),
        3 => Some("the program has more than 4096 slots"),
        4 => Some("no instruction has this opcode with these fields"),
        5 => Some("a register over 10 is used"),
        6 => Some("a field that the instruction does not use is not zero"),
        7 => Some("the second slot of a wide load is missing"),
        11 => Some("no instruction has this word"),
        12 => Some("the operands are not those of the word"),
        13 => Some("a number or a register is out of range"),
        21 => Some("a jump leads out of the program"),
        22 => Some("a jump leads into the middle of a wide load"),
        23 => Some("a path leads back to where it has been: there is a loop"),
        24 => Some("the program may run past its end"),
        25 => Some("no path leads to an instruction"),
        31 => Some("a register is read that may be unset"),
        32 => Some("an access may leave the 512 bytes of the stack"),
        33 => Some("an access may leave the bytes of the part that the program needs"),
        34 => Some("a number where a pointer has to be, or a pointer for a number"),
        35 => Some("a pointer may go too far from its region"),
        36 => Some("r10 is written"),
        37 => Some("no helper has this number"),
        38 => Some("the need is over 65536 bytes"),
        41 => Some("nothing is held: no program, no job or no desk"),
        42 => Some("the credit is under the program's cost"),
        43 => Some("the memory is too short, or not as long as at the start"),
        44 => Some("the id of a host's helper is none of 64 to 127"),
        45 => Some("a helper takes more than 5 arguments"),
        46 => Some("a program is set already"),
        47 => Some("the task has ended, or there is none"),
        48 => Some("the program may call the host's helpers, and is run without a task"),
        51 => Some("the job has no such task"),
        52 => Some("more is used than the task holds"),
        53 => Some("the share is over the credit that the task holds"),
        61 => Some("the job has no program"),
        62 => Some("the job has more than 16 programs"),
        63 => Some("the credit is under the cost of the root"),
        64 => Some("the buffer is shorter than the need of the root"),
        65 => Some("a length or a credit is over its limit, or a room is too short"),
        71 => Some("a frame is over 1048576 bytes"),
        72 => Some("this is no JSON"),
        73 => Some("there is no such request, or a text is not UTF-8 or hexadecimal"),
        74 => Some("there is no such tenant here"),
        75 => Some("the credit is over the tenant's balance"),
        76 => Some("there is no such job, or it is forgotten"),
        77 => Some("the job is not complete"),
        78 => Some("there is no such connection"),
        81 => Some("the job failed: no thread could start, or too many jobs were open"),
        82 => Some("the job failed: its report does not add up to its credit"),
        83 => Some("the input could not be read"),
        84 => Some("the output could not be written"),
        99 => Some("out of memory"),
        _ => None,
    }
}

/// What to do, where there is a refusal of this number.
pub fn refusal_help(number: u8) -> Option<&'static str>
    ensures { option_map (λ text. text.now) result ≡ refusal_help number }
{
    match number {
        1 => Some("write one at least: the shortest program is `mov64 r0, 0` and `exit`"),
        2 => Some(
            "give the program's slots alone, of 8 bytes each; of an ELF object that is its section `.text`",
        ),
        3 => Some("make several programs of it, of at most 4096 slots each"),
        4 => Some(
            "use the groups base and divmul; atomics, packet loads, maps and calls into the program are left out",
        ),
        5 => Some("use r0 to r10"),
        6 => Some("set the fields to zero that the instruction does not use"),
        7 => Some("let the second slot follow: `lddw` takes 16 bytes"),
        11 => Some(
            "write a word of the table, such as `mov64`, `ldxb` or `jeq32`, in lower case, and one space behind it",
        ),
        12 => Some(
            "write them as the table does, with decimal numbers: `mov64 r0, 16`, `ldxb r0, [r1+0]`, `jeq r0, 0, +2`",
        ),
        13 => Some(
            "use r0 to r10, offsets of 16 bits and numbers of 32; `lddw` takes a number of 64",
        ),
        21 => Some("let it lead to an instruction: an offset counts slots from the next one on"),
        22 => Some("count two slots for `lddw`, and jump to the first"),
        23 => Some(
            "write the rounds one behind the other; loops are left out by design, so that each run ends",
        ),
        24 => Some("end each path by `exit` or by a jump"),
        25 => Some("take it out, or let a jump lead there"),
        31 => Some(
            "set it on each way there: r1, r2, r3 and r10 are set at the start, and a call leaves r1 to r5 unset",
        ),
        32 => Some("stay between r10-512 and r10-1: `[r10-8]` has the last 8 bytes"),
        33 => Some("verify with a larger need, or let a jump test the index ahead of the access"),
        34 => Some(
            "take addresses from r1 or r10, keep pointers out of memory and of r0 at `exit`, and lengths at most 512",
        ),
        35 => Some(
            "let a jump test the number first: a pointer goes at most 1048576 bytes from its region's first",
        ),
        36 => Some("change a copy: `mov64 r2, r10`, and then `add64 r2, -8`"),
        37 => Some("call 1 to 5, or a helper of 64 to 127 that the host registered"),
        38 => Some("need at most 65536 bytes"),
        41 => Some(
            "load the program, open the job or make the desk first, and look whether that was refused",
        ),
        42 => Some("give as much as the verdict says that the program costs"),
        43 => Some(
            "give as many bytes as the program needs; a task that goes on wants the length that it began with",
        ),
        44 => Some("register it by an id of 64 to 127"),
        45 => Some("take at most 5 arguments, which are r1 to r5"),
        46 => Some("register helpers before a program is set"),
        47 => Some("start another task"),
        48 => Some("start a task of it, which stops where it asks its host"),
        51 => Some("tell the makers: no job comes to it"),
        52 => Some("tell the makers: no job comes to it"),
        53 => Some("tell the makers: no job comes to it"),
        61 => Some("give 1 to 16 programs, of which the first is the root's"),
        62 => Some("give 1 to 16 programs"),
        63 => Some(
            "give as much as the verdict says that program 0 costs, and more for what it spawns",
        ),
        64 => Some("give as many bytes as program 0 needs, and more for what it spawns"),
        65 => Some(
            "give at most 65536 bytes and a credit of 2147483647, and as much room as the length tells",
        ),
        71 => Some("send shorter requests over a new connection"),
        72 => Some("write one JSON object in UTF-8, without a byte order mark"),
        73 => Some(
            "write requests as docs/protocol.md has them, sources in UTF-8, and bytes as pairs of hexadecimal digits",
        ),
        74 => Some("name a tenant with an account, at its own socket if it has one"),
        75 => Some("ask for less, or have more granted"),
        76 => Some("ask by the number that the submit was answered, while the report is kept"),
        77 => Some("ask again once its status says that it is"),
        78 => Some("begin a conversation first, and use none that has ended"),
        81 => Some("submit it again later: its credit is back in the balance"),
        82 => Some(
            "look at who ran it: a report has to tell all of the credit as spent or returned",
        ),
        83 => Some(
            "look whether the file is there and may be read, or whether the other end is gone",
        ),
        84 => Some("look whether there is room and whether the other end still reads"),
        99 => Some("ask again when there is more memory: nothing has changed"),
        _ => None,
    }
}
