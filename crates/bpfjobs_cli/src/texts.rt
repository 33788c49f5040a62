//! The texts of `--help`, for each command.

pub(crate) const BPFJOBS: &str =
    "Verifies eBPF programs, and runs them as trees of tasks that keep to their memory and credit";

pub(crate) const BPFJOBS_MORE: &str =
    "Input comes on standard input, and answers go to standard output.

Status: 0 answered; 1 refused, with the number of the refusal printed; 2 wrong words;
3 where input, output or a socket fails, or there is no memory for input or answer.

`bpfjobs COMMAND --help` tells what a command reads and writes, with an example.";

pub(crate) const ASSEMBLE: &str = "Turns source text into bytes";

pub(crate) const INPUT: &str = "The file to read; without one, or with `-`, the standard input";

pub(crate) const ASSEMBLE_MORE: &str =
    "Reads source text: an instruction a line, comments from `;` on.
Writes the program's bytes in hexadecimal, or `refused N` or `refused N at LINE`.
Status: 0 written, 1 refused (73: no UTF-8), 3 where input or output fails.

Example:
  $ printf 'mov64 r0, 42\\nexit\\n' | bpfjobs assemble
  b70000002a0000009500000000000000";

pub(crate) const DISASSEMBLE: &str = "Turns bytes into source text";

pub(crate) const DISASSEMBLE_MORE: &str = "Reads a program's bytes in hexadecimal.
Writes an instruction a line, or `refused N` or `refused N at SLOT`.
Status: 0 written, 1 refused (73: no hexadecimal), 3 where input or output fails.

Example:
  $ echo b70000002a0000009500000000000000 | bpfjobs disassemble
  mov64 r0, 42
  exit";

pub(crate) const VERIFY: &str = "Tells whether a program is accepted, and what it costs at most";

pub(crate) const VERIFY_MORE: &str = "Reads a program's bytes in hexadecimal.
Writes `accepted cost C`, or `refused N` or `refused N at SLOT`.
Status: 0 accepted, 1 refused (73: no hexadecimal), 3 where input or output fails.

Example:
  $ echo b70000002a0000009500000000000000 | bpfjobs verify --need 0
  accepted cost 2";

pub(crate) const NEED: &str = "Bytes of its part that the program may count on, 0 to 65536";

pub(crate) const PLAY: &str = "Runs a job by a schedule, one instruction for each entry";

pub(crate) const PLAY_MORE: &str =
    "Reads a job as JSON: programs, credit, buffer, and schedule, a list of task numbers.
Writes the buffer and the credit that is held, returned, spent and used, or a refusal.
Status: 0 played, 1 refused, 3 where input or output fails.

Example:
  $ bpfjobs play examples/answer.json
  {\"buffer\":\"\",\"complete\":true,\"held\":0,\"ok\":true,\"returned\":0,\"spent\":2,\"used\":2}";

pub(crate) const TRACE: &str =
    "Tells each instruction that runs, its task, and what it changes, on standard error";

pub(crate) const TRACE_JSON: &str = "Writes the same into a file, a JSON object a line";

pub(crate) const RUN: &str = "Runs a job to its end on threads";

pub(crate) const RUN_MORE: &str = "Reads a job as JSON: programs, credit and buffer.
Writes the buffer, the credit that was returned and spent, and each task, or a refusal.
Where standard error is a terminal, a line there tells meanwhile how far the job is.
Status: 0 run, 1 refused, 3 where input or output fails.

Example:
  $ bpfjobs run --workers 2 examples/spawn.json
  {\"buffer\":\"0000000009000000\",\"ok\":true,\"returned\":7,\"spent\":27,\"tasks\":[..]}";

pub(crate) const WORKERS: &str = "Threads that run the tasks of a job, 1 to 16";

pub(crate) const TREE: &str = "Writes the tree of the job's tasks into a file, in the language DOT";

pub(crate) const SERVE: &str =
    "Answers requests over TCP on 127.0.0.1, or over a socket in the file system";

pub(crate) const SERVE_USAGE: &str = "bpfjobs serve <--port <PORT>|--socket <PATH>> [OPTIONS]";

pub(crate) const SERVE_MORE: &str =
    "Takes connections, one after the other or as many at once as --clients says, with one desk of
accounts and jobs. Jobs run on threads that start once.
Writes no output: clients send requests and get replies as frames.

With --socket PATH it listens on a Unix socket at PATH, in place of a port. Those who may write to
PATH may connect: the umask says who they are. A socket at PATH on which nobody listens is removed
first, and PATH is removed at the end. With --grants a grant of any other connection is answered
by 73, and changes nothing; the server's own user and root alone may connect there. A path has 1 to
104 bytes, and no two sockets have one path.

With --tenant NAME=PATH a tenant has a socket of its own at PATH, and a desk of its own: jobs that
are submitted there count from 1, and no other socket submits in the tenant's name. A connection
there makes no grant (73), and knows no other tenant (74) and no other's job (76). A tenant is a line
NAME PATH of --tenants FILE too, where `#` begins a comment. With --tenant-jobs COUNT each tenant, and
everybody else as one, may have so many jobs open; a line NAME PATH open-jobs COUNT, from 0 for any
number to 1000000, has its tenant's own. Behind that may stand credit AMOUNT, from 1 to 2147483647:
the tenant is granted so much at first.

With --journal FILE each change of the desk is a record of FILE, which is made where there is none. A
reply is sent once the records of what it tells are on the disk. A server that starts with FILE goes
on from its records: with their accounts, reports and numbers, and the jobs that were open begin
anew. A torn record at the end is kept in FILE.torn and cut off; FILE is not used, and stays as it
is, where it is no journal or damaged, or another server has it (3). At a start a snapshot takes FILE's place where it is at most half as long. With tenants
FILE is that of everybody else, and FILE.NAME that of the tenant NAME. With --journal-sync interval
no reply waits for the disk: what was told in about the last second may be gone after a kill or a
crash, and a later server goes on from what came before it.
Status: 0 once so many connections have ended, 3 where one of them, a socket or the journal failed.

Example:
  $ bpfjobs serve --port 7070 --sessions 1 &
  $ python3 examples/client.py 7070 grant t 100
  {\"balance\":100,\"granted\":100,\"ok\":true,\"open\":0,\"spent\":0}";

pub(crate) const READ_JOURNAL: &str = "Tells the records of a server's journal";

pub(crate) const READ_JOURNAL_MORE: &str =
    "Reads the file of a journal, and leaves it as it is, also while a server uses it.
Writes a JSON object a record: the byte where it begins, and the change of the desk.
With --check it writes how many records there are, if a server goes on from all of them.
A torn record at the end is told; a server that starts cuts it off.
Status: 0 told, 3 where the journal is damaged, or the file or the output fails.

Example:
  $ bpfjobs journal journal
  {\"amount\":100,\"at\":0,\"change\":\"granted\",\"tenant\":\"t\"}
  $ bpfjobs journal journal --check
  journal: 1 record, whole";

pub(crate) const JOURNAL_FILE: &str = "The path of the journal";

pub(crate) const CHECK: &str =
    "Tells no records, and judges the journal as a server does at its start";

pub(crate) const ASK: &str = "Asks a server that runs, and prints its reply";

pub(crate) const ASK_USAGE: &str =
    "bpfjobs ask <--port <PORT>|--socket <PATH>> [OPTIONS] <WORD> [TENANT|JOB] [AMOUNT]";

pub(crate) const ASK_MORE: &str =
    "Connects, sends one request, and writes the JSON of the reply and a line end.

The words are account [TENANT], submit [TENANT] [--key KEY] with a job object on standard input,
status JOB, result JOB, jobs [--from NUMBER], grant TENANT AMOUNT, server, or stop. A tenant's own
socket needs no TENANT, and it alone hears jobs and takes a KEY. Where there is a socket for grants,
it alone hears grant, server and stop.

With --wait it tries again while nobody listens there, and so waits for a server that starts.
Status: 0 the reply is ok, 1 it is a refusal, 2 wrong words, 3 where it can't connect, the stream
ends ahead of the reply, or the input or the output fails: then a line on standard error says why.

Example:
  $ bpfjobs serve --socket door --sessions 1 &
  $ bpfjobs ask --wait 10 --socket door grant t 100
  {\"balance\":100,\"granted\":100,\"ok\":true,\"open\":0,\"spent\":0}";

pub(crate) const JOB: &str = "Writes the job object of source files";

pub(crate) const JOB_MORE: &str =
    "Reads files of source text, assembles each, and writes the job of these programs as JSON, in a
line: run, play and ask .. submit read it. Program 0 is the root's.
Status: 0 written, 1 a source is refused, 2 wrong words, 3 where a file or the output fails: then a
line on standard error says why.

Example:
  $ bpfjobs job --credit 4 --buffer 00*8 answer.bpf:8 > job.json
  $ bpfjobs run job.json";

pub(crate) const CREDIT: &str = "The credit of the job, 0 to 4294967295";

pub(crate) const BUFFER: &str =
    "The buffer in hexadecimal, or bytes so often: 00*8 has eight zeros; at most 65536 bytes";

pub(crate) const SCHEDULE: &str =
    "The numbers of tasks by which play runs the job, as 0,1,1; none, where it is left out";

pub(crate) const SOURCES: &str =
    "A file of source text, and the bytes of its part that the program may count on";

pub(crate) const CHECK_RESULT: &str = "Judges the result of a job";

pub(crate) const CHECK_RESULT_MORE: &str =
    "Reads a job object and a result as run, or ask .. result, writes it. Runs the job again, task by
task, and tells whether the result is its one answer: the buffer, spent, returned, and each task
once, by its program, r0, spent and rest. The numbers of tasks may differ. One of the two files may
be `-`, the standard input.
Status: 0 it is the answer, 1 it isn't, or one of the two is refused, 2 wrong words, 3 where a file
or the output fails, or there is no memory.

Example:
  $ bpfjobs run job.json | bpfjobs check job.json -
  the result is the job's one answer";

pub(crate) const JOB_FILE: &str = "The path of the job object, or `-`, the standard input";

pub(crate) const RESULT_FILE: &str = "The path of the result, or `-`, the standard input";

pub(crate) const WORD: &str = "account, submit, status, result, jobs, grant, server or stop";

pub(crate) const SUBJECT: &str = "The name of a tenant, or the number of a job";

pub(crate) const AMOUNT: &str = "The credit of a grant, 1 to 2147483647";

pub(crate) const WAIT: &str = "Seconds within which a server may begin to listen there, 0 to 3600";

pub(crate) const KEY: &str = "A key of the submit, at a tenant's own socket";

pub(crate) const FROM: &str = "The number of the first job to list, 1 and up";

pub(crate) const SOCKET: &str = "The path of the server's socket, in place of a port";

pub(crate) const GRANTS: &str =
    "With --socket: the path of a second socket, which alone takes grants";

pub(crate) const TENANT: &str =
    "With --socket: a tenant, and the path of a socket for it alone; up to 256 times";

pub(crate) const TENANTS: &str =
    "With --socket: a file with a tenant a line: NAME PATH [open-jobs COUNT] [credit AMOUNT]";

pub(crate) const TENANT_JOBS: &str =
    "With tenants: jobs that each may have open at once, 1 to 1000000: others fail by 81";

pub(crate) const PORT: &str = "The server's port on 127.0.0.1, 1 to 65535";

pub(crate) const SESSIONS: &str =
    "Connections to take in all, 1 to 1000000 [default: 1, or any number with --clients above 1]";

pub(crate) const CLIENTS: &str = "Connections to serve at once, 1 to 1024";

pub(crate) const TIMEOUT: &str =
    "Seconds within which a client sends, takes, and ends a frame, 0 for any time, to 3600";

pub(crate) const OPEN_JOBS: &str =
    "Jobs that may be open at once, 0 for any number, to 1000000: others fail by 81";

pub(crate) const KEEP: &str =
    "Last jobs whose reports are kept, 0 for all, to 1000000: earlier ones are told as 76";

pub(crate) const KEEP_BYTES: &str =
    "Bytes that kept reports hold, 0 for any, to 4294967295: those of buffers, and 40 a task";

pub(crate) const JOURNAL: &str =
    "A file that keeps each grant and job, from which a later server goes on; a tenant's is FILE.NAME";

pub(crate) const JOURNAL_SYNC: &str =
    "With --journal: always, ahead of each reply, or interval, once a second [default: always]";

pub(crate) const UNTIL_EOF: &str =
    "Takes no more connections once standard input has ended, and ends with those it has";

pub(crate) const LOG: &str =
    "Tells each connection and each job on standard error, a JSON object a line";

pub(crate) const VERSION: &str = "0.1.0";
