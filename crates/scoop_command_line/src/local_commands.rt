//! The rows of `answer`, `world`, `frame` and `demo`.

use crate::rows::{ArgumentRow, CommandRow, Place, Value};

// The help of a command that runs objects, with the table of classes inside.
macro_rules! with_classes {
    ($front:literal, $back:literal $(,)?) => {
        concat!(
            $front,
            "Classes, their words and their operations by number:\n\
        \x20 cell       1 word    1 set A (gives A), 2 get\n\
        \x20 counter    1 word    1 add A (gives the sum), 2 get\n\
        \x20 account    1 word    1 deposit A, 2 withdraw A (refused if there is less), 3 balance; each gives the balance\n\
        \x20 exchange   2 words   1 put A (gives the number that was put before)\n\
        Numbers are whole, from 0 to 18446744073709551615, and stop there. A request with another operation, or \
        without the argument A, is refused and changes nothing.\n\n",
            $back
        )
    };
}

pub(crate) const ANSWER: CommandRow = CommandRow {
    name: "answer",
    usage: None,
    about: "Answers each datagram of standard input with one line",
    help: with_classes!(
        "Runs one handler with one object, and gives it the datagrams of standard input. Each line is one \
        datagram in hex digits of either case; spaces are skipped. Each is answered with one line: the reply \
        in hex digits, or `none` and what the handler did, or `refused` and why the datagram is not a frame. \
        Logged requests run as soon as they may.\n\n\
        With a file, the handler begins with the state stored there, and stores each state before it prints the reply. \
        Repeat the --class that you gave with --new, since the store doesn't record it; --word counts for a new handler only. A \
        run ends when its history has 1000000 entries (a call makes about four); with a file, resume with --store.\n\n",
        "Statuses: 0; 1 for a fault of the input, printed as `scoop: line N: TEXT`; 2 for the command line; 3 for \
        memory, output, or the store, printed as `scoop: store: NAME`.\n\n\
        Example: scoop frame Hello 1 7 1 | scoop answer",
    ),
    arguments: &ANSWER_ARGUMENTS,
};

const ANSWER_ARGUMENTS: [ArgumentRow; 6] = [
    ArgumentRow {
        name: "handler",
        place: Place::Option,
        value: Value::U32,
        value_name: "N",
        default: Some("1"),
        help: "The number of the handler, up to 4294967295",
    },
    ArgumentRow {
        name: "class",
        place: Place::Option,
        value: Value::ClassName,
        value_name: "NAME",
        default: Some("cell"),
        help: "The class of its object",
    },
    ArgumentRow {
        name: "word",
        place: Place::Option,
        value: Value::U64,
        value_name: "W",
        default: Some("0"),
        help: "The first word of a new handler's object, up to 18446744073709551615; any others are 0",
    },
    ArgumentRow {
        name: "new",
        place: Place::OptionWithout("store"),
        value: Value::Text,
        value_name: "FILE",
        default: None,
        help: "Makes a store in this file, which must be missing or empty, and stores the handler's state there. Without --new \
            and --store nothing is stored",
    },
    ArgumentRow {
        name: "store",
        place: Place::Option,
        value: Value::Text,
        value_name: "FILE",
        default: None,
        help: "Resumes the store in this file, and stores the handler's state there",
    },
    ArgumentRow {
        name: "words",
        place: Place::Option,
        value: Value::Flag,
        value_name: "",
        default: None,
        help: "Prints the object's words, in decimal, after the last line",
    },
];

pub(crate) const WORLD: CommandRow = CommandRow {
    name: "world",
    usage: Some("scoop world [OPTIONS] < SCRIPT"),
    about: "Plays a script of standard input, and prints its events and histories",
    help: with_classes!(
        "Plays a script. Its first lines place handlers and let clients join:\n\
        \x20 handler NODE H CLASS W..   handler H on a node, with an object of the class and all its words\n\
        \x20 client C, client C B       client C, which puts 1, or B (1 to 4), entries into one Log\n\
        Each further line is an event:\n\
        \x20 reserve C H..              client C reserves 1 to 8 handlers for a block\n\
        \x20 call C H OP A..            it logs a command\n\
        \x20 query C H OP A..           it logs a query, and waits for the answer\n\
        \x20 end C, giveup C            it ends its block, or gives it up while it locks\n\
        \x20 tick C H                   it sends handler H the message that is due\n\
        \x20 take I                     the I-th message that was sent arrives, as often as you like\n\
        \x20 trip C H                   tick, take it, and take the reply\n\
        \x20 begin H, finish H          handler H begins its next entry, and finishes it\n\
        \x20 run H                      both\n\
        \x20 restart client C           it restarts with its next incarnation\n\
        \x20 restart node N             its handlers resume from what is stored\n\
        OP is an operation's number. After `reserve`, one `trip C H` for each handler locks it, and one more opens it; \
        until then `call` and `query` are `refused NoBlock`. Spaces separate words. Empty lines and lines that begin with \
        `#` are skipped.\n\n\
        Each event prints what it did: `done`, `silent`, `sent I KIND`, a handler's or a client's note, `began`, \
        `ran`, `restarted`, `reopened`, or `refused` and why. The end prints the histories: the common list of \
        blocks, what opened and what ran at each handler, and what each client accepted. A block is \
        C.INC.N, the client's N-th block. An entry that ran is BLOCK:N:ANSWER, with `end` for an End. An answer that a \
        client accepted has H: in front.\n\n",
        "Statuses: 0; 1 for a fault of the script, printed as `scoop: line N: TEXT`, and for a run that is too long for its \
        chart; 2 for the command line; 3 for memory, output or the chart's file.\n\n\
        Example: printf 'handler 1 1 cell 0\\nclient 7\\ntrip 7 1\\n' | scoop world --echo",
    ),
    arguments: &WORLD_ARGUMENTS,
};

const WORLD_ARGUMENTS: [ArgumentRow; 4] = [
    ArgumentRow {
        name: "echo",
        place: Place::Option,
        value: Value::Flag,
        value_name: "",
        default: None,
        help: "Prints each event's line before what it did, with the message that it takes or the entry that it runs",
    },
    ArgumentRow {
        name: "strict",
        place: Place::Option,
        value: Value::Flag,
        value_name: "",
        default: None,
        help: "Ends at the first event that is refused, with status 1 and its line",
    },
    ArgumentRow {
        name: "settle",
        place: Place::Option,
        value: Value::Flag,
        value_name: "",
        default: None,
        help: "After the last line, lets the world settle: entries run, clients send what is due and end their blocks, \
            until every client is idle. Then says how many rounds were left at most, and how many steps it took",
    },
    ArgumentRow {
        name: "chart",
        place: Place::Option,
        value: Value::Text,
        value_name: "FILE",
        default: None,
        help: "Writes a sequence chart of the run to this file, as SVG; a run of more than 2000 events has none",
    },
];

pub(crate) const FRAME: CommandRow = CommandRow {
    name: "frame",
    usage: None,
    about: "Prints the frame of a message in words, or the frames of standard input in words",
    help: "Prints the frame of the message that the words describe, in hex digits. Without words, reads frames in hex digits \
        from standard input, one a line. Prints each in words, or `refused` and why it is not a frame.\n\n\
        \x20 Hello H C INC, Welcome H C INC\n\
        \x20 Lock H BLOCK, Locked, Busy, Open, Opened, Unlock, Unlocked\n\
        \x20 Log H BLOCK N ENTRY..      the entries from number N on: call:OP:A.., query:OP:A.. or end\n\
        \x20 Logged H BLOCK N\n\
        \x20 Answer H BLOCK N ANSWER    a number or `refused`\n\
        H is a handler's number, C a client's, and INC its incarnation; BLOCK is C.INC.N, the client's N-th block. \
        `v2` in front means a frame of version 2, whose Log may have up to 4 entries; \
        without it the version is 1.\n\n\
        Statuses: 0; 1 for a fault of a line, printed as `scoop: line N: TEXT`; 2 for words that are no message, or a \
        message that no frame has; 3 for memory or output.\n\n\
        Example: scoop frame Lock 1 7.1.1",
    arguments: &FRAME_ARGUMENTS,
};

const FRAME_ARGUMENTS: [ArgumentRow; 1] = [ArgumentRow {
    name: "words",
    place: Place::Words,
    value: Value::Text,
    value_name: "WORD",
    default: None,
    help: "The words of a message; with none, frames are read from standard input",
}];

pub(crate) const DEMO: CommandRow = CommandRow {
    name: "demo",
    usage: None,
    about: "Shows two nodes and three clients, which paint the same cells over UDP",
    help: "Shows the runtime at work in one process, over UDP of this machine. Nodes 1 and 2, served by threads, hold \
        one cell each. Clients 7 and 8, each in a thread, paint both cells, one with 1 and the other with 2, in \
        R blocks that reserve both. Then client 9 reads both cells in one block. In whatever order the blocks of the two \
        ran, both cells hold one value. Ports 47101, 47102 and 47107 to 47109 have to be free.\n\n\
        With --wait node 1 holds an account too. Client 7 deposits 50 in each of two blocks. Client 8 waits for \
        a balance of 100, in at most 10,000 tries, and withdraws it.\n\n\
        With --weave the clients keep diaries. Then the demo looks for one order of all that nodes and clients did, in which \
        each message was sent before it was heard.\n\n\
        Input: none.\n\n\
        Output: with --wait `balance` and what client 9 reads, or `condition failed` if client 8 waited in vain; \
        `cells same` or `cells different`; `node 1 closed` and `node 2 closed` if a node's history matched its \
        threads' records; with --weave `woven: N moves`, or `not woven` and the first move that no order explains. \
        At a terminal, a line of standard error shows how many rounds are done.\n\n\
        Statuses: 0; 1 if the cells are different, the condition failed or there is no order; 2 for the command \
        line; 3 for links and threads, printed as `scoop: link: NAME`, for memory or output.\n\n\
        Example: scoop demo --rounds 100 --wait",
    arguments: &DEMO_ARGUMENTS,
};

const DEMO_ARGUMENTS: [ArgumentRow; 4] = [
    ArgumentRow {
        name: "rounds",
        place: Place::Option,
        value: Value::U64,
        value_name: "R",
        default: Some("5"),
        help: "The number of blocks that clients 7 and 8 each paint; a node's history has room for about 8000",
    },
    ArgumentRow {
        name: "turns",
        place: Place::Option,
        value: Value::U64,
        value_name: "T",
        default: Some("100000"),
        help: "The most polls that a client's call takes; each takes a datagram or ten milliseconds. A node's loop takes at \
            most 100 times as many",
    },
    ArgumentRow {
        name: "wait",
        place: Place::Option,
        value: Value::Flag,
        value_name: "",
        default: None,
        help: "Shows a client that waits for a condition too",
    },
    ArgumentRow {
        name: "weave",
        place: Place::Option,
        value: Value::Flag,
        value_name: "",
        default: None,
        help: "Looks for one order of what nodes and clients did",
    },
];
