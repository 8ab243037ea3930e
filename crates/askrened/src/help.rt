//! The texts of the help and of the version.

const VERSION: &str = "askrened 0.1
";

const HELP: &str = "askrened: a route service for Lightning payers

askrened ask [--map FILE] [--local FILE]    serves the request lines of standard input
askrened check                              checks the certificate on standard input
askrened gen NUMBER NODES CHANNELS ASKS     serves requests that it makes itself, and adds up the replies
askrened serve --socket PATH --connections NUMBER [--workers NUMBER] [--map FILE] [--local FILE]
                                            serves the request lines of connections to a socket
askrened COMMAND --help                     tells more of a command
askrened --version                          tells the version

Exit statuses: 0 all was read and answered, 2 the words are no command, 3 a file is refused, 4 a read failed, 5 a write
failed, 6 out of memory, 7 the certificate does not show what it claims, 8 too many lines, 9 too long, 10 a connection
could not be accepted, 13 the socket could not be bound.
";

const ASK_HELP: &str = "askrened ask [--map FILE] [--local FILE]

Serves the request lines of standard input, and writes one reply line for each command.

--map FILE      the channels of the network, in the form of Core Lightning's listchannels
--local FILE    the channels of the node itself, in the same form

Each option may be given once, in any order, and also as --map=FILE. A line has at most 1,048,576 bytes, and a session at
most 1,000,000 lines. A file has at most 268,435,456 bytes; a map lists at most 262,144 directions between 65,536 nodes,
and a local file at most 4,096 directions.

Exit statuses: 0 all lines were answered, 2 the words are no command, 3 a file is refused, 4 a read failed, 5 a write
failed, 6 out of memory, 8 too many lines, 9 a line is too long.
";

const CHECK_HELP: &str = "askrened check

Reads a certificate of at most 134,217,728 bytes from standard input, and writes one line: cheapest, no-flow, no LINE or
unreadable LINE.

Exit statuses: 0 the certificate shows what it claims, 2 the words are no command, 4 a read failed, 5 the write failed,
6 out of memory, 7 the certificate does not show what it claims, 9 too long.
";

const GEN_HELP: &str = "askrened gen NUMBER NODES CHANNELS ASKS

Makes a map of NODES nodes and CHANNELS channels and ASKS requests for routes, serves the requests in memory, and writes
one line: asks A routed R refused F parts P amount_msat M fee_msat E. A is the requests, R the replies with a result, F the
replies with an error, P the routes of all results, M what they deliver, and E their fees. The same words give the same line.

NUMBER      a whole number below 2^64, from which all else is drawn
NODES       2 to 65536
CHANNELS    0 to 131072
ASKS        0 to 10000

Exit statuses: 0 all requests were answered, 2 the words are no command, 5 the write failed, 6 out of memory.
";

const SERVE_HELP: &str =
    "askrened serve --socket PATH --connections NUMBER [--workers NUMBER] [--map FILE] [--local FILE]

Binds a Unix socket, serves so many connections to it, and ends. Each worker accepts a connection, serves its request lines to
their end, and accepts the next one. Layers and reservations are those of all connections. Nothing is written to standard output.

--socket PATH           where the socket is bound; only its owner may connect. A socket that a program left there is replaced
--connections NUMBER    1 to 65000
--workers NUMBER        1 to 64; 4 if absent
--map FILE              the channels of the network, in the form of Core Lightning's listchannels
--local FILE            the channels of the node itself, in the same form

Each option may be given once, in any order. The limits on lines, sessions and files are those of askrened ask.

Exit statuses: 0 all connections were served, 2 the words are no command, 3 a file is refused, 4 a read failed, 6 out of memory,
10 a connection could not be accepted, 13 the socket could not be bound.
";

/// The text that these words alone ask for, if they ask for help or for the version.
pub fn help_for(words: &[String]) -> Option<&'static str> {
    match words {
        [word] => general_help(word.as_str()),
        [command, word] if word.as_str() == "--help" => command_help(command.as_str()),
        _ => None,
    }
}

fn general_help(word: &str) -> Option<&'static str> {
    match word {
        "--help" => Some(HELP),
        "--version" => Some(VERSION),
        _ => None,
    }
}

fn command_help(command: &str) -> Option<&'static str> {
    match command {
        "ask" => Some(ASK_HELP),
        "check" => Some(CHECK_HELP),
        "gen" => Some(GEN_HELP),
        "serve" => Some(SERVE_HELP),
        _ => None,
    }
}
